// The default sheet.
ghost use Rattle.std.specs.Prelude.{◌≡◌};
ghost use Rattle.md_table.specs.Defaults.{default_heading, default_marker, default_alert, default_icon, default_sheet};

use crate::alert::AlertKind;
use crate::sheet::StyleSheet;
use term_text::Style;

/// The sheet of the default answers.
#[derive(Clone, Copy, Debug, Default)]
pub struct DefaultStyleSheet;

/// The default style of a heading of this level.
pub fn default_heading(level: u8) -> Style
    ensures { result ≡ default_heading level }
{
    match level {
        1 => Style::new().on_cyan().bold().underlined(),
        2 => Style::new().cyan().bold(),
        3 => Style::new().cyan().bold().italic(),
        _ => Style::new().light_cyan().italic(),
    }
}

/// The default mark before a heading of this level.
pub fn default_marker(level: u8) -> &'static str
    ensures { result.now ≡ default_marker level }
{
    match level {
        1 => "#",
        2 => "##",
        3 => "###",
        4 => "####",
        5 => "#####",
        _ => "######",
    }
}

/// The default style of an alert.
pub fn default_alert(kind: AlertKind) -> Style
    ensures { result ≡ default_alert kind }
{
    match kind {
        AlertKind::Note => Style::new().blue(),
        AlertKind::Tip => Style::new().green(),
        AlertKind::Important => Style::new().magenta(),
        AlertKind::Warning => Style::new().yellow(),
        AlertKind::Caution => Style::new().red(),
    }
}

/// The default sign before an alert's label.
pub fn default_icon(kind: AlertKind) -> &'static str
    ensures { result.now ≡ default_icon kind }
{
    match kind {
        AlertKind::Note => "\u{2139}\u{FE0F}",
        AlertKind::Tip => "\u{1F4A1}",
        AlertKind::Important => "\u{2757}",
        AlertKind::Warning => "\u{26A0}\u{FE0F}",
        AlertKind::Caution => "\u{1F534}",
    }
}

impl StyleSheet for DefaultStyleSheet {
    ghost sheet = { λ _. default_sheet };

    fn heading(&self, level: u8) -> Style {
        default_heading(level)
    }

    fn heading_marker(&self, level: u8) -> &str {
        default_marker(level)
    }

    fn alert(&self, kind: AlertKind) -> Style {
        default_alert(kind)
    }

    fn alert_icon(&self, kind: AlertKind) -> &str {
        default_icon(kind)
    }

    fn alert_label(&self, kind: AlertKind) -> &str {
        kind.label()
    }

    fn code_block_fence(&self) -> &str {
        "```"
    }

    fn code(&self) -> Style {
        Style::new().white().on_black()
    }

    fn link(&self) -> Style {
        Style::new().blue().underlined()
    }

    fn blockquote(&self) -> Style {
        Style::new().green()
    }

    fn heading_meta(&self) -> Style {
        Style::new().dim()
    }

    fn metadata_block(&self) -> Style {
        Style::new().light_yellow()
    }

    fn html(&self) -> Style {
        Style::new().dim()
    }

    fn math_inline(&self) -> Style {
        Style::new().italic().magenta()
    }

    fn math_display(&self) -> Style {
        Style::new().magenta()
    }

    fn footnote_ref(&self) -> Style {
        Style::new().dim().italic()
    }

    fn footnote_def(&self) -> Style {
        Style::new().dim()
    }

    fn definition_term(&self) -> Style {
        Style::new().bold()
    }

    fn definition_description(&self) -> Style {
        Style::new()
    }

    fn table_header(&self) -> Style {
        Style::new().bold().cyan()
    }

    fn table_cell(&self) -> Style {
        Style::new()
    }

    fn table_border(&self) -> Style {
        Style::new().dark_gray()
    }

    fn list_marker(&self) -> Style {
        Style::new().light_blue()
    }

    fn image_alt(&self) -> Style {
        Style::new().dim().italic()
    }
}
