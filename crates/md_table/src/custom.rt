// A sheet of a user's own choice.
ghost use Rattle.std.specs.Prelude.{◌≡◌, ℕ};
ghost use Rattle.md_table.specs.declared.alert.AlertKind.{AlertKind};
ghost use Rattle.md_table.specs.AlertKind.{label};
ghost use Rattle.md_table.specs.Answers.{at_level, at_kind, by_level, by_kind};
ghost use Rattle.md_table.specs.Custom.{custom_sheet};
ghost use Rattle.md_table.specs.Defaults.{default_sheet, default_heading, default_marker, default_alert, default_icon};

use crate::alert::AlertKind;
use crate::answers::{ByKind, ByLevel};
use crate::defaults::{
    DefaultStyleSheet, default_alert, default_heading, default_icon, default_marker,
};
use crate::sheet::StyleSheet;
use term_text::Style;

/// A sheet with the default answers, but those that a user sets.
///
/// `CustomSheet::default()` answers what `DefaultStyleSheet` does, and each setter gives the same
/// sheet with one answer changed: `CustomSheet::default().with_link(style).with_code(style)`. The
/// sheet borrows its texts, and nothing here takes memory.
#[derive(Clone, Copy, Debug)]
pub struct CustomSheet<'a> {
    heading: ByLevel<Style>,
    heading_marker: ByLevel<&'a str>,
    alert: ByKind<Style>,
    alert_icon: ByKind<&'a str>,
    alert_label: ByKind<&'a str>,
    code_block_fence: &'a str,
    code: Style,
    link: Style,
    blockquote: Style,
    heading_meta: Style,
    metadata_block: Style,
    html: Style,
    math_inline: Style,
    math_display: Style,
    footnote_ref: Style,
    footnote_def: Style,
    definition_term: Style,
    definition_description: Style,
    table_header: Style,
    table_cell: Style,
    table_border: Style,
    list_marker: Style,
    image_alt: Style,
}

impl<'a> Default for CustomSheet<'a> {
    ghost is_default = { λ styles. custom_sheet styles ≡ default_sheet };

    fn default() -> CustomSheet<'a> {
        let styles = DefaultStyleSheet;
        CustomSheet {
            heading: default_headings(),
            heading_marker: default_markers(),
            alert: default_alerts(),
            alert_icon: default_icons(),
            alert_label: default_labels(),
            code_block_fence: "```",
            code: styles.code(),
            link: styles.link(),
            blockquote: styles.blockquote(),
            heading_meta: styles.heading_meta(),
            metadata_block: styles.metadata_block(),
            html: styles.html(),
            math_inline: styles.math_inline(),
            math_display: styles.math_display(),
            footnote_ref: styles.footnote_ref(),
            footnote_def: styles.footnote_def(),
            definition_term: styles.definition_term(),
            definition_description: styles.definition_description(),
            table_header: styles.table_header(),
            table_cell: styles.table_cell(),
            table_border: styles.table_border(),
            list_marker: styles.list_marker(),
            image_alt: styles.image_alt(),
        }
    }
}

impl<'a> CustomSheet<'a> {
    /// This sheet with another style of headings of this level; 6 stands for every level
    /// but 1 to 5.
    pub fn with_heading(self, level: u8, style: Style) -> CustomSheet<'a>
        ensures { custom_sheet result ≡ record (custom_sheet self.entry) {
          heading = at_level level style (custom_sheet self.entry).heading;
        } }
    {
        CustomSheet {
            heading: self.heading.with(level, style),
            ..self
        }
    }

    /// This sheet with another mark before headings of this level; 6 stands for every
    /// level but 1 to 5.
    pub fn with_heading_marker(self, level: u8, marker: &'a str) -> CustomSheet<'a>
        ensures { custom_sheet result ≡ record (custom_sheet self.entry) {
          heading_marker = at_level level marker.now (custom_sheet self.entry).heading_marker;
        } }
    {
        CustomSheet {
            heading_marker: self.heading_marker.with(level, marker),
            ..self
        }
    }

    /// This sheet with another style of alerts of this kind.
    pub fn with_alert(self, kind: AlertKind, style: Style) -> CustomSheet<'a>
        ensures { custom_sheet result ≡ record (custom_sheet self.entry) {
          alert = at_kind kind style (custom_sheet self.entry).alert;
        } }
    {
        CustomSheet {
            alert: self.alert.with(kind, style),
            ..self
        }
    }

    /// This sheet with another sign before the labels of alerts of this kind.
    pub fn with_alert_icon(self, kind: AlertKind, icon: &'a str) -> CustomSheet<'a>
        ensures { custom_sheet result ≡ record (custom_sheet self.entry) {
          alert_icon = at_kind kind icon.now (custom_sheet self.entry).alert_icon;
        } }
    {
        CustomSheet {
            alert_icon: self.alert_icon.with(kind, icon),
            ..self
        }
    }

    /// This sheet with another label of alerts of this kind.
    pub fn with_alert_label(self, kind: AlertKind, label: &'a str) -> CustomSheet<'a>
        ensures { custom_sheet result ≡ record (custom_sheet self.entry) {
          alert_label = at_kind kind label.now (custom_sheet self.entry).alert_label;
        } }
    {
        CustomSheet {
            alert_label: self.alert_label.with(kind, label),
            ..self
        }
    }

    /// This sheet with another mark before and behind blocks of code.
    pub fn with_code_block_fence(self, fence: &'a str) -> CustomSheet<'a>
        ensures { custom_sheet result ≡ record (custom_sheet self.entry) { code_block_fence = fence.now } }
    {
        CustomSheet {
            code_block_fence: fence,
            ..self
        }
    }

    /// This sheet with another style of code.
    pub fn with_code(self, style: Style) -> CustomSheet<'a>
        ensures { custom_sheet result ≡ record (custom_sheet self.entry) { code = style } }
    {
        CustomSheet {
            code: style,
            ..self
        }
    }

    /// This sheet with another style of links.
    pub fn with_link(self, style: Style) -> CustomSheet<'a>
        ensures { custom_sheet result ≡ record (custom_sheet self.entry) { link = style } }
    {
        CustomSheet {
            link: style,
            ..self
        }
    }

    /// This sheet with another style of quotes.
    pub fn with_blockquote(self, style: Style) -> CustomSheet<'a>
        ensures { custom_sheet result ≡ record (custom_sheet self.entry) { blockquote = style } }
    {
        CustomSheet {
            blockquote: style,
            ..self
        }
    }

    /// This sheet with another style of a heading's attributes.
    pub fn with_heading_meta(self, style: Style) -> CustomSheet<'a>
        ensures { custom_sheet result ≡ record (custom_sheet self.entry) { heading_meta = style } }
    {
        CustomSheet {
            heading_meta: style,
            ..self
        }
    }

    /// This sheet with another style of metadata blocks.
    pub fn with_metadata_block(self, style: Style) -> CustomSheet<'a>
        ensures { custom_sheet result ≡ record (custom_sheet self.entry) { metadata_block = style } }
    {
        CustomSheet {
            metadata_block: style,
            ..self
        }
    }

    /// This sheet with another style of HTML.
    pub fn with_html(self, style: Style) -> CustomSheet<'a>
        ensures { custom_sheet result ≡ record (custom_sheet self.entry) { html = style } }
    {
        CustomSheet {
            html: style,
            ..self
        }
    }

    /// This sheet with another style of formulas in a line.
    pub fn with_math_inline(self, style: Style) -> CustomSheet<'a>
        ensures { custom_sheet result ≡ record (custom_sheet self.entry) { math_inline = style } }
    {
        CustomSheet {
            math_inline: style,
            ..self
        }
    }

    /// This sheet with another style of formulas on lines of their own.
    pub fn with_math_display(self, style: Style) -> CustomSheet<'a>
        ensures { custom_sheet result ≡ record (custom_sheet self.entry) { math_display = style } }
    {
        CustomSheet {
            math_display: style,
            ..self
        }
    }

    /// This sheet with another style of references to footnotes.
    pub fn with_footnote_ref(self, style: Style) -> CustomSheet<'a>
        ensures { custom_sheet result ≡ record (custom_sheet self.entry) { footnote_ref = style } }
    {
        CustomSheet {
            footnote_ref: style,
            ..self
        }
    }

    /// This sheet with another style of footnotes.
    pub fn with_footnote_def(self, style: Style) -> CustomSheet<'a>
        ensures { custom_sheet result ≡ record (custom_sheet self.entry) { footnote_def = style } }
    {
        CustomSheet {
            footnote_def: style,
            ..self
        }
    }

    /// This sheet with another style of terms that are defined.
    pub fn with_definition_term(self, style: Style) -> CustomSheet<'a>
        ensures { custom_sheet result ≡ record (custom_sheet self.entry) { definition_term = style } }
    {
        CustomSheet {
            definition_term: style,
            ..self
        }
    }

    /// This sheet with another style of descriptions of terms.
    pub fn with_definition_description(self, style: Style) -> CustomSheet<'a>
        ensures { custom_sheet result ≡ record (custom_sheet self.entry) { definition_description = style } }
    {
        CustomSheet {
            definition_description: style,
            ..self
        }
    }

    /// This sheet with another style of a table's header.
    pub fn with_table_header(self, style: Style) -> CustomSheet<'a>
        ensures { custom_sheet result ≡ record (custom_sheet self.entry) { table_header = style } }
    {
        CustomSheet {
            table_header: style,
            ..self
        }
    }

    /// This sheet with another style of a table's cells.
    pub fn with_table_cell(self, style: Style) -> CustomSheet<'a>
        ensures { custom_sheet result ≡ record (custom_sheet self.entry) { table_cell = style } }
    {
        CustomSheet {
            table_cell: style,
            ..self
        }
    }

    /// This sheet with another style of a table's lines.
    pub fn with_table_border(self, style: Style) -> CustomSheet<'a>
        ensures { custom_sheet result ≡ record (custom_sheet self.entry) { table_border = style } }
    {
        CustomSheet {
            table_border: style,
            ..self
        }
    }

    /// This sheet with another style of the numbers of lists.
    pub fn with_list_marker(self, style: Style) -> CustomSheet<'a>
        ensures { custom_sheet result ≡ record (custom_sheet self.entry) { list_marker = style } }
    {
        CustomSheet {
            list_marker: style,
            ..self
        }
    }

    /// This sheet with another style of what is shown in place of images.
    pub fn with_image_alt(self, style: Style) -> CustomSheet<'a>
        ensures { custom_sheet result ≡ record (custom_sheet self.entry) { image_alt = style } }
    {
        CustomSheet {
            image_alt: style,
            ..self
        }
    }
}

impl<'a> StyleSheet for CustomSheet<'a> {
    ghost sheet = { custom_sheet };

    fn heading(&self, level: u8) -> Style {
        self.heading.at(level)
    }

    fn heading_marker(&self, level: u8) -> &str {
        self.heading_marker.at(level)
    }

    fn alert(&self, kind: AlertKind) -> Style {
        self.alert.at(kind)
    }

    fn alert_icon(&self, kind: AlertKind) -> &str {
        self.alert_icon.at(kind)
    }

    fn alert_label(&self, kind: AlertKind) -> &str {
        self.alert_label.at(kind)
    }

    fn code_block_fence(&self) -> &str {
        self.code_block_fence
    }

    fn code(&self) -> Style {
        self.code
    }

    fn link(&self) -> Style {
        self.link
    }

    fn blockquote(&self) -> Style {
        self.blockquote
    }

    fn heading_meta(&self) -> Style {
        self.heading_meta
    }

    fn metadata_block(&self) -> Style {
        self.metadata_block
    }

    fn html(&self) -> Style {
        self.html
    }

    fn math_inline(&self) -> Style {
        self.math_inline
    }

    fn math_display(&self) -> Style {
        self.math_display
    }

    fn footnote_ref(&self) -> Style {
        self.footnote_ref
    }

    fn footnote_def(&self) -> Style {
        self.footnote_def
    }

    fn definition_term(&self) -> Style {
        self.definition_term
    }

    fn definition_description(&self) -> Style {
        self.definition_description
    }

    fn table_header(&self) -> Style {
        self.table_header
    }

    fn table_cell(&self) -> Style {
        self.table_cell
    }

    fn table_border(&self) -> Style {
        self.table_border
    }

    fn list_marker(&self) -> Style {
        self.list_marker
    }

    fn image_alt(&self) -> Style {
        self.image_alt
    }
}

fn default_headings() -> ByLevel<Style>
    ensures { (level : ℕ) → by_level result level ≡ default_heading level }
{
    ByLevel {
        first: default_heading(1),
        second: default_heading(2),
        third: default_heading(3),
        fourth: default_heading(4),
        fifth: default_heading(5),
        others: default_heading(6),
    }
}

fn default_markers<'a>() -> ByLevel<&'a str>
    ensures { (level : ℕ) → (by_level result level).now ≡ default_marker level }
{
    ByLevel {
        first: default_marker(1),
        second: default_marker(2),
        third: default_marker(3),
        fourth: default_marker(4),
        fifth: default_marker(5),
        others: default_marker(6),
    }
}

fn default_alerts() -> ByKind<Style>
    ensures { (kind : AlertKind) → by_kind result kind ≡ default_alert kind }
{
    ByKind {
        note: default_alert(AlertKind::Note),
        tip: default_alert(AlertKind::Tip),
        important: default_alert(AlertKind::Important),
        warning: default_alert(AlertKind::Warning),
        caution: default_alert(AlertKind::Caution),
    }
}

fn default_icons<'a>() -> ByKind<&'a str>
    ensures { (kind : AlertKind) → (by_kind result kind).now ≡ default_icon kind }
{
    ByKind {
        note: default_icon(AlertKind::Note),
        tip: default_icon(AlertKind::Tip),
        important: default_icon(AlertKind::Important),
        warning: default_icon(AlertKind::Warning),
        caution: default_icon(AlertKind::Caution),
    }
}

fn default_labels<'a>() -> ByKind<&'a str>
    ensures { (kind : AlertKind) → (by_kind result kind).now ≡ label kind }
{
    ByKind {
        note: AlertKind::Note.label(),
        tip: AlertKind::Tip.label(),
        important: AlertKind::Important.label(),
        warning: AlertKind::Warning.label(),
        caution: AlertKind::Caution.label(),
    }
}
