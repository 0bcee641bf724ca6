// The pieces of inlines in a cell or an image.
ghost use Rattle.std.specs.Prelude.{◌≡◌, ◌++◌, OnOk};
ghost use Rattle.std.specs.Str.Lines.{lines};
ghost use Rattle.md_text.specs.Flat.{blank, code_style, flat_leaf, flat_lines};
ghost use Rattle.md_text.specs.Inlines.{link_spans};
ghost use Rattle.md_text.specs.Marks.{styled_span};
ghost use Rattle.md_text.specs.Spans.{piece, pieces_of};
ghost use Rattle.md_text.specs.State.{kept};

use super::Machine;
use super::inlines::between;
use crate::environment::{Environment, Within};
use md_events::Event;
use md_table::StyleSheet;
use std::alloc::AllocError;
use term_text::{CowStr, Span, Style};

impl<'e, 'a> Machine<'e, 'a> {
    /// A leaf goes to the open cell or image.
    pub(super) fn flat_leaf<S: StyleSheet>(
        &mut self,
        sheet: &S,
        leaf: &Event<'a>,
    ) -> Result<(), AllocError>
        ensures { OnOk result (self.new
            ≡ kept self.old.environment.within self.old (flat_leaf (S.sheet sheet.now) self.old.environment leaf.now)) }
    {
        match leaf {
            Event::Text(content) => self.flat_text(content, self.environment.inline_style),
            Event::Code(content) => {
                let style = code_style(sheet, self.environment);
                self.flat_text(content, style)
            }
            Event::InlineHtml(content) => {
                let style = self.environment.inline_style.patch(sheet.html());
                self.flat_text(content, style)
            }
            Event::InlineMath(content) => {
                let text = between(self.alloc, "$", content.as_str(), "$")?;
                let style = self.environment.inline_style.patch(sheet.math_inline());
                self.push_piece(CowStr::owned(text), style)
            }
            Event::DisplayMath(content) => {
                let text = between(self.alloc, "$$", content.as_str(), "$$")?;
                self.flat_lines(text.as_str(), sheet.math_display())
            }
            Event::FootnoteReference(label) => {
                let text = between(self.alloc, "[", label.as_str(), "]")?;
                let style = self.environment.inline_style.patch(sheet.footnote_ref());
                self.push_piece(CowStr::owned(text), style)
            }
            Event::SoftBreak | Event::HardBreak => {
                let style = blank_style(self.environment);
                self.push_piece(CowStr::borrowed(" "), style)
            }
            _ => Ok(()),
        }
    }

    /// A text goes to the open cell or image in a style, and nothing for an empty one.
    fn flat_text(&mut self, content: &CowStr<'a>, style: Style) -> Result<(), AllocError>
        ensures { OnOk result (self.new
            ≡ kept self.old.environment.within self.old (piece (styled_span content.now style))) }
    {
        let text = content.try_clone(self.alloc)?;
        self.push_piece(text, style)
    }

    fn push_piece(&mut self, text: CowStr<'a>, style: Style) -> Result<(), AllocError>
        ensures { OnOk result (self.new
            ≡ kept self.old.environment.within self.old (piece (styled_span text.entry style))) }
    {
        let span = Span::styled(text, style);
        match self.environment.within {
            Within::Cell => self.builder.push_span(span),
            _ => push_piece(&mut self.pieces, span),
        }
    }

    /// Each line of a text goes to the open cell or image in a style.
    fn flat_lines(&mut self, content: &str, style: Style) -> Result<(), AllocError>
        ensures { OnOk result (self.new
            ≡ kept self.old.environment.within self.old (flat_lines style (lines content.now))) }
    {
        for line in content.lines() {
            let owned = String::from_str(self.alloc, line)?;
            self.push_piece(CowStr::owned(owned), style)?;
        }
        Ok(())
    }

    /// A link's destination in parentheses goes to the open cell or image.
    pub(super) fn flat_link<S: StyleSheet>(
        &mut self,
        sheet: &S,
        dest_url: &CowStr<'a>,
    ) -> Result<(), AllocError>
        ensures { OnOk result (self.new
            ≡ kept self.old.environment.within self.old (pieces_of (link_spans (S.sheet sheet.now) dest_url.now))) }
    {
        let destination = dest_url.try_clone(self.alloc)?;
        self.push_piece(CowStr::borrowed(" ("), Style::new())?;
        self.push_piece(destination, sheet.link())?;
        self.push_piece(CowStr::borrowed(")"), Style::new())
    }
}

/// A span is a piece if it has a text.
pub(super) fn push_piece<'a>(pieces: &mut Vec<Span<'a>>, span: Span<'a>) -> Result<(), AllocError>
    ensures { OnOk result (pieces.new.items ≡ pieces.old.items ++ piece span.entry) }
{
    if !span.text().is_empty() {
        pieces.push(span)?;
    }
    Ok(())
}

/// The style of code: its own, and in an image that over the image's.
fn code_style<S: StyleSheet>(sheet: &S, environment: Environment) -> Style
    ensures { result ≡ code_style (S.sheet sheet.now) environment }
{
    match environment.within {
        Within::Image => environment.inline_style.patch(sheet.code()),
        _ => sheet.code(),
    }
}

/// The style of a break: none, and in an image that there.
fn blank_style(environment: Environment) -> Style
    ensures { result ≡ (blank environment).style }
{
    match environment.within {
        Within::Image => environment.inline_style,
        _ => Style::new(),
    }
}
