// Spans, lines and texts.
ghost use Rattle.std.specs.Prelude.{ℕ, ◌≡◌, ◌==◌, ◌+◌, ◌^◌, ◌<◌, List, [], ◌∷◌, ◌++◌, chars, length, true, false, IfOk, OnOk, OnErr, if◌then◌else◌};
ghost use Rattle.term_text.specs.Text.{SpanView, LineView, raw_spans};
ghost use Rattle.std.specs.List.{list_all};
ghost use Rattle.std.specs.Str.Lines.{lines};
ghost use Rattle.term_text.specs.Plain.{is_plain, is_printable};
ghost use Rattle.term_text.specs.Style.{no_style};

use crate::cow_str::CowStr;
use crate::plain::all_plain;
use crate::printable::all_printable;
use crate::style::Style;
use std::alloc::{AllocError, Global};
use std::marker::Model;

/// A text in one style, which may be a glyph: one grapheme, whatever its characters.
#[derive(Drop)]
pub struct Span<'a> {
    text: CowStr<'a>,
    style: Style,
    is_glyph: bool,
    // Whether the text is printable ASCII, and whether its characters are plain, which is asked once.
    printable: bool,
    plain: bool,
}

impl<'a> Model for Span<'a> {
    ghost use Rattle.term_text.specs.Text.{SpanView};

    ghost Value = { SpanView };

    ghost view = { λ s. record { text = s.text; style = s.style; is_glyph = s.is_glyph } };

    ghost use Rattle.std.specs.Prelude.{◌≡◌, chars};
    ghost use Rattle.std.specs.List.{list_all};
    ghost use Rattle.term_text.specs.Plain.{is_plain, is_printable};

    ghost invariant = { λ s. (s.printable ≡ list_all is_printable s.text) × (s.plain ≡ list_all is_plain (chars s.text)) };
}

impl<'a> Span<'a> {
    /// A text in no style.
    pub fn raw(text: CowStr<'a>) -> Span<'a>
        ensures { result ≡ record { text = text.entry; style = no_style; is_glyph = false } }
    {
        Span::styled(text, Style::new())
    }

    /// A text in a style.
    pub fn styled(text: CowStr<'a>, style: Style) -> Span<'a>
        ensures { result ≡ record { text = text.entry; style = style; is_glyph = false } }
    {
        Span::new(text, style, false)
    }

    /// A text that is one grapheme, in a style.
    pub fn glyph(text: CowStr<'a>, style: Style) -> Span<'a>
        ensures { result ≡ record { text = text.entry; style = style; is_glyph = true } }
    {
        Span::new(text, style, true)
    }

    fn new(text: CowStr<'a>, style: Style, is_glyph: bool) -> Span<'a>
        ensures { result ≡ record { text = text.entry; style = style; is_glyph = is_glyph } }
    {
        let printable = all_printable(text.as_str().as_bytes());
        let plain = printable || all_plain(text.as_str());
        Span {
            text,
            style,
            is_glyph,
            printable,
            plain,
        }
    }

    /// The same text, a glyph where it was one, in the style.
    pub fn with_style(self, style: Style) -> Span<'a>
        ensures { result ≡ record self.entry { style = style } }
    {
        let Span {
            text,
            is_glyph,
            printable,
            plain,
            ..
        } = self;
        Span {
            text,
            style,
            is_glyph,
            printable,
            plain,
        }
    }

    /// The text.
    pub fn text(&self) -> &str
        ensures { result.now ≡ self.now.text }
    {
        self.text.as_str()
    }

    /// The text as it is held, borrowed or owned.
    pub fn cow(&self) -> &CowStr<'a>
        ensures { result.now ≡ self.now.text }
    {
        &self.text
    }

    /// The style.
    pub fn style(&self) -> Style
        ensures { result ≡ self.now.style }
    {
        self.style
    }

    /// Whether the whole text is one grapheme.
    pub fn is_glyph(&self) -> bool
        ensures { result ≡ self.now.is_glyph }
    {
        self.is_glyph
    }

    /// Whether each byte of the text is printable ASCII.
    pub(crate) fn is_printable(&self) -> bool
        ensures { result ≡ list_all is_printable self.now.text }
    {
        self.printable
    }

    /// Whether each character of the text is printable ASCII or a box-drawing character.
    pub(crate) fn is_plain(&self) -> bool
        ensures { result ≡ list_all is_plain (chars self.now.text) }
    {
        self.plain
    }

    /// The same span again, whose text is borrowed where it is borrowed here, or want of memory.
    pub fn try_clone(&self, alloc: Global) -> Result<Span<'a>, AllocError>
        ensures { IfOk result (λ copy. copy ≡ self.now) }
    {
        let text = self.text.try_clone(alloc)?;
        Ok(self.with_copy(text))
    }

    /// The same span again, which owns its text, or want of memory.
    pub fn try_to_owned(&self, alloc: Global) -> Result<Span<'static>, AllocError>
        ensures { IfOk result (λ copy. copy ≡ self.now) }
    {
        let text = String::from_str(alloc, self.text())?;
        Ok(self.with_copy(CowStr::owned(text)))
    }

    /// The same span round a copy of its text.
    fn with_copy<'c>(&self, text: CowStr<'c>) -> Span<'c>
        requires { text ≡ self.now.text }
        ensures { result ≡ self.now }
    {
        Span {
            text,
            style: self.style,
            is_glyph: self.is_glyph,
            printable: self.printable,
            plain: self.plain,
        }
    }
}

/// Spans, none of them empty, over one style.
#[derive(Drop)]
pub struct Line<'a> {
    spans: Vec<Span<'a>>,
    style: Style,
}

impl<'a> Model for Line<'a> {
    ghost use Rattle.term_text.specs.Text.{LineView};

    ghost Value = { LineView };

    ghost view = { λ s. record { spans = s.spans.items; style = s.style } };
}

impl<'a> Line<'a> {
    /// No spans, in no style. It takes no memory.
    pub fn new(alloc: Global) -> Line<'a>
        ensures { result ≡ record { spans = []; style = no_style } }
    {
        Line {
            spans: Vec::new(alloc),
            style: Style::new(),
        }
    }

    /// No spans, in no style, with room for so many; or want of memory.
    pub fn with_capacity(alloc: Global, spans: usize) -> Result<Line<'a>, AllocError>
        ensures { IfOk result (λ line. line ≡ record { spans = []; style = no_style }) }
    {
        Ok(Line {
            spans: Vec::with_capacity(alloc, spans)?,
            style: Style::new(),
        })
    }

    /// A span in no style for each line of the text, by std's `lines`, that is not empty; or want of memory.
    pub fn from_text(alloc: Global, text: &'a str) -> Result<Line<'a>, AllocError>
        ensures { IfOk result (λ line. line ≡ record { spans = raw_spans (lines text.now); style = no_style }) }
    {
        let mut line = Line::new(alloc);
        for piece in text.lines() {
            line.push_span(Span::raw(CowStr::borrowed(piece)))?;
        }
        Ok(line)
    }

    /// Adds a span at the end, and nothing for an empty one. After want of memory the line is as before.
    pub fn push_span(&mut self, span: Span<'a>) -> Result<(), AllocError>
        ensures ok { OnOk result (self.new
            ≡ record self.old { spans = if length span.entry.text == 0 then self.old.spans else self.old.spans ++ span.entry ∷ [] }) }
        ensures err { OnErr result (self.new ≡ self.old) }
    {
        if span.text().is_empty() {
            return Ok(());
        }
        self.spans.push(span)?;
        Ok(())
    }

    /// Sets the style under the spans.
    pub fn set_style(&mut self, style: Style)
        ensures { self.new ≡ record self.old { style = style } }
    {
        self.style = style;
    }

    /// The style under the spans.
    pub fn style(&self) -> Style
        ensures { result ≡ self.now.style }
    {
        self.style
    }

    /// The spans.
    pub fn spans(&self) -> &[Span<'a>]
        ensures { result.now ≡ self.now.spans }
    {
        self.spans.as_slice()
    }

    /// The spans, without the style under them. It takes no memory.
    pub fn into_spans(self) -> Vec<Span<'a>>
        ensures { result.items ≡ self.entry.spans }
    {
        let Line { spans, .. } = self;
        spans
    }
}

/// Lines, one below the other.
#[derive(Drop)]
pub struct Text<'a> {
    lines: Vec<Line<'a>>,
}

impl<'a> Model for Text<'a> {
    ghost use Rattle.std.specs.Prelude.{List};
    ghost use Rattle.term_text.specs.Text.{LineView};

    ghost Value = { List LineView };

    ghost view = { λ s. s.lines.items };
}

impl<'a> Text<'a> {
    /// No lines. It takes no memory.
    pub fn new(alloc: Global) -> Text<'a>
        ensures { result ≡ [] }
    {
        Text {
            lines: Vec::new(alloc),
        }
    }

    /// Adds a line at the end. After want of memory the text is as before.
    pub fn push_line(&mut self, line: Line<'a>) -> Result<(), AllocError>
        ensures ok { OnOk result (self.new ≡ self.old ++ line.entry ∷ []) }
        ensures err { OnErr result (self.new ≡ self.old) }
    {
        self.lines.push(line)?;
        Ok(())
    }

    /// The lines.
    pub fn lines(&self) -> &[Line<'a>]
        ensures { result.now ≡ self.now }
    {
        self.lines.as_slice()
    }
}
