// Whole inputs with ANSI colours, and single lines of one.
ghost use Rattle.std.specs.Prelude.{◌≡◌, ◌≢◌, List, ℕ, string_bytes, Result, Err, true};
ghost use Rattle.ansi_text.specs.Ansi.{ansi};
ghost use Rattle.term_text.specs.LineEnds.{is_one_line};
ghost use Rattle.ansi_text.specs.Answers.{GivesLine, GivesLines};
ghost use Rattle.ansi_text.specs.declared.error.Error.TheVariants.{Utf8Error};

use crate::error::Error;
use crate::line::ansi_line;
use crate::owned::{owned_line, owned_text};
use std::alloc::Global;
use term_text::{Line, Style, Text, next_line_of_bytes};

/// The lines of bytes with ANSI colours, as spans that borrow the bytes.
///
/// Lines end at LF, CRLF and CR; empty input is one empty line. Each stretch between SGR sequences is a span in the style
/// that all sequences before it set, across lines. `Utf8Error` comes exactly where a stretch is not UTF-8, and `Memory`
/// where there is none.
pub fn bytes_to_text<'a>(alloc: Global, bytes: &'a [u8]) -> Result<Text<'a>, Error>
    ensures { GivesLines (ansi bytes.now) result }
{
    let mut text = Text::new(alloc);
    if bytes.is_empty() {
        text.push_line(Line::new(alloc))?;
        return Ok(text);
    }
    let mut style = Style::new();
    let mut rest = bytes;
    while !rest.is_empty() {
        let (first, after) = next_line_of_bytes(rest);
        let (line, next) = ansi_line(alloc, style, first)?;
        text.push_line(line)?;
        style = next;
        rest = after;
    }
    Ok(text)
}

/// The lines of bytes with ANSI colours, as spans that own their texts; else as `bytes_to_text`.
pub fn bytes_into_text(alloc: Global, bytes: &[u8]) -> Result<Text<'static>, Error>
    ensures { GivesLines (ansi bytes.now) result }
{
    let text = bytes_to_text(alloc, bytes)?;
    Ok(owned_text(alloc, &text)?)
}

/// The one line of bytes that hold no LF and no CR, begun in a style, and the style after it.
///
/// The spans own their texts. `Utf8Error` comes exactly where a stretch between sequences is not UTF-8, and `Memory` where
/// there is none. A caller that takes lines one by one hands each style on to the next line.
pub fn line_into_text(
    alloc: Global,
    style: Style,
    line: &[u8],
) -> Result<(Line<'static>, Style), Error>
    requires { is_one_line line.now ≡ true }
    ensures { GivesLine style line.now result }
{
    let (line, style) = ansi_line(alloc, style, line)?;
    Ok((owned_line(alloc, &line)?, style))
}

/// Bytes or text with ANSI colours, read as styled lines.
pub trait IntoText {
    /// The bytes that are read.
    ghost read_bytes: { Self → List ℕ };

    /// The lines as spans that own their texts; else as `bytes_to_text`.
    fn into_text(&self, alloc: Global) -> Result<Text<'static>, Error>
        ensures lines { GivesLines (ansi (read_bytes self.now)) result };

    /// The lines as spans that borrow from `self`; else as `bytes_to_text`.
    fn to_text(&self, alloc: Global) -> Result<Text<'_>, Error>
        ensures lines { GivesLines (ansi (read_bytes self.now)) result };
}

impl IntoText for Vec<u8> {
    ghost read_bytes = { λ v. v.items };

    fn into_text(&self, alloc: Global) -> Result<Text<'static>, Error> {
        bytes_into_text(alloc, self.as_slice())
    }

    fn to_text(&self, alloc: Global) -> Result<Text<'_>, Error> {
        bytes_to_text(alloc, self.as_slice())
    }
}

impl IntoText for String {
    ghost use Rattle.std.specs.Prelude.{string_bytes};

    ghost read_bytes = { λ s. string_bytes s };

    fn into_text(&self, alloc: Global) -> Result<Text<'static>, Error>
        ensures lines { GivesLines (ansi (string_bytes self.now)) result }
        ensures is_text { result ≢ Err Utf8Error }
    {
        bytes_into_text(alloc, self.as_bytes())
    }

    fn to_text(&self, alloc: Global) -> Result<Text<'_>, Error>
        ensures lines { GivesLines (ansi (string_bytes self.now)) result }
        ensures is_text { result ≢ Err Utf8Error }
    {
        bytes_to_text(alloc, self.as_bytes())
    }
}
