// One line with ANSI colours.
ghost use Rattle.std.specs.Prelude.{◌≡◌, ◌≤◌, ◌∷◌, [], ◌++◌, length, true, false, OnOk, OnErr, IfErr, MatchResult, IsUtf8, take, drop};
ghost use Rattle.std.specs.Str.{is_utf8};
ghost use Rattle.term_text.specs.LineEnds.{is_one_line};
ghost use Rattle.term_text.specs.Text.{LineView, SpanView};
ghost use Rattle.ansi_text.specs.declared.error.Error.TheVariants.{Utf8Error};
ghost use Rattle.ansi_text.specs.Pieces.{first_escape};
ghost use Rattle.ansi_text.specs.Answers.{GivesLine, GivesStyle};
ghost use Rattle.ansi_text.specs.Lines.{pushed};

use crate::error::Error;
use crate::sequence::past_escape;
use memchr::memchr;
use std::alloc::Global;
use term_text::{CowStr, Line, Span, Style};

/// So few bytes are sooner looked at one by one than sixteen at a time.
const FEW: usize = 24;

/// How many bytes stand before the first escape byte.
pub(crate) fn first_escape(bytes: &[u8]) -> usize
    ensures value { result ≡ first_escape bytes.now }
    ensures within { result ≤ length bytes.now }
{
    // a sequence often stands directly behind another
    if !bytes.is_empty() && bytes[0] == 27 {
        return 0;
    }
    match memchr(27, bytes) {
        Some(place) => place,
        None => bytes.len(),
    }
}

/// The bytes up to the first escape byte, and what stands from there on.
fn first_stretch<'a>(bytes: &'a [u8]) -> (&'a [u8], &'a [u8])
    ensures stretch { result.0.now ≡ take (first_escape bytes.now) bytes.now }
    ensures rest { result.1.now ≡ drop (first_escape bytes.now) bytes.now }
{
    let end = first_escape(bytes);
    (&bytes[..end], &bytes[end..])
}

/// Adds a stretch in a style, nothing where it is empty. After an error the line is as before.
fn push_stretch<'a>(line: &mut Line<'a>, style: Style, stretch: &'a [u8]) -> Result<(), Error>
    ensures ok { OnOk result ((line.new ≡ pushed line.old style stretch.now) × (is_utf8 stretch.now ≡ true)) }
    ensures err { OnErr result (line.new ≡ line.old) }
    ensures not_utf8 { IfErr result (λ e. e ≡ Utf8Error → is_utf8 stretch.now ≡ false) }
{
    match simdutf8::compat::from_utf8(stretch) {
        Ok(text) => {
            line.push_span(Span::styled(CowStr::borrowed(text), style))?;
            Ok(())
        }
        Err(_) => Err(Error::Utf8Error),
    }
}

/// The line of bytes without a line end, begun in a style, and the style after it.
pub(crate) fn ansi_line<'a>(
    alloc: Global,
    style: Style,
    bytes: &'a [u8],
) -> Result<(Line<'a>, Style), Error>
    ensures { GivesLine style bytes.now result }
{
    let mut line = Line::new(alloc);
    let mut style = style;
    let mut rest = bytes;
    while !rest.is_empty() {
        let (stretch, escape) = first_stretch(rest);
        push_stretch(&mut line, style, stretch)?;
        let after = past_escape(style, escape);
        style = after.style;
        rest = after.rest;
    }
    Ok((line, style))
}

/// Whether a stretch is UTF-8.
fn is_utf8(stretch: &[u8]) -> bool
    ensures { result ≡ is_utf8 stretch.now }
{
    // most stretches are short and ASCII
    if stretch.len() <= FEW && stretch.is_ascii() {
        return true;
    }
    match simdutf8::compat::from_utf8(stretch) {
        Ok(_) => true,
        Err(_) => false,
    }
}

/// The style after the one line of bytes that hold no LF and no CR, begun in a style, without the line itself.
///
/// It takes no memory. `Utf8Error` comes exactly where a stretch between sequences is not UTF-8, so where `line_into_text`
/// refuses the same bytes, and no other refusal comes.
pub fn style_after_line(style: Style, line: &[u8]) -> Result<Style, Error>
    requires { is_one_line line.now ≡ true }
    ensures { GivesStyle style line.now result }
{
    let mut style = style;
    let mut rest = line;
    while !rest.is_empty() {
        let (stretch, escape) = first_stretch(rest);
        if !is_utf8(stretch) {
            return Err(Error::Utf8Error);
        }
        let after = past_escape(style, escape);
        style = after.style;
        rest = after.rest;
    }
    Ok(style)
}
