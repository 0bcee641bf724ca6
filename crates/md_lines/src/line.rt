// Lines with an indent and a body.
ghost use Rattle.std.specs.Prelude.{◌≡◌, IfOk, IsTrue};
ghost use Rattle.md_lines.specs.Lines.{is_empty, line_of, lines_of};
ghost use Rattle.term_text.specs.LineEnds.{is_one_line};

use std::alloc::{AllocError, Global};
use std::marker::Model;
use term_text::next_line;

/// A line of a text: its indent in columns, one for each space and four for each tab of its leading blanks, and its
/// body, which is what follows them up to the end of the line.
///
/// The indent may pass a `usize`, since a tab is one byte and four columns.
#[derive(Drop)]
pub struct Line<'a> {
    pub indent: u128,
    pub body: &'a str,
}

impl<'a> Model for Line<'a> {
    ghost use Rattle.std.specs.Prelude.{IsTrue};
    ghost use Rattle.std.specs.Str.{IsUtf8};
    ghost use Rattle.md_lines.specs.Lines.{LineText};
    ghost use Rattle.term_text.specs.LineEnds.{is_one_line};

    ghost Value = { LineText };

    ghost view = { λ l. record { indent = l.indent; body = l.body.now } };

    ghost invariant = { λ l. IsUtf8 l.body.now × IsTrue (is_one_line l.body.now) };
}

impl<'a> Line<'a> {
    /// Whether nothing but blanks stands on the line.
    pub fn is_empty(&self) -> bool
        ensures { result ≡ is_empty self.now }
    {
        self.body.is_empty()
    }
}

/// Reads a text without line ends as a line.
#[tactic(auto, unfolding(crate::specs::Lines::line_of))]
pub fn line_of<'a>(text: &'a str) -> Line<'a>
    requires { IsTrue (is_one_line text.now) }
    ensures { result ≡ line_of text.now }
{
    let bytes = text.as_bytes();
    let mut indent = 0;
    let mut at = 0;
    while at < bytes.len() {
        match bytes[at] {
            b' ' => indent += 1,
            b'\t' => indent += 4,
            _ => break,
        }
        at += 1;
    }
    Line {
        indent,
        body: &text[at..],
    }
}

/// The lines of a text, which is cut at LF, CRLF and CR; an end that closes the text adds no line.
pub fn lines_of<'a>(alloc: Global, text: &'a str) -> Result<Vec<Line<'a>>, AllocError>
    ensures { IfOk result (λ v. v.items ≡ lines_of text.now) }
{
    let mut lines = Vec::new(alloc);
    let mut rest = text;
    while !rest.is_empty() {
        let (line, after) = next_line(rest);
        lines.push(line_of(line))?;
        rest = after;
    }
    Ok(lines)
}
