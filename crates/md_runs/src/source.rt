// The source of inlines, and the texts that borrow from its lines.
ghost use Rattle.std.specs.Prelude.{◌≡◌, ◌+◌, ◌<◌, ◌≤◌, length, map};
ghost use Rattle.std.specs.List.{slice_range, list_any};
ghost use Rattle.std.specs.Str.{IsCharBoundary};
ghost use Rattle.md_lines.specs.Lines.{body_of};
ghost use Rattle.md_leaves.specs.Cuts.{IsPlace, IsText};
ghost use Rattle.md_runs.specs.Source.{body_at, source_of};
ghost use Rattle.md_runs.specs.Pairs.{is_gap, is_solid};
ghost use Rattle.md_runs.specs.Facts.{IsCursor};

use md_lines::{Line, is_blank};
use std::marker::Model;

/// The source of inlines: the lines that texts borrow from, and the same as one text.
///
/// A contract sees the text and the bodies of the lines.
#[derive(Drop)]
pub struct Source<'a, 's> {
    lines: &'s [Line<'a>],
    text: &'s str,
}

impl<'a, 's> Model for Source<'a, 's> {
    ghost use Rattle.std.specs.Prelude.{◌≡◌, map};
    ghost use Rattle.std.specs.Str.{IsUtf8};
    ghost use Rattle.md_lines.specs.Lines.{body_of};
    ghost use Rattle.md_runs.specs.Source.{Lined, source_of};

    ghost Value = { Lined };

    ghost view = { λ s. record { text = s.text.now; bodies = map body_of s.lines.now } };

    ghost invariant = { λ s. IsUtf8 s.text.now × (s.text.now ≡ source_of (map body_of s.lines.now)) };
}

/// A line of a source, and where it begins in the source's text.
#[derive(Clone, Copy)]
pub struct Cursor {
    pub line: usize,
    pub start: usize,
}

impl Cursor {
    /// The first line.
    pub fn first() -> Cursor
        ensures line { result.line ≡ 0 }
        ensures start { result.start ≡ 0 }
    {
        Cursor { line: 0, start: 0 }
    }
}

impl<'a, 's> Source<'a, 's> {
    /// The source that these lines make, which is this text.
    pub fn new(lines: &'s [Line<'a>], text: &'s str) -> Source<'a, 's>
        requires { text.now ≡ source_of (map body_of lines.now) }
        ensures text { result.text ≡ text.now }
        ensures bodies { result.bodies ≡ map body_of lines.now }
    {
        Source { lines, text }
    }

    /// The text at a place on one line, which borrows from that line; the cursor is moved there.
    pub fn text_at(&self, from: usize, to: usize, cursor: &mut Cursor) -> &'a str
        requires place { IsText self.now.text from to }
        requires cursor { IsCursor self.now.bodies cursor.old }
        ensures value { result.now ≡ slice_range self.now.text from to }
        ensures cursor { IsCursor self.now.bodies cursor.new }
    {
        let lines = self.lines;
        *cursor = line_at(lines, from, *cursor);
        if cursor.line < lines.len() {
            let line = &lines[cursor.line];
            part(
                line.body,
                from.saturating_sub(cursor.start),
                to.saturating_sub(cursor.start),
            )
        } else {
            ""
        }
    }

    /// The line of a place, which is looked for from a line on, or from the first where the place stands before that.
    pub fn line_at(&self, place: usize, cursor: Cursor) -> Cursor
        requires { IsCursor self.now.bodies cursor }
        ensures { IsCursor self.now.bodies result }
    {
        let lines = self.lines;
        line_at(lines, place, cursor)
    }

    /// The text at a place, which borrows from the text of the whole source.
    pub fn slice(&self, from: usize, to: usize) -> &'s str
        requires { IsPlace self.now.text from to }
        ensures { result.now ≡ slice_range self.now.text from to }
    {
        let text = self.text;
        part(text, from, to)
    }

    /// Whether no blank and no line end stands between two places.
    pub fn is_solid(&self, from: usize, to: usize) -> bool
        ensures { result ≡ is_solid self.now.text from to }
    {
        let text = self.text;
        !has_gap(text.as_bytes(), from, to)
    }
}

/// A part of a text.
fn part<'a>(text: &'a str, from: usize, to: usize) -> &'a str
    requires { IsPlace text.now from to }
    ensures { result.now ≡ slice_range text.now from to }
{
    &text[from..to]
}

/// Whether a blank or a line end stands between two places.
fn has_gap(bytes: &[u8], from: usize, to: usize) -> bool
    ensures { result ≡ list_any is_gap (slice_range bytes.now from to) }
{
    any_gap(cut(bytes, from, to))
}

/// The bytes between two places, as far as they stand there.
fn cut(bytes: &[u8], from: usize, to: usize) -> &[u8]
    ensures { result.now ≡ slice_range bytes.now from to }
{
    let end = to.min(bytes.len());
    let start = from.min(end);
    &bytes[start..end]
}

fn any_gap(bytes: &[u8]) -> bool
    ensures { result ≡ list_any is_gap bytes.now }
{
    bytes.iter().any(|b| is_gap(*b))
}

fn is_gap(b: u8) -> bool
    ensures { result ≡ is_gap b }
{
    is_blank(b) || b == b'\n'
}

/// The line of a place, as far as it is known from the lines.
fn line_at(lines: &[Line], place: usize, cursor: Cursor) -> Cursor
    requires { IsCursor (map body_of lines.now) cursor }
    ensures cursor { IsCursor (map body_of lines.now) result }
    ensures start { result.start ≤ place }
    ensures end { result.line + 1 < length lines.now → place ≤ result.start + length (body_at result.line (map body_of lines.now)) }
{
    let mut line = 0;
    let mut start = 0;
    if cursor.start <= place {
        line = cursor.line;
        start = cursor.start;
    }
    while line + 1 < lines.len() {
        let length = body_length(lines, line);
        if place - start <= length {
            break;
        }
        start += length + 1;
        line += 1;
    }
    Cursor { line, start }
}

/// How many bytes the body of a line has.
fn body_length(lines: &[Line], at: usize) -> usize
    requires { at < length lines.now }
    ensures { result ≡ length (body_at at (map body_of lines.now)) }
{
    let line = &lines[at];
    line.body.len()
}
