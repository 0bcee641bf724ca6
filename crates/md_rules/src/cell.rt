// The cells of a line, between its bars.
ghost use Rattle.std.specs.Prelude.{◌≡◌, ◌≤◌, [], ◌∷◌, false, length, IfSome, IsTrue, MatchOption};
ghost use Rattle.term_text.specs.LineEnds.{is_one_line};
ghost use Rattle.md_rules.specs.Tables.{cells, escapes, has_bar, inner, is_bar, parts, without_end_bar, without_start_bar};
ghost use Rattle.md_rules.specs.Cells.{AreOneLine, before_bar, escapes_behind, parts_left};

use crate::texts::{after_first, begins_with, trimmed};
use md_lines::Line;
use memchr::memchr;
use std::marker::Model;

/// Whether the byte is a bar that cuts.
fn is_bar(escaped: bool, b: u8) -> bool
    ensures { result ≡ is_bar escaped b }
{
    b == b'|' && !escaped
}

/// Whether a bar directly behind the byte does not cut.
fn escapes(b: u8) -> bool
    ensures { result ≡ escapes b }
{
    b == b'\\'
}

/// How many bytes stand before the first bar that cuts, or in all where there is none.
#[tactic(auto, unfolding(crate::specs::Cells::before_bar))]
fn before_bar(bytes: &[u8]) -> usize
    ensures value { result ≡ before_bar false bytes.now }
    ensures within { result ≤ length bytes.now }
{
    let mut escaped = false;
    let mut at = 0;
    while at < bytes.len() && !is_bar(escaped, bytes[at]) {
        escaped = escapes(bytes[at]);
        at += 1;
    }
    at
}

/// Whether a bar stands in the bytes that cuts. Bytes with no bar at all are not walked one by one.
pub(crate) fn has_bar(bytes: &[u8]) -> bool
    ensures { result ≡ has_bar false bytes.now }
{
    match memchr(b'|', bytes) {
        Some(_) => before_bar(bytes) < bytes.len(),
        None => false,
    }
}

/// Whether a bar directly behind these bytes does not cut.
fn escapes_behind(bytes: &[u8]) -> bool
    ensures { result ≡ escapes_behind false bytes.now }
{
    !bytes.is_empty() && escapes(bytes[bytes.len() - 1])
}

/// The text without a bar at its start.
fn without_start_bar<'a>(text: &'a str) -> &'a str
    ensures { result.now ≡ without_start_bar text.now }
{
    if begins_with(b'|', text.as_bytes()) {
        after_first(text)
    } else {
        text
    }
}

/// The text without a bar at its end.
fn without_end_bar<'a>(text: &'a str) -> &'a str
    ensures { result.now ≡ without_end_bar false text.now }
{
    let Some(front) = text.strip_suffix('|') else {
        return text;
    };
    if escapes_behind(front.as_bytes()) {
        text
    } else {
        front
    }
}

/// What stands between the bars at both ends of the line.
fn inner<'a>(line: &Line<'a>) -> &'a str
    ensures value { result.now ≡ inner line.now }
    ensures one_line { IsTrue (is_one_line result.now) }
{
    without_end_bar(without_start_bar(trimmed(line.body)))
}

/// The part before the first bar, and what stands behind the bar, if there is one.
fn first_part<'a>(text: &'a str) -> (&'a str, Option<&'a str>)
    requires { IsTrue (is_one_line text.now) }
    ensures parts { parts false text.now ≡ result.0.now ∷ parts_left result.1 }
    ensures one_line { IsTrue (is_one_line result.0.now) × AreOneLine result.1 }
{
    let end = before_bar(text.as_bytes());
    if end < text.len() {
        (&text[..end], Some(&text[end + 1..]))
    } else {
        (text, None)
    }
}

/// The cells of a line that are left, without the blanks at their ends.
#[derive(Drop)]
pub struct Cells<'a> {
    /// What stands behind the bar that was passed last, or `None` behind the last cell.
    rest: Option<&'a str>,
}

impl<'a> Model for Cells<'a> {
    ghost use Rattle.std.specs.Prelude.{ℕ, List, map};
    ghost use Rattle.md_rules.specs.Texts.{trimmed};
    ghost use Rattle.md_rules.specs.Cells.{AreOneLine, AreUtf8, parts_left};

    ghost Value = { List (List ℕ) };

    ghost view = { λ cells. map trimmed (parts_left cells.rest) };

    ghost invariant = { λ cells. AreUtf8 cells.rest × AreOneLine cells.rest };
}

impl<'a> Cells<'a> {
    /// The cells of the line, of which there is one at least.
    pub fn of(line: &Line<'a>) -> Cells<'a>
        ensures { result ≡ cells line.now }
    {
        Cells {
            rest: Some(inner(line)),
        }
    }

    /// Takes the next cell; `None` where none is left.
    pub fn next_cell(&mut self) -> Option<&'a str>
        ensures cell { MatchOption result ((self.old ≡ []) × (self.new ≡ [])) (λ cell. self.old ≡ cell.now ∷ self.new) }
        ensures one_line { IfSome result (λ cell. IsTrue (is_one_line cell.now)) }
    {
        let rest = self.rest?;
        let (part, rest) = first_part(rest);
        self.rest = rest;
        Some(trimmed(part))
    }
}
