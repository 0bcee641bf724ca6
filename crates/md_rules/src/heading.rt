// Headings.
ghost use Rattle.std.specs.Prelude.{◌≡◌, ◌≤◌, length, IfOk, IsTrue};
ghost use Rattle.std.specs.List.{suffix_len};
ghost use Rattle.term_text.specs.LineEnds.{is_one_line};
ghost use Rattle.md_rules.specs.Headings.{content_of, ends_blank, heading_at, heading_level, with_content, heading_text, heading_with, is_hash, level_by, without_closing, without_hashes};

use crate::attributes::{Attributes, attributes_in, braced};
use crate::shallow::is_shallow;
use crate::texts::{after_run, ends_word, run_length, trimmed};
use md_lines::{Line, is_blank};
use md_tree::{Attrs, Classes, HeadingLevel};
use std::alloc::{AllocError, Global};
use term_text::CowStr;

/// A heading: its level, its attributes and the line that its inlines are read from.
#[derive(Drop)]
pub struct Heading<'a> {
    pub level: HeadingLevel,
    pub id: Option<CowStr<'a>>,
    pub classes: Classes<'a>,
    pub attrs: Attrs<'a>,
    pub content: Line<'a>,
}

/// The level of so many `#`.
fn level_by(hashes: usize) -> Option<HeadingLevel>
    ensures { result ≡ level_by hashes }
{
    match hashes {
        1 => Some(HeadingLevel::H1),
        2 => Some(HeadingLevel::H2),
        3 => Some(HeadingLevel::H3),
        4 => Some(HeadingLevel::H4),
        5 => Some(HeadingLevel::H5),
        6 => Some(HeadingLevel::H6),
        _ => None,
    }
}

/// The level of the heading that the line is, or `None` where it is none.
pub(crate) fn heading_level(line: &Line) -> Option<HeadingLevel>
    ensures { result ≡ heading_level line.now }
{
    let body = line.body;
    if is_shallow(line) && ends_word(after_run(b'#', body).as_bytes()) {
        level_by(run_length(b'#', body.as_bytes()))
    } else {
        None
    }
}

/// What follows the `#` at the start of a body.
fn heading_text<'a>(body: &'a str) -> &'a str
    ensures { result.now ≡ heading_text body.now }
{
    trimmed(after_run(b'#', body))
}

/// How many `#` stand at the end.
fn closing_hashes(bytes: &[u8]) -> usize
    ensures value { result ≡ suffix_len is_hash bytes.now }
    ensures within { result ≤ length bytes.now }
{
    bytes.iter().rev().take_while(|b| **b == b'#').count()
}

/// The text without the run of `#` at its end.
fn without_hashes<'a>(text: &'a str) -> &'a str
    ensures { result.now ≡ without_hashes text.now }
{
    &text[..text.len() - closing_hashes(text.as_bytes())]
}

/// Whether nothing stands in these bytes, or a blank stands last.
fn ends_blank(bytes: &[u8]) -> bool
    ensures { result ≡ ends_blank bytes.now }
{
    bytes.is_empty() || is_blank(bytes[bytes.len() - 1])
}

/// The text without a closing run of `#`.
fn without_closing<'a>(text: &'a str) -> &'a str
    ensures { result.now ≡ without_closing text.now }
{
    let before = without_hashes(text);
    if ends_blank(before.as_bytes()) {
        before
    } else {
        text
    }
}

/// The content of a heading as a line.
fn content_of<'a>(text: &'a str) -> Line<'a>
    requires { IsTrue (is_one_line text.now) }
    ensures { result ≡ content_of text.now }
{
    Line {
        indent: 0,
        body: trimmed(without_closing(text)),
    }
}

fn with_content<'a>(level: HeadingLevel, attributes: Attributes<'a>, text: &'a str) -> Heading<'a>
    requires { IsTrue (is_one_line text.now) }
    ensures { result ≡ with_content level attributes.entry text.now }
{
    Heading {
        level,
        id: attributes.id,
        classes: attributes.classes,
        attrs: attributes.attrs,
        content: content_of(text),
    }
}

/// The heading of this level whose `#` are followed by a text.
fn heading_with<'a>(
    alloc: Global,
    level: HeadingLevel,
    text: &'a str,
) -> Result<Heading<'a>, AllocError>
    requires { IsTrue (is_one_line text.now) }
    ensures { IfOk result (λ h. h ≡ heading_with level text.now) }
{
    if let Some((before, inside)) = braced(text) {
        if let Some(attributes) = attributes_in(alloc, inside)? {
            return Ok(with_content(level, attributes, trimmed(before)));
        }
    }
    Ok(with_content(level, Attributes::new(alloc), text))
}

/// The heading of this level that the line is, with its attributes and its content.
pub fn heading_at<'a>(
    alloc: Global,
    level: HeadingLevel,
    line: &Line<'a>,
) -> Result<Heading<'a>, AllocError>
    ensures { IfOk result (λ h. h ≡ heading_at level line.now) }
{
    heading_with(alloc, level, heading_text(line.body))
}
