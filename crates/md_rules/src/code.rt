// Code blocks by their indent, and the text of code lines.
ghost use Rattle.std.specs.Prelude.{◌≡◌, ◌≤◌, length, nat_le, replicate, string_bytes, IfOk};
ghost use Rattle.md_rules.specs.Code.{hanging, is_code, text_from};

use md_lines::Line;
use std::alloc::{AllocError, Global};
use term_text::CowStr;

/// Whether a nonempty line is code by its indent.
pub fn is_code(line: &Line) -> bool
    ensures { result ≡ is_code line.now }
{
    line.indent >= 4
}

/// Whether the line's indent reaches the column.
fn reaches(column: u128, line: &Line) -> bool
    ensures { result ≡ nat_le column line.now.indent }
{
    line.indent >= column
}

/// How many of the lines hang below a line: those that are empty or have at least so much indent, up to the last
/// nonempty one.
pub fn hanging(column: u128, lines: &[Line]) -> usize
    ensures value { result ≡ hanging column lines.now }
    ensures within { result ≤ length lines.now }
{
    let mut taken = 0;
    let mut at = 0;
    while at < lines.len() {
        let line = &lines[at];
        at += 1;
        if line.is_empty() {
            continue;
        }
        if !reaches(column, line) {
            break;
        }
        taken = at;
    }
    taken
}

/// The text of a line from a column on, which is owned where spaces stand before the body.
pub fn text_from<'a>(alloc: Global, column: u128, line: &Line<'a>) -> Result<CowStr<'a>, AllocError>
    ensures { IfOk result (λ text. text ≡ text_from column line.now) }
{
    if line.indent <= column {
        return Ok(CowStr::borrowed(line.body));
    }
    let mut text = spaces(alloc, line.indent - column)?;
    text.push_str(line.body)?;
    Ok(CowStr::owned(text))
}

/// So many spaces.
fn spaces(alloc: Global, count: u128) -> Result<String, AllocError>
    ensures { IfOk result (λ text. string_bytes text ≡ replicate count 32) }
{
    let mut text = String::new(alloc);
    let mut left = count;
    while left > 0 {
        text.push_str(" ")?;
        left -= 1;
    }
    Ok(text)
}
