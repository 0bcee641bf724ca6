// The texts of code and of math.
ghost use Rattle.std.specs.Prelude.{◌≡◌, ◌+◌, ◌<◌, ◌≤◌, IfOk, length, map, slice_index, string_bytes};
ghost use Rattle.std.specs.List.{slice_range, list_all};
ghost use Rattle.std.specs.Str.{IsCharBoundary};
ghost use Rattle.term_text.specs.LineEnds.{is_one_line};
ghost use Rattle.md_leaves.specs.Cuts.{IsPlace};
ghost use Rattle.md_runs.specs.Code.{code_text, counts_as_space, has_outer_spaces, is_padded, is_space, padding, spaced, first_line_end};
ghost use Rattle.md_runs.specs.Facts.{IsCursor};

use crate::source::{Cursor, Source};
use std::alloc::{AllocError, Global};
use term_text::CowStr;

/// The text of code, from the place between its backticks; it borrows from the line if it stands on one.
pub fn code_at<'a>(
    alloc: Global,
    source: &Source<'a, '_>,
    from: usize,
    to: usize,
    cursor: &mut Cursor,
) -> Result<CowStr<'a>, AllocError>
    requires place { IsPlace source.now.text from to }
    requires cursor { IsCursor source.now.bodies cursor.old }
    ensures text { IfOk result (λ text. text ≡ code_text (slice_range source.now.text from to)) }
    ensures cursor { IsCursor source.now.bodies cursor.new }
{
    let text = source.slice(from, to);
    let pad = padding(text.as_bytes());
    if is_one_line(text.as_bytes()) {
        Ok(CowStr::borrowed(source.text_at(from + pad, to - pad, cursor)))
    } else {
        Ok(CowStr::owned(spaced(alloc, text, pad, text.len() - pad)?))
    }
}

/// The text at a place; it borrows from the line if it stands on one.
pub fn text_at<'a>(
    alloc: Global,
    source: &Source<'a, '_>,
    from: usize,
    to: usize,
    cursor: &mut Cursor,
) -> Result<CowStr<'a>, AllocError>
    requires place { IsPlace source.now.text from to }
    requires cursor { IsCursor source.now.bodies cursor.old }
    ensures text { IfOk result (λ text. text ≡ slice_range source.now.text from to) }
    ensures cursor { IsCursor source.now.bodies cursor.new }
{
    let text = source.slice(from, to);
    if is_one_line(text.as_bytes()) {
        Ok(CowStr::borrowed(source.text_at(from, to, cursor)))
    } else {
        Ok(CowStr::owned(String::from_str(alloc, text)?))
    }
}

/// How many bytes are taken off at either side of the text of code.
fn padding(bytes: &[u8]) -> usize
    ensures { result ≡ padding bytes.now }
{
    if is_padded(bytes) { 1 } else { 0 }
}

/// Whether a text begins and ends with a space or a line end, and has something else too.
#[tactic(auto, using(crate::proofs::CodeLemmas::list_all_spaced))]
fn is_padded(bytes: &[u8]) -> bool
    ensures { result ≡ is_padded (map spaced bytes.now) }
{
    has_outer_spaces(bytes) && !are_spaces(bytes)
}

fn has_outer_spaces(bytes: &[u8]) -> bool
    ensures { result ≡ has_outer_spaces (map spaced bytes.now) }
{
    is_space_at(bytes, 0) && is_space_at(bytes, bytes.len().saturating_sub(1))
}

#[tactic(auto, using(crate::proofs::CodeLemmas::slice_index_spaced))]
fn is_space_at(bytes: &[u8], at: usize) -> bool
    ensures { result ≡ is_space (slice_index (map spaced bytes.now) at) }
{
    at < bytes.len() && counts_as_space(bytes[at])
}

fn are_spaces(bytes: &[u8]) -> bool
    ensures { result ≡ list_all counts_as_space bytes.now }
{
    bytes.iter().all(|b| counts_as_space(*b))
}

/// Whether a byte counts as a space.
fn counts_as_space(b: u8) -> bool
    ensures { result ≡ counts_as_space b }
{
    b == b' ' || b == b'\n'
}

/// Whether no line ends in these bytes.
fn is_one_line(bytes: &[u8]) -> bool
    ensures { result ≡ is_one_line bytes.now }
{
    bytes.iter().all(|b| !(*b == b'\n' || *b == b'\r'))
}

/// A part of a text with a space for each line end.
fn spaced(alloc: Global, text: &str, from: usize, to: usize) -> Result<String, AllocError>
    requires { IsPlace text.now from to }
    ensures { IfOk result (λ s. string_bytes s ≡ map spaced (slice_range text.now from to)) }
{
    let mut joined = String::new(alloc);
    let mut rest = &text[from..to];
    while !rest.is_empty() {
        let end = first_line_end(rest);
        joined.push_str(&rest[..end])?;
        if end == rest.len() {
            break;
        }
        joined.push(' ')?;
        rest = &rest[end + 1..];
    }
    Ok(joined)
}

/// How many bytes stand before the first line end.
#[tactic(auto, unfolding(crate::specs::Code::first_line_end))]
fn first_line_end(text: &str) -> usize
    ensures first { result ≡ first_line_end text.now }
    ensures within { result ≤ length text.now }
    ensures boundary { IsCharBoundary text.now result }
    ensures after { result < length text.now → IsCharBoundary text.now (result + 1) }
{
    let bytes = text.as_bytes();
    let mut at = 0;
    while at < bytes.len() && bytes[at] != b'\n' {
        at += 1;
    }
    at
}
