// Lines that are read, of which the last are kept.
ghost use Rattle.std.specs.Prelude.{◌≡◌, ◌<◌, ◌≤◌, ◌+◌, ◌∷◌, [], ◌++◌, length, true, OnOk};
ghost use Rattle.std.specs.VecDeque.{deque_len, deque_capacity};
ghost use Rattle.term_text.specs.LineEnds.{is_one_line, raw_lines};
ghost use Rattle.ansi_feed.specs.Feed.{last_of};
ghost use Rattle.ansi_feed.specs.Answers.{PassesLines, ReadsLine, ReadsLines, ReadsStyle};

use crate::error::FeedError;
use ansi_text::{Error, line_into_text, style_after_line};
use std::alloc::{AllocError, Global};
use std::collections::VecDeque;
use term_text::{Line, Style, next_line_of_bytes};

/// The last lines that were read, and the style after all of them.
#[derive(Drop)]
pub(crate) struct Fresh {
    pub(crate) lines: VecDeque<Line<'static>>,
    pub(crate) style: Style,
}

/// Adds an item at the end, and drops the first one where there are more than the bound.
fn keep_item<T: Drop>(items: &mut VecDeque<T>, bound: usize, item: T) -> Result<(), AllocError>
    requires { length items.old.items ≤ bound }
    ensures { OnOk result (items.new.items ≡ last_of bound (items.old.items ++ item ∷ [])) }
{
    if bound == 0 {
        return Ok(());
    }
    if items.len() >= bound {
        let _ = items.pop_front();
    }
    items.push_back(item)?;
    Ok(())
}

/// Adds items at the end, and drops the first ones where there are more than the bound. There is room for them.
pub(crate) fn keep_items<T: Drop>(items: &mut VecDeque<T>, bound: usize, mut fresh: VecDeque<T>)
    requires room { deque_len items.old + deque_len fresh ≤ deque_capacity items.old }
    requires few { deque_len fresh ≤ bound }
    ensures { items.new.items ≡ last_of bound (items.old.items ++ fresh.items) }
{
    let most = bound - fresh.len();
    while items.len() > most {
        let _ = items.pop_front();
    }
    match items.append(&mut fresh) {
        Ok(()) => {}
        Err(_) => unreachable!(),
    }
}

/// The one line of bytes without a line end, begun in a style, and the style after it.
fn read_line(alloc: Global, style: Style, bytes: &[u8]) -> Result<(Line<'static>, Style), FeedError>
    requires { is_one_line bytes.now ≡ true }
    ensures { ReadsLine style bytes.now result }
{
    match line_into_text(alloc, style, bytes) {
        Ok(line) => Ok(line),
        Err(Error::Memory) => Err(FeedError::Memory),
        Err(Error::Utf8Error) => Err(FeedError::Utf8Error),
    }
}

/// The style after the one line of bytes without a line end, begun in a style.
fn read_style(style: Style, bytes: &[u8]) -> Result<Style, FeedError>
    requires { is_one_line bytes.now ≡ true }
    ensures { ReadsStyle style bytes.now result }
{
    match style_after_line(style, bytes) {
        Ok(style) => Ok(style),
        Err(_) => Err(FeedError::Utf8Error),
    }
}

/// The one line of the bytes that are there and those behind them.
fn read_first_line(
    alloc: Global,
    style: Style,
    front: &[u8],
    behind: &[u8],
) -> Result<(Line<'static>, Style), FeedError>
    requires front { is_one_line front.now ≡ true }
    requires behind { is_one_line behind.now ≡ true }
    ensures { ReadsLine style (front.now ++ behind.now) result }
{
    if front.is_empty() {
        return read_line(alloc, style, behind);
    }
    let mut bytes = Vec::from_slice(alloc, front)?;
    bytes.extend_from_slice(behind)?;
    read_line(alloc, style, bytes.as_slice())
}

/// How many lines the bytes have.
fn line_count(bytes: &[u8]) -> usize
    ensures { result ≡ length (raw_lines bytes.now) }
{
    let mut count = 0usize;
    let mut rest = bytes;
    while !rest.is_empty() {
        let (_, after) = next_line_of_bytes(rest);
        count += 1;
        rest = after;
    }
    count
}

/// Passes over lines that would not be kept, until no more than the bound are left: the style there, and what is left.
/// Only their styles are read.
fn pass_lines<'a>(
    bound: usize,
    style: Style,
    bytes: &'a [u8],
) -> Result<(Style, &'a [u8]), FeedError>
    ensures { PassesLines bound style bytes.now result }
{
    let mut left = line_count(bytes);
    let mut style = style;
    let mut rest = bytes;
    while left > bound {
        let (line, after) = next_line_of_bytes(rest);
        style = read_style(style, line)?;
        rest = after;
        left -= 1;
    }
    Ok((style, rest))
}

/// The last lines of unfinished bytes and the bytes behind them, and the style after all of them.
pub(crate) fn read_lines(
    alloc: Global,
    bound: usize,
    style: Style,
    front: &[u8],
    bytes: &[u8],
) -> Result<Fresh, FeedError>
    requires front { is_one_line front.now ≡ true }
    requires some { 0 < length bytes.now }
    ensures { ReadsLines bound style (front.now ++ bytes.now) result }
{
    let mut lines: VecDeque<Line<'static>> = VecDeque::new(alloc);
    let (first, after) = next_line_of_bytes(bytes);
    let (line, next) = read_first_line(alloc, style, front, first)?;
    keep_item(&mut lines, bound, line)?;
    let (mut style, mut rest) = pass_lines(bound, next, after)?;
    while !rest.is_empty() {
        let (bytes, after) = next_line_of_bytes(rest);
        let (line, next) = read_line(alloc, style, bytes)?;
        keep_item(&mut lines, bound, line)?;
        style = next;
        rest = after;
    }
    Ok(Fresh { lines, style })
}
