// Items of lists.
ghost use Rattle.std.specs.Prelude.{◌≡◌, ◌≤◌, ◌<◌, length, take, drop, IfOk, IsTrue};
ghost use Rattle.std.specs.Str.{IsCharBoundary};
ghost use Rattle.std.specs.Str.Parse.{digits_value};
ghost use Rattle.term_text.specs.LineEnds.{is_one_line};
ghost use Rattle.md_lines.specs.Lines.{line_of};
ghost use Rattle.md_rules.specs.Quotes.{less};
ghost use Rattle.md_rules.specs.Items.{digits, ends_number, has_number, is_bullet, is_first_number, is_task, item_column, item_line, item_lines, item_more, marker_in, marker_of, may_interrupt, numbered, task_by, task_of, without_task};

use crate::code::hanging;
use crate::hung::hung;
use crate::quote::less;
use crate::shallow::is_shallow;
use crate::texts::ends_word;
use md_lines::{Line, is_blank, line_of};
use std::alloc::{AllocError, Global};

/// The marker of an item.
#[derive(Clone, Copy)]
pub struct Marker {
    /// Its last character.
    pub kind: u8,
    /// How many characters it has.
    pub length: usize,
    /// Its number, where it has one.
    pub number: Option<u64>,
}

fn is_bullet(b: u8) -> bool
    ensures { result ≡ is_bullet b }
{
    b == b'-' || b == b'*' || b == b'+'
}

/// How many ASCII digits begin the body.
fn digits(body: &[u8]) -> usize
    ensures value { result ≡ digits body.now }
    ensures within { result ≤ length body.now }
{
    body.iter().take_while(|b| b.is_ascii_digit()).count()
}

/// Whether a number's marker stands in front, behind so many digits.
fn has_number(count: usize, body: &[u8]) -> bool
    requires { count ≤ length body.now }
    ensures { result ≡ has_number count body.now }
{
    count >= 1 && count <= 9 && count < body.len() && ends_number(&body[count..])
}

/// Whether `.` or `)` stands in front, and then a blank or the end.
fn ends_number(rest: &[u8]) -> bool
    requires { 0 < length rest.now }
    ensures { result ≡ ends_number rest.now }
{
    (rest[0] == b'.' || rest[0] == b')') && ends_word(&rest[1..])
}

/// The number of one to nine digits in front.
fn number(count: usize, body: &str) -> u64
    requires count { count ≡ digits body.now }
    requires some { 0 < count }
    requires short { count ≤ 9 }
    ensures { result ≡ digits_value 10 (take count body.now) }
{
    match body[..count].parse::<u64>() {
        Ok(number) => number,
        Err(_) => 0,
    }
}

/// The number's marker in front.
fn numbered(body: &str) -> Option<Marker>
    ensures { result ≡ numbered (digits body.now) body.now }
{
    let bytes = body.as_bytes();
    let count = digits(bytes);
    if !has_number(count, bytes) {
        return None;
    }
    Some(Marker {
        kind: bytes[count],
        length: count + 1,
        number: Some(number(count, body)),
    })
}

/// The marker in front.
fn marker_in(body: &str) -> Option<Marker>
    ensures { result ≡ marker_in body.now }
{
    let bytes = body.as_bytes();
    if bytes.is_empty() {
        return None;
    }
    if is_bullet(bytes[0]) && ends_word(&bytes[1..]) {
        return Some(Marker {
            kind: bytes[0],
            length: 1,
            number: None,
        });
    }
    numbered(body)
}

/// The marker of the item that begins at the line, or `None` where none does.
pub fn marker_of(line: &Line) -> Option<Marker>
    ensures { result ≡ marker_of line.now }
{
    if !is_shallow(line) {
        return None;
    }
    marker_in(line.body)
}

impl Marker {
    /// What stands on the item's line behind its marker, less one column.
    pub fn item_line<'a>(&self, line: &Line<'a>) -> Line<'a>
        requires { marker_of line.now ≡ Some self.now }
        ensures { result ≡ item_line self.now line.now }
    {
        behind(self.length, line.body)
    }

    /// The indent that the further lines of the item at this line have, and lose.
    pub fn column(&self, line: &Line) -> u128
        requires { marker_of line.now ≡ Some self.now }
        ensures { result ≡ item_column self.now line.now }
    {
        line.indent + self.length as u128 + 1
    }

    /// How many of the lines behind the item's line it takes.
    pub fn item_more(&self, line: &Line, later: &[Line]) -> usize
        requires { marker_of line.now ≡ Some self.now }
        ensures value { result ≡ item_more self.now line.now later.now }
        ensures within { result ≤ length later.now }
    {
        hanging(self.column(line), later)
    }
}

/// What stands behind so many bytes of a line's body, read anew, less one column.
fn behind<'a>(length: usize, body: &'a str) -> Line<'a>
    requires place { IsCharBoundary body.now length }
    requires one_line { IsTrue (is_one_line body.now) }
    ensures { result ≡ less 1 (line_of (drop length body.now)) }
{
    less(1, &line_of(&body[length..]))
}

/// The mark of a task by what stands between its brackets: whether it is done.
fn task_by(b: u8) -> Option<bool>
    ensures { result ≡ task_by b }
{
    match b {
        b' ' => Some(false),
        b'x' | b'X' => Some(true),
        _ => None,
    }
}

fn is_task(body: &[u8]) -> bool
    ensures { result ≡ is_task body.now }
{
    body.len() >= 4 && body[0] == b'[' && body[2] == b']' && is_blank(body[3])
}

/// The task mark that an item's first line begins with: whether it is done, or `None` where there is none.
pub fn task_of(line: &Line) -> Option<bool>
    ensures { result ≡ task_of line.now }
{
    let body = line.body.as_bytes();
    if is_shallow(line) && is_task(body) {
        task_by(body[1])
    } else {
        None
    }
}

/// The first line of an item without its task mark.
fn without_task<'a>(line: Line<'a>) -> Line<'a>
    ensures { result ≡ without_task (task_of line.entry) line.entry }
{
    match task_of(&line) {
        None => line,
        Some(_) => behind(3, line.body),
    }
}

/// The lines of an item whose first line, without its marker, is given: that one without its task mark, and the item's
/// further lines, which lose so many columns.
pub fn item_lines<'a>(
    alloc: Global,
    column: u128,
    first: Line<'a>,
    own: &[Line<'a>],
) -> Result<Vec<Line<'a>>, AllocError>
    ensures { IfOk result (λ v. v.items ≡ item_lines column first.entry own.now) }
{
    hung(alloc, column, without_task(first), own)
}

/// Whether an item of this number ends a paragraph.
fn is_first_number(number: Option<u64>) -> bool
    ensures { result ≡ is_first_number number }
{
    match number {
        None => true,
        Some(number) => number == 1,
    }
}

/// Whether the item of this marker at the line ends a paragraph: it is not empty, and its number, if it has one, is 1.
pub(crate) fn may_interrupt(line: &Line, marker: Marker) -> bool
    requires { marker_of line.now ≡ Some marker }
    ensures { result ≡ may_interrupt line.now marker }
{
    !marker.item_line(line).is_empty() && is_first_number(marker.number)
}
