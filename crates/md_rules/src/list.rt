// Lists: items of one kind.
ghost use Rattle.std.specs.Prelude.{◌≡◌, ◌≤◌, length};
ghost use Rattle.md_rules.specs.Lists.{is_loose, list_more, next_item};

use crate::item::Marker;
use crate::start::{BlockStart, Items, block_start};
use md_lines::Line;

/// The marker of the next item of a list of this kind, or `None` where none begins at the line.
pub fn next_item(kind: u8, line: &Line) -> Option<Marker>
    ensures { result ≡ next_item kind line.now }
{
    match block_start(true, Items::All, line, &[]) {
        BlockStart::Item(marker) if marker.kind == kind => Some(marker),
        _ => None,
    }
}

/// How many of the lines a list of this kind takes, whose item before them has so many of them.
pub fn list_more(kind: u8, own: usize, lines: &[Line]) -> usize
    requires { own ≤ length lines.now }
    ensures value { result ≡ list_more kind own lines.now }
    ensures within { result ≤ length lines.now }
{
    let mut taken = own;
    let mut at = own;
    while at < lines.len() {
        let line = &lines[at];
        at += 1;
        if line.is_empty() {
            continue;
        }
        match next_item(kind, line) {
            Some(marker) => at += marker.item_more(line, &lines[at..]),
            None => break,
        }
        taken = at;
    }
    taken
}

/// Whether a list with these lines is loose.
pub fn is_loose(lines: &[Line]) -> bool
    ensures { result ≡ is_loose lines.now }
{
    lines.iter().any(|line| line.is_empty())
}
