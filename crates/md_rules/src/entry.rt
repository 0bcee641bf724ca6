// Definition lists, entry by entry.
ghost use Rattle.std.specs.Prelude.{◌≡◌, ◌≤◌, Some, length};
ghost use Rattle.md_rules.specs.Entries.{entries_more, entry_more, next_entry};

use crate::definitions::{describes, description_more};
use crate::start::{BlockStart, Items, block_start};
use md_lines::Line;

/// An entry of a definition list.
#[derive(Clone, Copy, Debug, PartialEq, Eq)]
pub enum Entry {
    Title,
    Description,
}

impl Entry {
    /// How many of the lines behind the entry's line it takes.
    pub fn entry_more(self, line: &Line, later: &[Line]) -> usize
        requires { next_entry line.now later.now ≡ Some self }
        ensures value { result ≡ entry_more self line.now later.now }
        ensures within { result ≤ length later.now }
    {
        match self {
            Entry::Title => 0,
            Entry::Description => description_more(line, later),
        }
    }
}

/// What goes on with a definition list at the line, which these lines follow, or `None` where it ends.
pub fn next_entry(line: &Line, later: &[Line]) -> Option<Entry>
    ensures { result ≡ next_entry line.now later.now }
{
    if describes(line) {
        return Some(Entry::Description);
    }
    match block_start(true, Items::All, line, later) {
        BlockStart::Definitions => Some(Entry::Title),
        _ => None,
    }
}

/// How many of the lines further entries of a definition list take.
pub fn entries_more(lines: &[Line]) -> usize
    ensures value { result ≡ entries_more 0 lines.now }
    ensures within { result ≤ length lines.now }
{
    let mut taken = 0;
    let mut at = 0;
    while at < lines.len() {
        let line = &lines[at];
        at += 1;
        if line.is_empty() {
            continue;
        }
        match next_entry(line, &lines[at..]) {
            Some(entry) => at += entry.entry_more(line, &lines[at..]),
            None => break,
        }
        taken = at;
    }
    taken
}
