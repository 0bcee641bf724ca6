// Definition lists: titles, and descriptions behind colons.
ghost use Rattle.std.specs.Prelude.{◌≡◌, ◌≤◌, length, IfOk, IsTrue};
ghost use Rattle.md_rules.specs.Definitions.{begins_blank, begins_definitions, describes, description_column, description_lines, description_more, has_colon, starts_definitions, title_of};

use crate::code::hanging;
use crate::hung::hung;
use crate::quote::less;
use crate::shallow::is_shallow;
use crate::texts::{after_first, trimmed};
use md_lines::{Line, is_blank, line_of};
use std::alloc::{AllocError, Global};

/// Whether a blank stands in front.
fn begins_blank(bytes: &[u8]) -> bool
    ensures { result ≡ begins_blank bytes.now }
{
    !bytes.is_empty() && is_blank(bytes[0])
}

/// Whether `:` and a blank stand in front.
fn has_colon(body: &[u8]) -> bool
    ensures { result ≡ has_colon body.now }
{
    !body.is_empty() && body[0] == b':' && begins_blank(&body[1..])
}

/// Whether a description begins at the line, behind a title or another description.
pub(crate) fn describes(line: &Line) -> bool
    ensures { result ≡ describes line.now }
{
    is_shallow(line) && has_colon(line.body.as_bytes())
}

/// Whether a definition list begins at the line, before this one.
fn begins_definitions(line: &Line, next: &Line) -> bool
    ensures { result ≡ begins_definitions line.now next.now }
{
    is_shallow(line) && !has_colon(line.body.as_bytes()) && describes(next)
}

/// Whether a definition list begins at the line, which is followed by these. Only the next line is looked at.
pub fn starts_definitions(line: &Line, later: &[Line]) -> bool
    ensures { result ≡ starts_definitions line.now later.now }
{
    !later.is_empty() && begins_definitions(line, &later[0])
}

/// The content of the title at the line.
pub fn title_of<'a>(line: &Line<'a>) -> Line<'a>
    ensures { result ≡ title_of line.now }
{
    Line {
        indent: 0,
        body: trimmed(line.body),
    }
}

/// The indent that the further lines of the description at this line have, and lose.
fn description_column(line: &Line) -> u128
    requires { IsTrue (describes line.now) }
    ensures { result ≡ description_column line.now }
{
    line.indent + 2
}

/// How many of the lines behind the description's line it takes.
pub(crate) fn description_more(line: &Line, later: &[Line]) -> usize
    requires { IsTrue (describes line.now) }
    ensures value { result ≡ description_more line.now later.now }
    ensures within { result ≤ length later.now }
{
    hanging(description_column(line), later)
}

/// The lines of the description that begins at the line and has these further lines, without its colon and its columns.
pub fn description_lines<'a>(
    alloc: Global,
    line: &Line<'a>,
    own: &[Line<'a>],
) -> Result<Vec<Line<'a>>, AllocError>
    requires { IsTrue (describes line.now) }
    ensures { IfOk result (λ v. v.items ≡ description_lines line.now own.now) }
{
    let first = less(1, &line_of(after_first(line.body)));
    hung(alloc, description_column(line), first, own)
}
