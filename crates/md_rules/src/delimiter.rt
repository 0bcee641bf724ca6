// The line below a table's header.
ghost use Rattle.std.specs.Prelude.{◌≡◌, IfOk};
ghost use Rattle.md_rules.specs.Tables.{alignment_of, alignments, behind_dashes, dashes, ends_marks, is_delimiter, side_of};

use crate::cell::Cells;
use crate::texts::{begins_with, run_length};
use md_lines::Line;
use md_tree::Alignments;
use std::alloc::{AllocError, Global};
use term_text::Alignment;

/// The cell without the colon that it may begin with.
fn dashes(cell: &[u8]) -> &[u8]
    ensures { result.now ≡ dashes cell.now }
{
    if begins_with(b':', cell) {
        &cell[1..]
    } else {
        cell
    }
}

/// What stands in the cell behind its dashes.
fn behind_dashes(cell: &[u8]) -> &[u8]
    ensures { result.now ≡ behind_dashes cell.now }
{
    let dashes = dashes(cell);
    &dashes[run_length(b'-', dashes)..]
}

/// Whether nothing or a colon is left.
fn ends_marks(rest: &[u8]) -> bool
    ensures { result ≡ ends_marks rest.now }
{
    rest.is_empty() || (rest[0] == b':' && rest.len() == 1)
}

/// Whether the cell is dashes, with a colon before, behind or at both sides.
pub(crate) fn is_delimiter(cell: &[u8]) -> bool
    ensures { result ≡ is_delimiter cell.now }
{
    begins_with(b'-', dashes(cell)) && ends_marks(behind_dashes(cell))
}

/// The side of a column by whether a colon stands before its dashes, and behind them.
fn side_of(before: bool, behind: bool) -> Alignment
    ensures { result ≡ side_of before behind }
{
    match (before, behind) {
        (false, false) => Alignment::None,
        (true, false) => Alignment::Left,
        (false, true) => Alignment::Right,
        (true, true) => Alignment::Center,
    }
}

/// The side that a column with this delimiter keeps to.
fn alignment_of(cell: &[u8]) -> Alignment
    ensures { result ≡ alignment_of cell.now }
{
    side_of(
        begins_with(b':', cell),
        begins_with(b':', behind_dashes(cell)),
    )
}

/// The sides that the columns of a table keep to whose header is followed by this line.
pub fn alignments(alloc: Global, line: &Line) -> Result<Alignments, AllocError>
    ensures { IfOk result (λ a. a ≡ alignments line.now) }
{
    let mut alignments = Alignments::new(alloc);
    let mut cells = Cells::of(line);
    while let Some(cell) = cells.next_cell() {
        alignments.push(alignment_of(cell.as_bytes()))?;
    }
    Ok(alignments)
}
