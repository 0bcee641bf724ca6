// Tables: rows of cells between bars.
ghost use Rattle.std.specs.Prelude.{◌≡◌, ◌==◌, ◌&&◌, length};
ghost use Rattle.std.specs.List.{list_all};
ghost use Rattle.md_rules.specs.Tables.{begins_table, has_cells, is_delimiter, starts_table};

use crate::cell::{Cells, has_bar};
use crate::delimiter::is_delimiter;
use crate::shallow::is_shallow;
use md_lines::Line;

/// Whether the line may be one of a table's.
pub(crate) fn has_cells(line: &Line) -> bool
    ensures { result ≡ has_cells line.now }
{
    is_shallow(line) && has_bar(line.body.as_bytes())
}

/// Whether there are equally many cells and marks, and the marks are delimiters.
fn are_marked(mut cells: Cells, mut marks: Cells) -> bool
    ensures { result ≡ (length cells.entry == length marks.entry && list_all is_delimiter marks.entry) }
{
    while let Some(mark) = marks.next_cell() {
        if cells.next_cell().is_none() || !is_delimiter(mark.as_bytes()) {
            return false;
        }
    }
    cells.next_cell().is_none()
}

/// Whether a table begins at the line, before this one.
fn begins_table(line: &Line, next: &Line) -> bool
    ensures { result ≡ begins_table line.now next.now }
{
    has_cells(line) && has_cells(next) && are_marked(Cells::of(line), Cells::of(next))
}

/// Whether a table begins at the line, which is followed by these.
pub fn starts_table(line: &Line, later: &[Line]) -> bool
    ensures { result ≡ starts_table line.now later.now }
{
    !later.is_empty() && begins_table(line, &later[0])
}
