// The cells that rows take.
ghost use Rattle.std.specs.Prelude.{◌≡◌, ◌+◌, ◌≤◌, ◌++◌, [], length, replicate, unwrap_or, option_map, OnOk, IfOk};
ghost use Rattle.std.specs.Option.{ForSome};
ghost use Rattle.term_core.specs.Cells.{cells, cell_of, blank_cell};
ghost use Rattle.term_core.specs.Graph.{columns};
ghost use Rattle.term_core.specs.Iter.{grapheme};
ghost use Rattle.term_core.specs.Rows.{row_graphs};

use std::alloc::{AllocError, Global};
use term_core::{Cell, Graph, Row};

/// The first cell of a grapheme.
fn first_cell(alloc: Global, graph: &Graph) -> Result<Cell, AllocError>
    ensures { IfOk result (λ c. c ≡ cell_of (grapheme graph.now)) }
{
    let mut cell = Cell::new(alloc, graph.symbol)?;
    cell.set_style(graph.style);
    Ok(cell)
}

/// Adds blank cells.
fn push_blanks(alloc: Global, out: &mut Vec<Cell>, count: usize) -> Result<(), AllocError>
    ensures { OnOk result (out.new.items ≡ out.old.items ++ replicate count blank_cell) }
{
    for i in 0..count {
        out.push(Cell::blank(alloc))?;
    }
    Ok(())
}

/// Adds the cells of a row, which is at most `width` columns wide.
fn push_row(alloc: Global, out: &mut Vec<Cell>, row: &Row, width: usize) -> Result<(), AllocError>
    requires { columns (row_graphs row.now) ≤ width }
    ensures items { OnOk result (out.new.items ≡ out.old.items ++ cells (row_graphs row.now) width) }
    ensures len { OnOk result (length out.new.items ≡ length out.old.items + width) }
{
    let mut room = width;
    let mut rest = row.graphemes();
    'graphs: while let Some(graph) = rest.next() {
        out.push(first_cell(alloc, &graph)?)?;
        push_blanks(alloc, out, graph.width - 1)?;
        room -= graph.width;
    }
    push_blanks(alloc, out, room)?;
    Ok(())
}

/// Adds the cells of a row, or blank cells where there is none.
pub(crate) fn push_row_or_blanks(
    alloc: Global,
    out: &mut Vec<Cell>,
    row: Option<Row>,
    width: usize,
) -> Result<(), AllocError>
    requires { ForSome row (λ r. columns (row_graphs r) ≤ width) }
    ensures items { OnOk result (out.new.items
        ≡ out.old.items ++ cells (unwrap_or (option_map row_graphs row.entry) []) width) }
    ensures len { OnOk result (length out.new.items ≡ length out.old.items + width) }
{
    match row {
        Some(row) => push_row(alloc, out, &row, width),
        None => push_blanks(alloc, out, width),
    }
}
