// Rows of cells as lines of text.
ghost use Rattle.std.specs.Prelude.{◌≡◌, ◌≤◌, ◌∷◌, ◌++◌, [], length, take, drop, IfOk, OnOk};
ghost use Rattle.term_core.specs.BufferRows.{buffer_rows};
ghost use Rattle.term_core.specs.Visited.{visited};
ghost use Rattle.view_print.specs.Print.{print, row_text, symbols, trimmed};

use std::alloc::{AllocError, Global};
use term_core::{Buffer, Cell, VisitedCells};

/// The buffer as plain text: a line for each of its rows, and a last line with the number of
/// rows of the page.
///
/// A line is the symbols of the row's visited cells, without the spaces (U+0020) at its end. Each
/// line ends with a line feed. No colour and no modifier is printed.
pub fn print_view(alloc: Global, buf: &Buffer, rows: usize) -> Result<Vec<u8>, AllocError>
    ensures { IfOk result (λ v. v.items ≡ print (buffer_rows buf.now) rows) }
{
    let mut out = Vec::new(alloc);
    let mut rest = buf.rows();
    'rows: while let Some(row) = rest.next() {
        push_row(&mut out, row)?;
    }
    let count = format!(in alloc; "rows {rows}\n")?;
    out.extend_from_slice(count.as_bytes())?;
    Ok(out)
}

/// Adds the line of a row.
fn push_row(out: &mut Vec<u8>, row: &[Cell]) -> Result<(), AllocError>
    ensures { OnOk result (out.new.items ≡ out.old.items ++ (row_text row.now ++ 10 ∷ [])) }
{
    let start = out.len();
    push_symbols(out, row)?;
    trim_end(out, start);
    out.push(b'\n')?;
    Ok(())
}

/// Adds the symbols of the visited cells of a row.
fn push_symbols(out: &mut Vec<u8>, row: &[Cell]) -> Result<(), AllocError>
    ensures { OnOk result (out.new.items ≡ out.old.items ++ symbols (visited row.now)) }
{
    let mut rest = VisitedCells::new(row);
    'cells: while let Some(cell) = rest.next() {
        out.extend_from_slice(cell.symbol().as_bytes())?;
    }
    Ok(())
}

/// Cuts the spaces at the end, but nothing before the byte `start`.
fn trim_end(out: &mut Vec<u8>, start: usize)
    requires { start ≤ length out.old.items }
    ensures { out.new.items ≡ take start out.old.items ++ trimmed (drop start out.old.items) }
{
    let mut end = out.len();
    'end: while start < end && out[end - 1] == b' ' {
        end -= 1;
    }
    out.truncate(end);
}
