// Whether the runs of a row are cut into their symbols.
ghost use Rattle.std.specs.Prelude.{◌≡◌, ◌≤◌, ◌<◌, List, map, take, drop, length, string_bytes, true, IfOk};
ghost use Rattle.std.specs.List.{list_all};
ghost use Rattle.unicode_segmentation.specs.Grapheme.{graphemes};
ghost use Rattle.term_text.specs.Lists.{joined};
ghost use Rattle.term_core.specs.BufferRows.{buffer_rows};
ghost use Rattle.term_core.specs.Cells.{CellView};
ghost use Rattle.term_core.specs.Visited.{visited};
ghost use Rattle.term_ansi.specs.Printed.{printed_cells, kept};
ghost use Rattle.term_ansi.specs.Separable.{is_separable_row, is_parted, groups, separable, texts_eq, same_front, symbols_of, is_cut};

use crate::look::{Look, is_blank};
use crate::spread::is_spread;
use std::alloc::{AllocError, Global};
use term_core::{Buffer, Cell, VisitedCells};
use unicode_segmentation::UnicodeSegmentation;

/// Whether the buffer's printed text is cut into its symbols again: each shown symbol is a visible
/// grapheme, the cells that it covers are blank and in its row, and the graphemes of the joined
/// symbols of each maximal run of equal look are those symbols.
pub fn separable(alloc: Global, buf: &Buffer) -> Result<bool, AllocError>
    ensures { IfOk result (λ v. v ≡ separable (buffer_rows buf.now)) }
{
    let mut rest = buf.rows();
    'rows: while let Some(row) = rest.next() {
        if !is_separable_row(alloc, row)? {
            return Ok(false);
        }
    }
    Ok(true)
}

fn is_separable_row(alloc: Global, row: &[Cell]) -> Result<bool, AllocError>
    ensures { IfOk result (λ v. v ≡ is_separable_row row.now) }
{
    if !is_spread(row) {
        return Ok(false);
    }
    let cells = printed_cells(alloc, row)?;
    let parted = are_parted(alloc, cells.as_slice())?;
    Ok(parted)
}

/// The cells of a row that are printed.
fn printed_cells(alloc: Global, row: &[Cell]) -> Result<Vec<Cell>, AllocError>
    ensures { IfOk result (λ v. v.items ≡ printed_cells row.now) }
{
    let mut cells = visited_cells(alloc, row)?;
    let end = kept_len(cells.as_slice());
    cells.truncate(end);
    Ok(cells)
}

fn visited_cells(alloc: Global, row: &[Cell]) -> Result<Vec<Cell>, AllocError>
    ensures { IfOk result (λ v. v.items ≡ visited row.now) }
{
    let mut cells = Vec::new(alloc);
    let mut rest = VisitedCells::new(row);
    'cells: while let Some(cell) = rest.next() {
        cells.push(cell.try_clone(alloc)?)?;
    }
    Ok(cells)
}

/// How many cells stay without the blank ones at the end.
fn kept_len(cells: &[Cell]) -> usize
    ensures { take result cells.now ≡ kept cells.now }
{
    let mut end = cells.len();
    'end: while end > 0 && is_blank(&cells[end - 1]) {
        end -= 1;
    }
    end
}

/// Whether each run is cut into its symbols.
fn are_parted(alloc: Global, cells: &[Cell]) -> Result<bool, AllocError>
    ensures { IfOk result (λ v. v ≡ list_all is_parted (groups cells.now)) }
{
    let mut at: usize = 0;
    'runs: while at < cells.len() {
        let look = Look::of(&cells[at]);
        let left = after(cells, at);
        let count = same_front(look, left);
        let cut = is_cut(alloc, front(left, count))?;
        if !cut {
            return Ok(false);
        }
        at += count;
    }
    Ok(true)
}

fn after(cells: &[Cell], at: usize) -> &[Cell]
    requires { at ≤ length cells.now }
    ensures { result.now ≡ drop at cells.now }
{
    &cells[at..]
}

fn front(cells: &[Cell], count: usize) -> &[Cell]
    requires { count ≤ length cells.now }
    ensures { result.now ≡ take count cells.now }
{
    &cells[..count]
}

/// How many cells in front have the look.
fn same_front(look: Look, cells: &[Cell]) -> usize
    ensures value { result ≡ same_front look cells.now }
    ensures bound { result ≤ length cells.now }
{
    let mut at: usize = 0;
    'cells: while at < cells.len() {
        let cell = &cells[at];
        if !look.is(Look::of(cell)) {
            break;
        }
        at += 1;
    }
    at
}

/// Whether the graphemes of the joined symbols are the symbols.
fn is_cut(alloc: Global, cells: &[Cell]) -> Result<bool, AllocError>
    ensures { IfOk result (λ v. v ≡ is_cut cells.now) }
{
    let text = joined(alloc, cells)?;
    Ok(are_symbols(text.as_str(), cells))
}

fn joined(alloc: Global, cells: &[Cell]) -> Result<String, AllocError>
    ensures { IfOk result (λ t. string_bytes t ≡ joined (symbols_of cells.now)) }
{
    let mut text = String::new(alloc);
    let mut at: usize = 0;
    'cells: while at < cells.len() {
        let cell = &cells[at];
        text.push_str(cell.symbol())?;
        at += 1;
    }
    Ok(text)
}

/// Whether the graphemes of the text are the symbols of the cells.
fn are_symbols(text: &str, cells: &[Cell]) -> bool
    ensures { result ≡ texts_eq (graphemes true text.now) (symbols_of cells.now) }
{
    let mut pieces = text.graphemes(true);
    let mut at: usize = 0;
    'cells: while at < cells.len() {
        let cell = &cells[at];
        let Some(piece) = pieces.next() else {
            return false;
        };
        if piece != cell.symbol() {
            return false;
        }
        at += 1;
    }
    pieces.next().is_none()
}
