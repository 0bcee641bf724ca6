// The columns of a table.
ghost use Rattle.std.specs.Prelude.{◌≡◌, ◌≤◌, ◌++◌, ◌∷◌, [], IfOk, OnOk, drop, length, take};
ghost use Rattle.md_picture.specs.Cells.{bounds_of, with_row};
ghost use Rattle.md_picture.specs.Picture.{budget_of, columns_of, widths_of};
ghost use Rattle.md_picture.specs.Widths.{picture_width};

use crate::cell::bounded;
use crate::table::Row;
use md_columns::{Bounds, fair};
use std::alloc::{AllocError, Global};
use term_text::{Alignment, Line};

/// A column: its width in columns of cells, and the side that its cells keep to.
#[derive(Clone, Copy)]
pub(crate) struct Column {
    pub width: usize,
    pub alignment: Alignment,
}

/// The bounds of the columns of a table with so many alignments, a header and rows.
pub(crate) fn bounds_of(
    alloc: Global,
    alignments: usize,
    header: &Row,
    rows: &[Row],
) -> Result<Vec<Bounds>, AllocError>
    ensures { IfOk result (λ bounds. bounds.items ≡ bounds_of alignments (header.now ∷ rows.now)) }
{
    let mut bounds = Vec::with_capacity(alloc, alignments)?;
    for _ in 0..alignments {
        bounds.push(Bounds { least: 1, most: 1 })?;
    }
    add_row(&mut bounds, header.cells())?;
    for row in rows {
        add_row(&mut bounds, row.cells())?;
    }
    Ok(bounds)
}

/// Widens the bounds by the cells of a row; a row that is longer makes columns.
fn add_row(bounds: &mut Vec<Bounds>, cells: &[Line]) -> Result<(), AllocError>
    ensures { OnOk result (bounds.new.items ≡ with_row bounds.old.items cells.now) }
{
    for at in 0..cells.len() {
        add_cell(bounds, at, &cells[at])?;
    }
    Ok(())
}

/// Widens the bounds at a place by a cell, or adds a column there.
fn add_cell(bounds: &mut Vec<Bounds>, at: usize, cell: &Line) -> Result<(), AllocError>
    requires { at ≤ length bounds.now.items }
    ensures { OnOk result (bounds.new.items ≡ take at bounds.old.items ++ with_row (drop at bounds.old.items) (cell.now ∷ [])) }
{
    if at < bounds.len() {
        bounds[at] = bounded(bounds[at], cell)?;
        return Ok(());
    }
    bounds.push(bounded(Bounds { least: 1, most: 1 }, cell)?)?;
    Ok(())
}

/// The widths of columns, in a width of the whole if one is set.
pub(crate) fn widths_of(
    alloc: Global,
    width: Option<usize>,
    bounds: &[Bounds],
) -> Result<Vec<usize>, AllocError>
    ensures { IfOk result (λ widths. widths.items ≡ widths_of width bounds.now) }
{
    match width {
        Some(width) => fair(alloc, budget_of(width, bounds.len()), bounds),
        None => {
            let mut widths = Vec::with_capacity(alloc, bounds.len())?;
            for column in bounds {
                widths.push(column.most)?;
            }
            Ok(widths)
        }
    }
}

/// What a width leaves to the cells of so many columns.
fn budget_of(width: usize, count: usize) -> usize
    ensures { result ≡ budget_of width count }
{
    width.saturating_sub(count.saturating_mul(3).saturating_add(1))
}

/// The columns of these widths; those without an alignment have none.
#[tactic(auto, unfolding(crate::specs::Picture::columns_of))]
pub(crate) fn columns_of(
    alloc: Global,
    widths: &[usize],
    alignments: &[Alignment],
) -> Result<Vec<Column>, AllocError>
    ensures { IfOk result (λ columns. columns.items ≡ columns_of widths.now alignments.now) }
{
    let mut columns = Vec::with_capacity(alloc, widths.len())?;
    for at in 0..widths.len() {
        let alignment = match alignments.get(at) {
            Some(alignment) => *alignment,
            None => Alignment::None,
        };
        columns.push(Column {
            width: widths[at],
            alignment,
        })?;
    }
    Ok(columns)
}

/// The columns of cells that a line of the picture takes; want of memory where no `usize` counts them.
pub(crate) fn picture_width(columns: &[Column]) -> Result<usize, AllocError>
    ensures { IfOk result (λ width. width ≡ picture_width columns.now) }
{
    let mut width = 1usize;
    for column in columns {
        match width.checked_add(column.width.saturating_add(3)) {
            Some(more) => width = more,
            None => return Err(AllocError),
        }
    }
    Ok(width)
}
