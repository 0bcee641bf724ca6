// The cells of a table.
ghost use Rattle.std.specs.Prelude.{◌≡◌, IfOk, map};
ghost use Rattle.term_text.specs.Graph.{graphs};
ghost use Rattle.term_text.specs.Iter.{grapheme};
ghost use Rattle.term_text.specs.Rows.{row_graphs};
ghost use Rattle.term_text.specs.Wrap.{NoneWider, wrap};
ghost use Rattle.md_picture.specs.Cells.{cell_rows, cell_width, glyph, with_cell};

use md_columns::Bounds;
use std::alloc::{AllocError, Global};
use std::marker::Model;
use term_text::{CowStr, Cutter, Graph, Line, NoSteps, Row, Span, Steps};

/// The spans of a cell in one line.
#[derive(Drop)]
pub(crate) struct Part<'a> {
    pub spans: Vec<Span<'a>>,
}

impl<'a> Model for Part<'a> {
    ghost use Rattle.std.specs.Prelude.{List};
    ghost use Rattle.term_text.specs.Text.{SpanView};

    ghost Value = { List SpanView };

    ghost view = { λ part. part.spans.items };
}

/// The rows of a cell.
#[derive(Drop)]
pub(crate) struct CellRows<'a> {
    pub parts: Vec<Part<'a>>,
}

impl<'a> Model for CellRows<'a> {
    ghost use Rattle.std.specs.Prelude.{List};
    ghost use Rattle.term_text.specs.Text.{SpanView};

    ghost Value = { List (List SpanView) };

    ghost view = { λ rows. rows.parts.items };
}

/// The columns that the cell's visible graphemes take; want of memory where no `usize` counts them.
pub(crate) fn cell_width(cell: &Line) -> Result<usize, AllocError>
    ensures { IfOk result (λ width. width ≡ cell_width cell.now) }
{
    match cell.width() {
        usize::MAX => Err(AllocError),
        width => Ok(width),
    }
}

/// The bounds of a column that has this cell too.
pub(crate) fn bounded(bounds: Bounds, cell: &Line) -> Result<Bounds, AllocError>
    ensures { IfOk result (λ wider. wider ≡ with_cell bounds cell.now) }
{
    let extent = cell.extent();
    if extent.columns == usize::MAX {
        return Err(AllocError);
    }
    Ok(Bounds {
        least: bounds.least.max(extent.widest),
        most: bounds.most.max(extent.columns),
    })
}

/// The rows of a cell in a column of this width: its spans if they fit, else the rows of its wrap.
///
/// Each of its visible graphemes has to fit the column.
pub(crate) fn cell_rows<'a>(
    alloc: Global,
    width: usize,
    cell: &Line<'a>,
) -> Result<CellRows<'a>, AllocError>
    requires { NoneWider width (graphs cell.now) }
    ensures { IfOk result (λ rows. rows ≡ cell_rows width cell.now) }
{
    if cell_width(cell)? > width {
        return wrapped(alloc, width, cell);
    }
    let mut parts = Vec::new(alloc);
    parts.push(whole(alloc, cell)?)?;
    Ok(CellRows { parts })
}

/// The rows of the wrap of a cell, each grapheme a glyph.
fn wrapped<'a>(alloc: Global, width: usize, cell: &Line<'a>) -> Result<CellRows<'a>, AllocError>
    requires { NoneWider width (graphs cell.now) }
    ensures { IfOk result (λ rows. rows ≡ map (λ row. map glyph row) (wrap width (graphs cell.now))) }
{
    let mut parts = Vec::new(alloc);
    let mut cutter = Cutter::new(cell, width);
    let mut steps = Steps::new(NoSteps);
    'rows: while let Some(row) = cutter.next_row(&mut steps) {
        parts.push(glyphs(alloc, &row)?)?;
    }
    Ok(CellRows { parts })
}

/// The graphemes of a row, each a glyph.
fn glyphs<'a>(alloc: Global, row: &Row) -> Result<Part<'a>, AllocError>
    ensures { IfOk result (λ part. part ≡ map glyph (row_graphs row.now)) }
{
    let mut spans = Vec::new(alloc);
    let mut rest = row.graphemes();
    'graphs: while let Some(graph) = rest.next() {
        spans.push(glyph(alloc, &graph)?)?;
    }
    Ok(Part { spans })
}

/// The spans of a cell; their texts are copied only where they are owned.
fn whole<'a>(alloc: Global, cell: &Line<'a>) -> Result<Part<'a>, AllocError>
    ensures { IfOk result (λ part. part ≡ cell.now.spans) }
{
    let mut spans = Vec::with_capacity(alloc, cell.spans().len())?;
    for span in cell.spans() {
        spans.push(span.try_clone(alloc)?)?;
    }
    Ok(Part { spans })
}

/// A grapheme as a span of its own.
fn glyph<'a>(alloc: Global, graph: &Graph) -> Result<Span<'a>, AllocError>
    ensures { IfOk result (λ span. span ≡ glyph (grapheme graph.now)) }
{
    let text = CowStr::owned(String::from_str(alloc, graph.symbol)?);
    Ok(Span::glyph(text, graph.style))
}
