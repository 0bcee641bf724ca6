// The lines of a row of a table.
ghost use Rattle.std.specs.Prelude.{◌≡◌, ◌++◌, ◌∷◌, [], ◌+◌, ◌-◌, ◌≤◌, IfOk, OnOk, drop, replicate};
ghost use Rattle.term_text.specs.Style.{no_style};
ghost use Rattle.term_text.specs.Graph.{graphs};
ghost use Rattle.term_text.specs.Wrap.{NoneWider};
ghost use Rattle.md_picture.specs.Cells.{cell_rows};
ghost use Rattle.md_picture.specs.Fits.{RowFits};
ghost use Rattle.md_picture.specs.Picture.{bar, cell_spans, first_cell, first_part, height_of, left_room, lengthened, other_parts, pad, part, row_lines, row_parts, span_width, spans_width, with_cells, with_parts};

use crate::border::push_bar;
use crate::cell::{CellRows, Part, cell_rows};
use crate::columns::Column;
use std::alloc::{AllocError, Global};
use std::vec::IntoIter;
use term_text::{Alignment, CowStr, Line, Span, Style};

/// 256 blanks, of which pads are borrowed. An escape begins each row, since blanks behind a broken row are skipped.
const BLANKS: &str = "\
\x20                                                               \
\x20                                                               \
\x20                                                               \
\x20                                                               ";

/// The lines of a row whose cells are in this style.
pub(crate) fn row_lines<'a>(
    alloc: Global,
    border: Style,
    style: Style,
    columns: &[Column],
    cells: &[Line<'a>],
) -> Result<Vec<Line<'a>>, AllocError>
    requires { RowFits columns.now cells.now }
    ensures { IfOk result (λ lines. lines.items ≡ row_lines border style columns.now cells.now) }
{
    let parts = row_parts(alloc, columns, cells)?;
    let lines = begun(alloc, border, columns.len(), height_of(parts.as_slice()))?;
    with_cells(alloc, border, style, columns, parts, lines)
}

/// The rows of each column's cell.
#[tactic(auto, unfolding(crate::specs::Picture::row_parts))]
fn row_parts<'a>(
    alloc: Global,
    columns: &[Column],
    cells: &[Line<'a>],
) -> Result<Vec<CellRows<'a>>, AllocError>
    requires { RowFits columns.now cells.now }
    ensures { IfOk result (λ parts. parts.items ≡ row_parts columns.now cells.now) }
{
    let mut parts = Vec::with_capacity(alloc, columns.len())?;
    for at in 0..columns.len() {
        parts.push(rows_at(alloc, columns[at].width, cells, at)?)?;
    }
    Ok(parts)
}

/// The rows of the cell at a place in a column of this width; a cell that is missing is empty.
fn rows_at<'a>(
    alloc: Global,
    width: usize,
    cells: &[Line<'a>],
    at: usize,
) -> Result<CellRows<'a>, AllocError>
    requires { NoneWider width (graphs (first_cell (drop at cells.now))) }
    ensures { IfOk result (λ rows. rows ≡ cell_rows width (first_cell (drop at cells.now))) }
{
    if at < cells.len() {
        return cell_rows(alloc, width, &cells[at]);
    }
    cell_rows(alloc, width, &Line::new(alloc))
}

/// A row is as high as its highest cell, and one line at least.
#[tactic(auto, unfolding(crate::specs::Picture::height_of))]
fn height_of(parts: &[CellRows]) -> usize
    ensures { result ≡ height_of parts.now }
{
    let mut height = 1;
    for rows in parts {
        height = height.max(rows.parts.len());
    }
    height
}

/// So many lines that begin with a border, and have room for cells in so many columns.
fn begun<'a>(
    alloc: Global,
    border: Style,
    columns: usize,
    height: usize,
) -> Result<Vec<Line<'a>>, AllocError>
    ensures { IfOk result (λ lines. lines.items ≡ replicate height (record { spans = bar border ∷ []; style = no_style })) }
{
    // A cell is mostly a span between two pads, with a border behind it.
    let spans = columns.saturating_mul(4).saturating_add(1);
    let mut lines = Vec::with_capacity(alloc, height)?;
    for i in 0..height {
        let mut line = Line::with_capacity(alloc, spans)?;
        push_bar(&mut line, border)?;
        lines.push(line)?;
    }
    Ok(lines)
}

/// The lines with the rows of each column's cell behind them.
#[tactic(auto, unfolding(crate::specs::Picture::with_cells))]
fn with_cells<'a>(
    alloc: Global,
    border: Style,
    style: Style,
    columns: &[Column],
    parts: Vec<CellRows<'a>>,
    lines: Vec<Line<'a>>,
) -> Result<Vec<Line<'a>>, AllocError>
    ensures { IfOk result (λ longer. longer.items ≡ with_cells border style columns.now parts.entry.items lines.entry.items) }
{
    let mut longer = lines;
    let mut rest = parts.into_iter();
    for column in columns {
        let Some(rows) = rest.next() else {
            return Ok(longer);
        };
        longer = with_parts(alloc, border, style, *column, longer, rows)?;
    }
    Ok(longer)
}

/// The lines with a cell's rows behind them, and blanks where it has no more.
#[tactic(auto, unfolding(crate::specs::Picture::with_parts))]
fn with_parts<'a>(
    alloc: Global,
    border: Style,
    style: Style,
    column: Column,
    lines: Vec<Line<'a>>,
    rows: CellRows<'a>,
) -> Result<Vec<Line<'a>>, AllocError>
    ensures { IfOk result (λ longer. longer.items ≡ with_parts border style column lines.entry.items rows.entry) }
{
    let mut longer = Vec::with_capacity(alloc, lines.len())?;
    let mut rest = rows.parts.into_iter();
    for line in lines {
        let spans = first_part(alloc, &mut rest);
        longer.push(with_part(alloc, border, style, column, line, spans)?)?;
    }
    Ok(longer)
}

/// Takes the first of a cell's rows that are left; behind the last they are empty.
fn first_part<'a>(alloc: Global, rest: &mut IntoIter<Part<'a>>) -> Vec<Span<'a>>
    ensures first { result.items ≡ first_part (rest.old.rest.items) }
    ensures others { rest.new.rest.items ≡ other_parts (rest.old.rest.items) }
{
    match rest.next() {
        Some(part) => part.spans,
        None => Vec::new(alloc),
    }
}

/// The line with a cell's part behind it: a pad, its spans, a pad, and a border.
fn with_part<'a>(
    alloc: Global,
    border: Style,
    style: Style,
    column: Column,
    line: Line<'a>,
    spans: Vec<Span<'a>>,
) -> Result<Line<'a>, AllocError>
    ensures { IfOk result (λ longer. longer ≡ lengthened line.entry (part border style column spans.entry.items)) }
{
    let mut longer = line;
    let room = column.width.saturating_sub(spans_width(spans.as_slice())?);
    let left = left_room(column.alignment, room);
    push_pad(alloc, &mut longer, left, style)?;
    push_spans(&mut longer, style, spans)?;
    push_pad(alloc, &mut longer, room - left, style)?;
    push_bar(&mut longer, border)?;
    Ok(longer)
}

/// Adds a cell's spans in its style.
#[tactic(auto, unfolding(crate::specs::Picture::cell_spans))]
fn push_spans<'a>(line: &mut Line<'a>, style: Style, spans: Vec<Span<'a>>) -> Result<(), AllocError>
    ensures { OnOk result (line.new ≡ lengthened line.old (cell_spans style spans.entry.items)) }
{
    for span in spans {
        let patched = span.style().patch(style);
        line.push_span(span.with_style(patched))?;
    }
    Ok(())
}

/// Adds so many blanks, and one more, in a style.
fn push_pad(alloc: Global, line: &mut Line, room: usize, style: Style) -> Result<(), AllocError>
    ensures { OnOk result (line.new ≡ lengthened line.old (pad room style ∷ [])) }
{
    line.push_span(pad(alloc, room, style)?)
}

/// The columns of a span; want of memory where no `usize` counts them.
fn span_width(span: &Span) -> Result<usize, AllocError>
    ensures { IfOk result (λ width. width ≡ span_width span.now) }
{
    match span.width() {
        usize::MAX => Err(AllocError),
        width => Ok(width),
    }
}

/// The columns of spans; want of memory where no `usize` counts them.
fn spans_width(spans: &[Span]) -> Result<usize, AllocError>
    ensures { IfOk result (λ width. width ≡ spans_width spans.now) }
{
    let mut sum = 0usize;
    for span in spans {
        match sum.checked_add(span_width(span)?) {
            Some(more) => sum = more,
            None => return Err(AllocError),
        }
    }
    Ok(sum)
}

/// The blanks at the left of a cell that has so much room to spare.
fn left_room(alignment: Alignment, room: usize) -> usize
    ensures value { result ≡ left_room alignment room }
    ensures within { result ≤ room }
{
    match alignment {
        Alignment::Right => room,
        Alignment::Center => room / 2,
        Alignment::None | Alignment::Left => 0,
    }
}

/// So many blanks, and one more, in a style.
fn pad<'a>(alloc: Global, room: usize, style: Style) -> Result<Span<'a>, AllocError>
    ensures { IfOk result (λ span. span ≡ pad room style) }
{
    Ok(Span::styled(blanks(alloc, room)?, style))
}

/// So many blanks, and one more; they are borrowed unless there are many.
fn blanks<'a>(alloc: Global, room: usize) -> Result<CowStr<'a>, AllocError>
    ensures { IfOk result (λ text. text ≡ replicate (room + 1) 32) }
{
    if room < BLANKS.len() {
        return Ok(CowStr::borrowed(&BLANKS[..room + 1]));
    }
    let mut text = String::with_capacity(alloc, room.saturating_add(1))?;
    for i in 0..room {
        text.push(' ')?;
    }
    text.push(' ')?;
    Ok(CowStr::owned(text))
}
