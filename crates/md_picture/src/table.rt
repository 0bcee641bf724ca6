// Tables and their pictures.
ghost use Rattle.std.specs.Prelude.{◌≡◌, ◌<◌, ◌++◌, ◌∷◌, [], IfOk, OnOk, OnErr, length};
ghost use Rattle.md_picture.specs.declared.border.Edge.TheVariants.{Middle};
ghost use Rattle.md_picture.specs.Cells.{empty_cell};
ghost use Rattle.md_picture.specs.Fits.{RowFits, RowsFit};
ghost use Rattle.md_picture.specs.Picture.{TableView, body_lines, border_line, divider, lines_of, picture, row_lines, table_columns};

use crate::border::{Edge, border_line};
use crate::columns::{Column, bounds_of, columns_of, widths_of};
use crate::row::row_lines;
use crate::styles::Styles;
use std::alloc::{AllocError, Global};
use std::marker::Model;
use term_text::{Alignment, Line};

/// The cells of a row, each a line of spans.
#[derive(Drop)]
pub struct Row<'a> {
    cells: Vec<Line<'a>>,
}

impl<'a> Model for Row<'a> {
    ghost use Rattle.std.specs.Prelude.{List};
    ghost use Rattle.term_text.specs.Text.{LineView};

    ghost Value = { List LineView };

    ghost view = { λ row. row.cells.items };
}

impl<'a> Row<'a> {
    /// No cells. It takes no memory.
    pub fn new(alloc: Global) -> Row<'a>
        ensures { result ≡ [] }
    {
        Row {
            cells: Vec::new(alloc),
        }
    }

    /// Moves a cell to the end, and it is empty then. After want of memory both are as before.
    pub fn append(&mut self, cell: &mut Line<'a>) -> Result<(), AllocError>
        ensures ok { OnOk result (self.new ≡ self.old ++ cell.old ∷ []) }
        ensures emptied { OnOk result (cell.new ≡ empty_cell) }
        ensures err { OnErr result (self.new ≡ self.old) }
        ensures kept { OnErr result (cell.new ≡ cell.old) }
    {
        self.cells.reserve(1)?;
        let alloc = *self.cells.allocator();
        self.cells
            .push_reserved(std::mem::replace(cell, Line::new(alloc)));
        Ok(())
    }

    /// The cells.
    pub fn cells(&self) -> &[Line<'a>]
        ensures { result.now ≡ self.now }
    {
        self.cells.as_slice()
    }
}

/// A table: a header and rows, and the sides that its columns keep to.
#[derive(Drop)]
pub struct Table<'a> {
    alignments: Vec<Alignment>,
    header: Row<'a>,
    rows: Vec<Row<'a>>,
}

impl<'a> Model for Table<'a> {
    ghost use Rattle.md_picture.specs.Picture.{TableView};

    ghost Value = { TableView };

    ghost view = { λ table. record { alignments = table.alignments.items; header = table.header; rows = table.rows.items } };
}

impl<'a> Table<'a> {
    /// A table with these alignments, without rows. It takes no memory.
    pub fn new(alloc: Global, alignments: Vec<Alignment>) -> Table<'a>
        ensures { result ≡ record { alignments = alignments.items; header = []; rows = [] } }
    {
        Table {
            alignments,
            header: Row::new(alloc),
            rows: Vec::new(alloc),
        }
    }

    /// Sets the header, in place of an earlier one.
    pub fn set_header(&mut self, header: Row<'a>)
        ensures { self.new ≡ record self.old { header = header.entry } }
    {
        let _ = std::mem::replace(&mut self.header, header);
    }

    /// Moves a row to the end, and it is empty then. After want of memory both are as before.
    pub fn append(&mut self, row: &mut Row<'a>) -> Result<(), AllocError>
        ensures ok { OnOk result (self.new ≡ record self.old { rows = self.old.rows ++ row.old ∷ [] }) }
        ensures emptied { OnOk result (row.new ≡ []) }
        ensures err { OnErr result (self.new ≡ self.old) }
        ensures kept { OnErr result (row.new ≡ row.old) }
    {
        self.rows.reserve(1)?;
        let alloc = *self.rows.allocator();
        self.rows
            .push_reserved(std::mem::replace(row, Row::new(alloc)));
        Ok(())
    }

    /// The lines of the table's picture, in a width of so many columns of cells if one is set, with a border line
    /// between two rows if dividers are shown.
    pub fn picture(
        &self,
        alloc: Global,
        styles: Styles,
        width: Option<usize>,
        dividers: bool,
    ) -> Result<Vec<Line<'a>>, AllocError>
        ensures { IfOk result (λ lines. lines.items ≡ picture styles width dividers self.now) }
    {
        let columns = self.columns(alloc, width)?;
        if columns.is_empty() {
            return Ok(Vec::new(alloc));
        }
        lines_of(
            alloc,
            styles,
            dividers,
            columns.as_slice(),
            &self.header,
            self.rows.as_slice(),
        )
    }

    /// The table's columns, in a width of the whole if one is set.
    fn columns(&self, alloc: Global, width: Option<usize>) -> Result<Vec<Column>, AllocError>
        ensures { IfOk result (λ columns. columns.items ≡ table_columns width self.now) }
    {
        let bounds = bounds_of(
            alloc,
            self.alignments.len(),
            &self.header,
            self.rows.as_slice(),
        )?;
        let widths = widths_of(alloc, width, bounds.as_slice())?;
        columns_of(alloc, widths.as_slice(), self.alignments.as_slice())
    }
}

/// The lines of a header and rows in these columns, of which there is one at least.
fn lines_of<'a>(
    alloc: Global,
    styles: Styles,
    dividers: bool,
    columns: &[Column],
    header: &Row<'a>,
    rows: &[Row<'a>],
) -> Result<Vec<Line<'a>>, AllocError>
    requires some { 0 < length columns.now }
    requires header_fits { RowFits columns.now header.now }
    requires rows_fit { RowsFit columns.now rows.now }
    ensures { IfOk result (λ lines. lines.items ≡ lines_of styles dividers columns.now header.now rows.now) }
{
    let mut lines = Vec::new(alloc);
    lines.push(border_line(alloc, styles.border, Edge::Top, columns)?)?;
    let mut first = row_lines(alloc, styles.border, styles.header, columns, header.cells())?;
    lines.append(&mut first)?;
    lines.push(border_line(alloc, styles.border, Edge::Middle, columns)?)?;
    push_body(alloc, &mut lines, styles, dividers, columns, rows)?;
    lines.push(border_line(alloc, styles.border, Edge::Bottom, columns)?)?;
    Ok(lines)
}

/// Adds the lines of rows.
#[tactic(auto, unfolding(crate::specs::Picture::body_lines))]
fn push_body<'a>(
    alloc: Global,
    lines: &mut Vec<Line<'a>>,
    styles: Styles,
    dividers: bool,
    columns: &[Column],
    rows: &[Row<'a>],
) -> Result<(), AllocError>
    requires some { 0 < length columns.now }
    requires rows_fit { RowsFit columns.now rows.now }
    ensures { OnOk result (lines.new.items ≡ lines.old.items ++ body_lines styles dividers columns.now rows.now) }
{
    for at in 0..rows.len() {
        push_row(alloc, lines, styles, columns, &rows[at])?;
        push_divider(alloc, lines, styles, dividers, columns, &rows[at + 1..])?;
    }
    Ok(())
}

/// Adds the lines of a row.
fn push_row<'a>(
    alloc: Global,
    lines: &mut Vec<Line<'a>>,
    styles: Styles,
    columns: &[Column],
    row: &Row<'a>,
) -> Result<(), AllocError>
    requires { RowFits columns.now row.now }
    ensures { OnOk result (lines.new.items ≡ lines.old.items ++ row_lines styles.border styles.cell columns.now row.now) }
{
    let mut more = row_lines(alloc, styles.border, styles.cell, columns, row.cells())?;
    lines.append(&mut more)?;
    Ok(())
}

/// Adds a border line if dividers are shown and more rows come.
fn push_divider<'a>(
    alloc: Global,
    lines: &mut Vec<Line<'a>>,
    styles: Styles,
    dividers: bool,
    columns: &[Column],
    rows: &[Row<'a>],
) -> Result<(), AllocError>
    requires { 0 < length columns.now }
    ensures { OnOk result (lines.new.items ≡ lines.old.items ++ divider dividers (border_line styles.border Middle columns.now) rows.now) }
{
    if dividers && !rows.is_empty() {
        lines.push(border_line(alloc, styles.border, Edge::Middle, columns)?)?;
    }
    Ok(())
}
