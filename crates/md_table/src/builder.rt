// Tables that are built cell by cell.
ghost use Rattle.std.specs.Prelude.{◌≡◌, ◌++◌, ◌∷◌, [], IfOk, OnOk, OnErr};
ghost use Rattle.std.specs.List.{All};
ghost use Rattle.md_picture.specs.Cells.{empty_cell};
ghost use Rattle.md_picture.specs.Picture.{picture};
ghost use Rattle.md_table.specs.Builder.{AllUnstyled, are_shown, table_styles, with_span};

use crate::sheet::StyleSheet;
use md_picture::{Row, Styles, Table};
use std::alloc::{AllocError, Global};
use std::marker::Model;
use term_text::{Alignment, Line, Span};

/// Whether border lines stand between the rows of a table.
#[derive(Clone, Copy, Debug, PartialEq, Eq)]
pub enum RowDividers {
    Hidden,
    Shown,
}

impl RowDividers {
    fn are_shown(self) -> bool
        ensures { result ≡ are_shown self }
    {
        match self {
            RowDividers::Hidden => false,
            RowDividers::Shown => true,
        }
    }
}

impl From<bool> for RowDividers {
    ghost use Rattle.std.specs.Prelude.{◌≡◌};
    ghost use Rattle.md_table.specs.Builder.{dividers_of};

    ghost from_gives = { λ shown dividers. dividers ≡ dividers_of shown };

    fn from(shown: bool) -> RowDividers {
        if shown {
            RowDividers::Shown
        } else {
            RowDividers::Hidden
        }
    }
}

/// A table that is built cell by cell: spans make a cell, cells make a row, and a row is the header or one of the
/// rows. A cell or row that is not finished is no part of the table.
///
/// After want of memory a builder is as before the call.
#[derive(Drop)]
pub struct TableBuilder<'a> {
    alloc: Global,
    table: Table<'a>,
    row: Row<'a>,
    cell: Line<'a>,
}

impl<'a> Model for TableBuilder<'a> {
    ghost use Rattle.md_table.specs.Builder.{BuilderView, Unstyled};

    ghost Value = { BuilderView };

    ghost view = { λ builder. record { table = builder.table; row = builder.row; cell = builder.cell } };

    ghost invariant = { λ builder. Unstyled builder.table builder.row builder.cell };
}

impl<'a> TableBuilder<'a> {
    /// A table with these alignments, without cells. It takes no memory.
    pub fn new(alloc: Global, alignments: Vec<Alignment>) -> TableBuilder<'a>
        ensures { result ≡ record {
          table = record { alignments = alignments.items; header = []; rows = [] };
          row = [];
          cell = empty_cell;
        } }
    {
        TableBuilder {
            alloc,
            table: Table::new(alloc, alignments),
            row: Row::new(alloc),
            cell: Line::new(alloc),
        }
    }

    /// Empties the current cell.
    pub fn start_cell(&mut self)
        ensures { self.new ≡ record self.old { cell = empty_cell } }
    {
        let _ = std::mem::replace(&mut self.cell, Line::new(self.alloc));
    }

    /// Adds a span to the current cell, and nothing for an empty one.
    pub fn push_span(&mut self, span: Span<'a>) -> Result<(), AllocError>
        ensures ok { OnOk result (self.new ≡ record self.old { cell = with_span self.old.cell span.entry }) }
        ensures err { OnErr result (self.new ≡ self.old) }
    {
        self.cell.push_span(span)
    }

    /// Moves the current cell to the end of the current row, and the current cell is empty then.
    pub fn finish_cell(&mut self) -> Result<(), AllocError>
        ensures ok { OnOk result (self.new ≡ record self.old { row = self.old.row ++ self.old.cell ∷ []; cell = empty_cell }) }
        ensures err { OnErr result (self.new ≡ self.old) }
    {
        self.row.append(&mut self.cell)
    }

    /// Makes the current row the header in place of an earlier one, and the current row is empty then.
    pub fn finish_header(&mut self)
        ensures { self.new ≡ record self.old { table = record self.old.table { header = self.old.row }; row = [] } }
    {
        let header = std::mem::replace(&mut self.row, Row::new(self.alloc));
        self.table.set_header(header);
    }

    /// Moves the current row to the end of the rows, and the current row is empty then.
    pub fn finish_row(&mut self) -> Result<(), AllocError>
        ensures ok { OnOk result (self.new
            ≡ record self.old { table = record self.old.table { rows = self.old.table.rows ++ self.old.row ∷ [] }; row = [] }) }
        ensures err { OnErr result (self.new ≡ self.old) }
    {
        self.table.append(&mut self.row)
    }

    /// The lines of the table's picture, in a width of so many columns of cells if one is set.
    ///
    /// Each column has at least one column of cells, and its widest grapheme, even if the width is set to less.
    pub fn render<S: StyleSheet>(
        self,
        styles: &S,
        width: Option<usize>,
        row_dividers: RowDividers,
    ) -> Result<Vec<Line<'a>>, AllocError>
        ensures lines { IfOk result (λ lines. lines.items
            ≡ picture (table_styles (S.sheet styles.now)) width (are_shown row_dividers) self.entry.table) }
        ensures header_unstyled { AllUnstyled self.entry.table.header }
        ensures rows_unstyled { All (λ cells. AllUnstyled cells) self.entry.table.rows }
    {
        let styles = Styles {
            border: styles.table_border(),
            header: styles.table_header(),
            cell: styles.table_cell(),
        };
        self.table
            .picture(self.alloc, styles, width, row_dividers.are_shown())
    }
}
