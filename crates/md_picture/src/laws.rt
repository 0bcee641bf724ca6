//! Laws of pictures.
ghost use Rattle.std.specs.Prelude.{◌≡◌, ℕ, ◌<◌, ◌≤◌, Bool, Option, Some, List, ◌∷◌, length};
ghost use Rattle.term_text.specs.Graph.{graphs};
ghost use Rattle.term_text.specs.Style.{no_style};
ghost use Rattle.term_text.specs.Text.{SpanView, LineView};
ghost use Rattle.term_text.specs.Wrap.{NoneWider, Thinned};
ghost use Rattle.term_text.specs.declared.style.Style.{Style};
ghost use Rattle.md_picture.specs.declared.columns.Column.{Column};
ghost use Rattle.md_picture.specs.declared.styles.Styles.{Styles};
ghost use Rattle.md_picture.specs.Fits.{RowsFit};
ghost use Rattle.md_picture.specs.Kept.{parts_graphs, restyled};
ghost use Rattle.md_picture.specs.Least.{NoLineWider, least_width};
ghost use Rattle.md_picture.specs.Picture.{TableView, height_of, picture, row_lines, row_parts, table_columns};
ghost use Rattle.md_picture.specs.Shown.{IsGreatest, ShowsCells, lines_at, row_cells, row_counts, row_style};
ghost use Rattle.md_picture.specs.Widths.{AllAsWide, picture_width};

/// All lines of a picture are as wide as its columns, a blank at either side of each, and the borders.
pub fn lines_are_equally_wide()
    ensures { (styles : Styles) (width : Option ℕ) (dividers : Bool) (table : TableView)
        → AllAsWide (picture_width (table_columns width table)) (picture styles width dividers table) }
{}

/// No grapheme of a table's cell is wider than its column.
pub fn cells_fit_their_columns()
    ensures { (width : Option ℕ) (table : TableView) → RowsFit (table_columns width table) (table.header ∷ table.rows) }
{}

/// The rows of a cell in its column, joined, are its visible graphemes without some blanks, each in its style patched by
/// the style of cells.
pub fn parts_are_the_graphemes_without_blanks()
    ensures { (style : Style) (width : ℕ) (cell : LineView) → cell.style ≡ no_style → NoneWider width (graphs cell)
        → Thinned (restyled style (graphs cell)) (parts_graphs style width cell) }
{}

/// Where a width is set that suffices for the least widths of the columns, no line of the picture is wider.
pub fn a_picture_fits_where_the_least_widths_do()
    ensures { (styles : Styles) (width : ℕ) (dividers : Bool) (table : TableView) → least_width table ≤ width
        → NoLineWider width (picture styles (Some width) dividers table) }
{}

/// A row of a picture has as many lines as its highest cell has rows, and one at least.
pub fn a_row_is_as_high_as_its_highest_cell()
    ensures lines { (border style : Style) (columns : List Column) (cells : List LineView)
        → IsGreatest (length (row_lines border style columns cells)) (row_counts (row_parts columns cells)) }
    ensures counted { (parts : List (List (List SpanView))) → IsGreatest (height_of parts) (row_counts parts) }
{}

/// The lines of a picture at a row's place are that row's lines.
pub fn rows_stand_at_their_places()
    ensures { (styles : Styles) (width : Option ℕ) (dividers : Bool) (table : TableView) (at : ℕ)
        → at ≤ length table.rows → 0 < length (table_columns width table)
        → lines_at dividers (table_columns width table) table at (picture styles width dividers table)
        ≡ row_lines styles.border (row_style styles at) (table_columns width table) (row_cells table at) }
{}

/// The lines of a picture at a row's place show each of its cells in its column: its visible graphemes without some
/// blanks, each in its style patched by the style of the header or of cells.
pub fn a_picture_keeps_its_cells()
    ensures { (styles : Styles) (width : Option ℕ) (dividers : Bool) (table : TableView) (at : ℕ)
        → at ≤ length table.rows
        → ShowsCells (row_style styles at) 1 (table_columns width table) (row_cells table at)
        (lines_at dividers (table_columns width table) table at (picture styles width dividers table)) }
{}
