// The styles of a table's picture.
use term_text::Style;

/// The styles of a table's borders, and of the cells of its header and of its rows.
#[derive(Clone, Copy)]
pub struct Styles {
    pub border: Style,
    pub header: Style,
    pub cell: Style,
}
