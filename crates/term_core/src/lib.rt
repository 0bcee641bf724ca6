//! Styles, texts, graphemes, rectangles, cells and buffers of a terminal.
//!
//! A text is cut into graphemes and rows by `term_text`, whose items stand here too.
//! A buffer keeps the cells of an area. Its contracts tell the cell at each place.
#![tactic(auto)]

mod buffer;
mod buffer_rows;
mod caption;
mod cell;
mod paint;
mod rect;
#[cfg(test)]
mod tests;
mod visited;
mod widget;

pub use buffer::Buffer;
pub use buffer_rows::BufferRows;
pub use caption::Caption;
pub use cell::Cell;
pub use paint::Paint;
pub use rect::Rect;
pub use term_text::{
    Alignment, Color, Counted, CowStr, Cutter, Graph, Graphemes, Ledger, Line, LineGraphemes,
    Modifier, NoSteps, Row, RowGraphemes, RowIndex, Span, Stack, Steps, Style, Text, laws,
};
pub use visited::VisitedCells;
pub use widget::{Widget, WidgetError};
