//! Styles, texts, graphemes and the rows that a line is cut into.
#![tactic(auto)]

mod alignment;
mod cow_str;
mod cutter;
mod grapheme;
mod graphs;
pub mod laws;
mod line_ends;
mod line_graphs;
mod pieces;
mod plain;
mod printable;
mod row_index;
mod stack;
mod steps;
mod style;
#[cfg(test)]
mod tests;
mod text;
mod walk;
mod widths;

pub use alignment::Alignment;
pub use cow_str::CowStr;
pub use cutter::{Cutter, Row, RowGraphemes};
pub use grapheme::Graph;
pub use graphs::Graphemes;
pub use line_ends::{end_length, first_end, next_line, next_line_of_bytes};
pub use line_graphs::LineGraphemes;
pub use row_index::RowIndex;
pub use stack::Stack;
pub use steps::{Counted, Ledger, NoSteps, Steps};
pub use style::{Color, Modifier, Style};
pub use text::{Line, Span, Text};
pub use widths::Extent;
