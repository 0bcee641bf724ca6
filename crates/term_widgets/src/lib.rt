//! Pages and widgets: texts wrapped at a width, blocks, paragraphs and the mascot of Ratatui, drawn into a buffer.
//!
//! A [`Page`] keeps its text. Its rows are the wraps of the text's lines, in order, and a drawing
//! shows some of them, from any row on. A [`Paragraph`] is a page in a [`Block`].
#![tactic(auto)]

mod block;
mod cells;
pub mod laws;
mod lines;
mod mascot;
#[cfg(test)]
mod mascot_tests;
mod page;
mod page_rows;
mod paragraph;
mod picture;
mod row_place;
#[cfg(test)]
mod tests;
#[cfg(test)]
mod widget_tests;

pub use block::Block;
pub use mascot::{MascotEyeColor, RatatuiMascot};
pub use page::Page;
pub use paragraph::Paragraph;
