//! Text with ANSI colours, as styled lines.
#![tactic(auto)]

mod code;
mod error;
mod item;
mod items;
pub mod laws;
mod line;
mod number;
mod owned;
mod sequence;
#[cfg(test)]
mod tests;
mod text;

pub use code::AnsiCode;
pub use error::Error;
pub use item::Item;
pub use line::style_after_line;
pub use text::{IntoText, bytes_into_text, bytes_to_text, line_into_text};
