//! The lines of a Markdown text.
#![tactic(auto)]

mod blanks;
mod line;

pub use blanks::{is_blank, without_end_blanks};
pub use line::{Line, line_of, lines_of};
