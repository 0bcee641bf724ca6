//! A view of the page of a Markdown text in its colours, printed by a program over any source and any sink.
#![tactic(auto)]

mod output;
mod process;
mod program;
mod words;

pub use process::ansi_process;
pub use program::run_ansi;
pub use programs::Status;

#[cfg(test)]
mod tests;
