//! The inlines of a Markdown source.
#![tactic(auto)]

pub mod laws;
mod write;

pub use write::write_inlines;
