//! Inlines of a Markdown source from its leaves: brackets, runs and texts.
#![tactic(auto)]

mod alone;
mod code;
mod element;
mod pair;
mod part;
mod partners;
mod pen;
mod source;
mod write;

pub use source::Source;
pub use write::write_leaves;
