//! Events and trees of Markdown.
#![tactic(auto)]

mod check;
mod event;
pub mod laws;
mod lists;
mod place;

pub use check::well_formed;
pub use event::{BlockQuoteKind, CodeBlockKind, Event, HeadingLevel, Tag, TagEnd};
pub use lists::{Alignments, Attrs, Classes};
