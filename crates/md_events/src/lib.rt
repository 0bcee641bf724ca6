//! Events of Markdown: a text is read as the events of its tree.
#![tactic(auto)]

mod blocks;
mod code_blocks;
mod definitions;
mod heading;
mod html_blocks;
mod kept;
pub mod laws;
mod metadata;
mod paragraph;
mod reader;
mod tables;

pub use md_tree::{
    Alignments, Attrs, BlockQuoteKind, Classes, CodeBlockKind, Event, HeadingLevel, Tag, TagEnd,
    well_formed,
};
pub use reader::read;
