//! The rules of Markdown's blocks: what a line begins.
#![tactic(auto)]

mod attributes;
mod cell;
mod code;
mod definitions;
mod delimiter;
mod entry;
mod fence;
mod footnote;
mod heading;
mod html;
mod hung;
mod item;
pub mod laws;
mod list;
mod metadata;
mod quote;
mod rows;
mod rule;
mod shallow;
mod start;
mod table;
mod texts;
mod thematic_break;

pub use cell::Cells;
pub use code::{hanging, text_from};
pub use definitions::{description_lines, starts_definitions, title_of};
pub use delimiter::alignments;
pub use entry::{Entry, entries_more, next_entry};
pub use fence::Fence;
pub use footnote::{footnote_label, footnote_lines};
pub use heading::{Heading, heading_at};
pub use html::{HtmlEnd, html_end};
pub use item::{Marker, item_lines, marker_of, task_of};
pub use list::{is_loose, list_more, next_item};
pub use metadata::metadata_in;
pub use quote::{first_alert, quoted, quotes, without_kind};
pub use rows::row_count;
pub use rule::Rule;
pub use start::{BlockStart, Items, block_start, interrupts};
pub use table::starts_table;
