//! The picture of a table: its lines, within a width.
#![tactic(auto)]

mod border;
mod cell;
mod columns;
pub mod laws;
mod row;
mod styles;
mod table;

pub use styles::Styles;
pub use table::{Row, Table};
