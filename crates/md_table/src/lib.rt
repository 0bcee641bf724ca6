//! The style sheet that a Markdown text is drawn with, and tables that are built cell by cell.
#![tactic(auto)]

mod alert;
mod answers;
mod builder;
mod custom;
mod defaults;
mod sheet;

pub use alert::AlertKind;
pub use builder::{RowDividers, TableBuilder};
pub use custom::CustomSheet;
pub use defaults::DefaultStyleSheet;
pub use sheet::StyleSheet;
