//! The lines of styled spans that a Markdown text lays out.
#![tactic(auto)]

#[cfg(test)]
mod drawn;
mod environment;
mod error;
#[cfg(test)]
mod event_tests;
mod frame;
mod highlight;
pub mod laws;
mod machine;
mod marker;
mod options;
mod render;
#[cfg(test)]
mod table_tests;
#[cfg(test)]
mod tests;
#[cfg(test)]
mod text_tests;

pub use error::RenderError;
pub use highlight::{AnsiFence, Highlighter, NoHighlight};
pub use md_table::{AlertKind, CustomSheet, DefaultStyleSheet, StyleSheet};
pub use options::{ImageFallback, Options};
pub use render::{from_events, from_str, from_str_with_options};
