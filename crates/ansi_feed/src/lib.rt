//! The last lines of ANSI text that comes in pieces, and the program that prints them plain.
#![tactic(auto)]

mod cut;
mod error;
mod feed;
pub mod laws;
mod lines;
mod pending;
mod plain;
mod process;
mod program;
mod source;
#[cfg(test)]
mod tests;

pub use error::FeedError;
pub use feed::Feed;
pub use process::plain_process;
pub use program::run_plain;
