//! What programs over a source and a sink share: how a run ends, a whole source read, a whole output written, the
//! numbers in their words, and the edges of their processes.
#![tactic(auto)]

mod numbers;
mod process;
mod status;
mod transfer;

pub use numbers::number;
pub use process::{ended, words};
pub use status::Status;
pub use transfer::{read_all, write_all};

#[cfg(test)]
mod tests;
