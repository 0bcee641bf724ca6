//! The words of the command line: what a run is asked to show.
#![tactic(auto)]

mod job;

pub use job::{Job, job_of_words};

#[cfg(test)]
mod tests;
