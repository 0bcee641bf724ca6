//! Sources of bytes and sinks for them: the ends of a program, real or in memory.
#![tactic(auto)]

mod memory;
mod standard;
mod traits;

pub use memory::{MemorySink, MemorySource};
pub use standard::{StdSink, StdSource};
pub use traits::{Failed, Sink, Source};

#[cfg(test)]
mod tests;
