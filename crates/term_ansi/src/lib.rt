//! Buffers of cells printed as text with SGR sequences, in one form that is read back.
#![tactic(auto)]

mod error;
pub mod laws;
mod look;
mod parted;
mod pen;
mod print;
mod sequence;
mod shown;
mod spread;
#[cfg(test)]
mod tests;

pub use error::PrintError;
pub use parted::separable;
pub use print::print_ansi;
