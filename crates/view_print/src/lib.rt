//! A buffer printed as plain text.
#![tactic(auto)]

mod print;
#[cfg(test)]
mod tests;

pub use print::print_view;
