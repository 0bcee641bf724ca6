//! Tables by example: how columns share a width, pictures, the builder and the style sheet.
//!
//! They stand apart from the crates that they call, since a crate with tests of its own is proved twice.
#![tactic(auto)]

#[cfg(test)]
mod builder;
#[cfg(test)]
mod columns;
#[cfg(test)]
mod pictures;
