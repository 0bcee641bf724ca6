//! The reader's public calls by example, from lines to events.
//!
//! They stand apart from the crates that they call, since a crate with tests of its own is proved twice.
#![tactic(auto)]

#[cfg(test)]
mod events;
#[cfg(test)]
mod inlines;
#[cfg(test)]
mod leaves;
#[cfg(test)]
mod lines;
#[cfg(test)]
mod rules;
#[cfg(test)]
mod shown;
#[cfg(test)]
mod trees;
