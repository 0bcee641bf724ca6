//! Long texts of marks that find no partner, and of lines that begin many blocks or none; and a feed of a long line.
//!
//! No contract tells of time: a memo of the reader that is never filled, or a place that does not move, is proved as well.
//! Each text has hundreds of thousands of parts, so that work on each pair of them would be some 100 thousand million steps,
//! which is about the minute that a test may take, or more.
#![tactic(auto)]

#[cfg(test)]
mod blocks;
#[cfg(test)]
mod events;
#[cfg(test)]
mod feeds;
#[cfg(test)]
mod inlines;
#[cfg(test)]
mod texts;
