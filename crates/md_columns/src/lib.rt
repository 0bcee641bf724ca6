//! Fair widths: how the columns of a table share the width that there is.
#![tactic(auto)]

mod bounds;
pub mod laws;
mod share;

pub use bounds::Bounds;
pub use share::fair;
