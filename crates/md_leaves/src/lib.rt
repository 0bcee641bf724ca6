//! Leaves: what the source of inlines is cut into, before brackets and runs are paired.
#![tactic(auto)]

mod angle;
mod bytes;
mod closer;
mod code;
mod cut;
mod leaf;
mod math;
mod parens;
mod rules;
mod runs;
mod ticks;

pub use cut::cut_leaves;
pub use leaf::{Kind, Leaf, Lone, Mark, Target};
