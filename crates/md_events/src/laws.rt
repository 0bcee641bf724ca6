//! Laws of the reader.

ghost use Rattle.std.specs.Prelude.{◌≡◌, ◌<◌, ◌^◌, ℕ, Bool, List, length, true};
ghost use Rattle.md_tree.specs.Good.{good};
ghost use Rattle.md_tree.specs.Tree.{Nodes};
ghost use Rattle.md_lines.specs.Lines.{LineText};
ghost use Rattle.md_events.specs.Blocks.{blocks_after, tree};
ghost use Rattle.md_events.specs.Taken.{TakesAll};

pub use md_tree::laws::{events_of_tree, same_events, tree_of_events};

/// The tree of every text is good, whose length in bytes fits a `usize`.
pub fn tree_is_good()
    ensures { (text : List ℕ) → length text < 2 ^ 64 → good (tree text) ≡ true }
{}

/// No line is lost: the blocks of lines take all of them, in order and each once, but for empty lines between blocks.
/// What a block takes is its first line and lines that follow it.
pub fn blocks_take_all_lines()
    ensures { (nests : Bool) (read : Bool → List LineText → Nodes) (tight : Bool) (lines : List LineText)
        → TakesAll nests read tight lines (blocks_after nests read tight 0 lines) }
{}
