//! Laws of trees and their events.

ghost use Rattle.std.specs.Prelude.{◌≡◌, List, Some, true};
ghost use Rattle.md_tree.specs.declared.event.Event.{Event};
ghost use Rattle.md_tree.specs.Tree.{Nodes, events};
ghost use Rattle.md_tree.specs.Good.{good};
ghost use Rattle.md_tree.specs.Parse.{tree_of};

/// A good tree is the tree of its events.
pub fn tree_of_events()
    ensures { (t : Nodes) → good t ≡ true → tree_of (events t) ≡ Some t }
{}

/// The tree of some events is good, and has these events.
pub fn events_of_tree()
    ensures { (es : List Event) (t : Nodes) → tree_of es ≡ Some t → (good t ≡ true) × (events t ≡ es) }
{}

/// Two good trees with equal events are equal.
pub fn same_events()
    ensures { (t u : Nodes) → good t ≡ true → good u ≡ true → events t ≡ events u → t ≡ u }
{}
