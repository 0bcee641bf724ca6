//! Laws of inlines.

ghost use Rattle.std.specs.Prelude.{◌≡◌, ℕ, List, true};
ghost use Rattle.md_tree.specs.declared.place.Holds.TheVariants as level;
ghost use Rattle.md_tree.specs.Good.{good_at, level_of};
ghost use Rattle.md_runs.specs.Levels.{groups_within, styles_within};
ghost use Rattle.md_inline.specs.Inlines.{inlines};

/// The inlines of every source are good among inlines: among them no link stands in a link.
pub fn inlines_are_good()
    ensures { (bodies : List (List ℕ)) → good_at (level_of level.Inlines) (inlines bodies) ≡ true }
{}

/// Links and images stand at most 32 deep in one another; a link whose text is its destination, as one in angle brackets
/// is, may stand in the innermost of them and is not counted.
pub fn groups_are_few_deep()
    ensures { (bodies : List (List ℕ)) → groups_within 32 (inlines bodies) ≡ true }
{}

/// A styled inline stands in fewer than 32 links, images and styled inlines; strong holding emphasis is two of these.
pub fn styles_are_few_deep()
    ensures { (bodies : List (List ℕ)) → styles_within 32 (inlines bodies) ≡ true }
{}
