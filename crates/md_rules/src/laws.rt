//! Laws of the rules.

ghost use Rattle.std.specs.Prelude.{◌≡◌, ◌<◌, Bool, List, length, false, true};
ghost use Rattle.md_lines.specs.Lines.{LineText};
ghost use Rattle.md_rules.specs.Holds.{GoesOn, IsFirst, holds};
ghost use Rattle.md_rules.specs.Starts.{block_start, interrupts, is_among, place, rule_of};
ghost use Rattle.md_rules.specs.Tables.{cells};
ghost use Rattle.md_rules.specs.declared.rule.Rule.{Rule};
ghost use Rattle.md_rules.specs.declared.start.Items.{Items};
ghost use Rattle.md_rules.specs.declared.start.Items.TheVariants.{All};

/// Each line has one cell at least.
pub fn each_line_has_a_cell()
    ensures { (line : LineText) → 0 < length (cells line) }
{}

/// What begins at a line begins by the first rule that holds there.
pub fn the_first_rule_is_taken()
    ensures { (nests : Bool) (items : Items) (line : LineText) (later : List LineText)
        → IsFirst nests items line later (block_start nests items line later) }
{}

/// A range of rules agrees with their order: where the rule by which a line begins is not of the range, and none
/// before the range holds at the line, none of the range does.
pub fn ranges_follow_the_order()
    ensures { (nests : Bool) (items : Items) (line : LineText) (later : List LineText) (first last : Rule)
        → is_among first last (rule_of (block_start nests items line later)) ≡ false
        → ((r : Rule) → place r < place first → holds nests items line later r ≡ false)
        → (r : Rule) → is_among first last r ≡ true → holds nests items line later r ≡ false }
{}

/// No rule is forgotten where a paragraph goes on: at a line that does not end it begins a paragraph, code by its indent,
/// or an item that does not end one.
pub fn what_goes_on_is_no_other_block()
    ensures { (nests : Bool) (line : LineText) (later : List LineText)
        → interrupts nests line later ≡ false → GoesOn line (block_start nests All line later) }
{}
