//! Laws of layouts.

ghost use Rattle.std.specs.Prelude.{◌≡◌, List, [], ◌∷◌, true};
ghost use Rattle.md_tree.specs.declared.event.Tag.{Tag};
ghost use Rattle.md_tree.specs.Tree.{Nodes, Empty, Branch};
ghost use Rattle.md_tree.specs.Good.{good};
ghost use Rattle.md_text.specs.Look.{Look};
ghost use Rattle.term_text.specs.Text.{SpanView};
ghost use Rattle.md_text.specs.Marks.{Mark, Put, draws, begins_line};
ghost use Rattle.md_text.specs.declared.environment.Environment.{Environment};
ghost use Rattle.md_text.specs.declared.environment.Spacing.{Spacing};
ghost use Rattle.md_text.specs.Environment.{environment_after};
ghost use Rattle.md_text.specs.Laid.{then_laid};
ghost use Rattle.md_text.specs.Layout.{layout, document_layout, document_lines};
ghost use Rattle.md_text.specs.Framed.{HoldsPieces};
ghost use Rattle.md_text.specs.Pieces.{puts, document_pieces};

/// The spans that a tree's layout puts are the tree's pieces, each whole, once and in order, whether the tree is good or not.
pub fn puts_are_the_pieces()
    ensures { (look : Look) (t : Nodes) → puts (document_layout look t).marks ≡ document_pieces look t }
{}

/// The first mark of a good tree's layout, if there is one, begins a line.
pub fn first_mark_begins_a_line()
    ensures { (look : Look) (t : Nodes) → good t ≡ true → begins_line (document_layout look t).marks ≡ true }
{}

/// The lines of a good tree hold the tree's pieces: without quote marks and the blanks that indent, their spans are the
/// pieces, each whole, once and in order.
pub fn lines_hold_the_pieces()
    ensures { (look : Look) (t : Nodes) → good t ≡ true → HoldsPieces (document_lines look t) (document_pieces look t) }
{}

/// A span that is put before any line is lost: that the marks put the tree's pieces does not say yet that the lines hold
/// them.
pub fn a_put_before_any_line_is_lost()
    ensures put { (span : SpanView) (marks : List Mark) → puts (Put span ∷ marks) ≡ span ∷ puts marks }
    ensures lost { (span : SpanView) (marks : List Mark) → draws [] (Put span ∷ marks) ≡ draws [] marks }
{}

/// What follows an element is laid out in the environment from before it, and in the spacing state behind it, whatever
/// stands inside. So styles, line styles, quote marks, list depths and item widths end with their element; only a list's
/// next number is told by its items.
pub fn an_environment_ends_with_its_element()
    ensures follows { (look : Look) (env : Environment) (spacing : Spacing) (tag : Tag) (inside rest : Nodes) →
        layout look env spacing (Branch tag inside rest)
        ≡ then_laid (layout look env spacing (Branch tag inside Empty)) (λ behind. layout look (environment_after env tag) behind rest) }
    ensures kept { (env : Environment) (tag : Tag) → environment_after env tag ≡ record env { number = (environment_after env tag).number } }
{}
