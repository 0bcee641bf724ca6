// Laws over the definitions.
ghost use Rattle.std.specs.Prelude.{◌≡◌, ℕ, ◌<◌, ◌≤◌, ◌∷◌, [], List, map, take, chars, true};
ghost use Rattle.unicode_segmentation.specs.Grapheme.{graphemes};
ghost use Rattle.term_text.specs.declared.style.Style.{Style};
ghost use Rattle.term_text.specs.Graph.{Grapheme, columns, visible};
ghost use Rattle.term_text.specs.Lists.{joined};
ghost use Rattle.term_text.specs.Plain.{IsPlain, IsPrintable, plain_grapheme, byte_grapheme};
ghost use Rattle.term_text.specs.Wrap.{NoneWider, AllNarrow, Thinned, wrap, cut_of, rest_of, unless_empty};

/// A row is at most as wide as the page.
pub fn rows_are_narrow()
    ensures { (w : ℕ) (gs : List Grapheme) → NoneWider w gs → AllNarrow w (wrap w gs) }
{}

/// The rows joined are the graphemes without some blanks.
pub fn rows_are_the_graphemes_without_blanks()
    ensures { (w : ℕ) (gs : List Grapheme) → NoneWider w gs → Thinned gs (joined (wrap w gs)) }
{}

/// What fits is one row, and else the first row is cut off.
pub fn wrap_unfolds()
    ensures fits { (w : ℕ) (gs : List Grapheme) → columns gs ≤ w → wrap w gs ≡ gs ∷ [] }
    ensures cut { (w : ℕ) (gs : List Grapheme) → w < columns gs → NoneWider w gs
        → wrap w gs ≡ take (cut_of w gs) gs ∷ unless_empty (rest_of w gs) (wrap w (rest_of w gs)) }
{}

/// The visible graphemes of a text of plain characters are its characters, each one or two columns wide and blank only as
/// a space; those of printable ASCII are its bytes. Plain of one column are printable ASCII, Latin, Greek and Cyrillic
/// characters, punctuation, currencies, arrows, operators, lines and blocks, in the ranges of the definition; of two
/// columns ideographs, kana and full-width forms.
pub fn plain_texts_are_single_characters()
    ensures plain { (style : Style) (text : List ℕ) → IsPlain text → visible style (graphemes true text) ≡ map (plain_grapheme style) (chars text) }
    ensures printable { (style : Style) (text : List ℕ) → IsPrintable text → visible style (graphemes true text) ≡ map (byte_grapheme style) text }
{}
