//! What the definitions of ANSI text give: how lines follow one another, how sequences are written and read back, and that a
//! style that codes made holds all of the style before it.
ghost use Rattle.std.specs.Prelude.{ℕ, ◌≡◌, ◌==◌, ◌<◌, ◌^◌, not, true, List, [], ◌∷◌, ◌++◌, length, Some, None};
ghost use Rattle.std.specs.Fmt.{decimal};
ghost use Rattle.std.specs.List.{list_all};
ghost use Rattle.std.specs.Str.{IsUtf8};
ghost use Rattle.term_text.specs.LineEnds.{raw_lines, is_one_line};
ghost use Rattle.term_text.specs.Style.{patch};
ghost use Rattle.term_text.specs.declared.style.Style.{Style};
ghost use Rattle.ansi_text.specs.declared.item.Item.{Item};
ghost use Rattle.ansi_text.specs.Numbers.{digit, number, required};
ghost use Rattle.ansi_text.specs.Sequences.{Sequence, sequence};
ghost use Rattle.ansi_text.specs.Pieces.{Piece, sgr, stretch, pieces};
ghost use Rattle.ansi_text.specs.Ansi.{after_pieces, ansi_from, ansi_line, is_text, style_after, style_after_line};
ghost use Rattle.ansi_text.specs.Written.{is_item, written};

/// A style patched by the style that sequences make of it is that second style. The first style's modifiers are among the nine.
pub fn codes_make_a_style_that_patches_the_first()
    ensures { (style : Style) (line : List Piece) → style.add.0 < 2 ^ 9 → style.sub.0 < 2 ^ 9
        → patch style (after_pieces style line) ≡ after_pieces style line }
{}

/// A decimal number that is written is read back, with what follows it, unless that begins with a digit.
pub fn written_numbers_are_read_back()
    ensures { (n : ℕ) (rest : List ℕ) → n < 2 ^ 64 → digit rest ≡ None
        → number (decimal n ++ rest) ≡ Some record { value = n; rest = rest } }
{}

/// A line without an escape byte is one stretch.
pub fn a_line_without_escapes_is_one_stretch()
    ensures { (b : ℕ) (bs : List ℕ) → list_all (λ c. not (c == 27)) (b ∷ bs) ≡ true → pieces (b ∷ bs) ≡ stretch (b ∷ bs) ∷ [] }
{}

/// An escape byte, `[`, items, `m` and a rest are that sequence and then the rest; the items may be written with `;` between.
pub fn a_sequence_stands_before_the_rest()
    ensures read { (bs : List ℕ) (s : Sequence) → sequence bs ≡ Some s → pieces (27 ∷ bs) ≡ sgr s.items ∷ pieces s.rest }
    ensures written { (items : List Item) (rest : List ℕ) → list_all is_item items ≡ true
        → pieces (27 ∷ 91 ∷ (written items ++ (109 ∷ rest))) ≡ sgr items ∷ pieces rest }
{}

/// A first line and its end, LF, CRLF or CR, go before the rest, which begins in the style after that line.
pub fn a_first_line_goes_before_the_rest()
    ensures lf { (style : Style) (a b : List ℕ) → is_one_line a ≡ true → 0 < length b
        → ansi_from style (a ++ (10 ∷ b)) ≡ ansi_line style a ∷ ansi_from (style_after_line style a) b }
    ensures crlf { (style : Style) (a b : List ℕ) → is_one_line a ≡ true → 0 < length b
        → ansi_from style (a ++ (13 ∷ 10 ∷ b)) ≡ ansi_line style a ∷ ansi_from (style_after_line style a) b }
    ensures cr { (style : Style) (a b : List ℕ) → is_one_line a ≡ true → 0 < length b → required 10 b ≡ None
        → ansi_from style (a ++ (13 ∷ b)) ≡ ansi_line style a ∷ ansi_from (style_after_line style a) b }
{}

/// Bytes without a line end are one line, also with an end behind them.
pub fn one_line_is_the_line_of_its_bytes()
    ensures alone { (style : Style) (a : List ℕ) → is_one_line a ≡ true → ansi_from style a ≡ ansi_line style a ∷ [] }
    ensures lf { (style : Style) (a : List ℕ) → is_one_line a ≡ true → ansi_from style (a ++ (10 ∷ [])) ≡ ansi_line style a ∷ [] }
    ensures crlf { (style : Style) (a : List ℕ) → is_one_line a ≡ true → ansi_from style (a ++ (13 ∷ 10 ∷ [])) ≡ ansi_line style a ∷ [] }
    ensures cr { (style : Style) (a : List ℕ) → is_one_line a ≡ true → ansi_from style (a ++ (13 ∷ [])) ≡ ansi_line style a ∷ [] }
{}

/// The lines that an input is cut into have no end in them, and are read one by one, each begun in the style after those before.
pub fn lines_are_read_one_by_one()
    ensures without_ends { (bytes : List ℕ) → list_all is_one_line (raw_lines bytes) ≡ true }
    ensures first { (style : Style) (bytes line after : List ℕ) → raw_lines bytes ≡ line ∷ raw_lines after → 0 < length after
        → ansi_from style bytes ≡ ansi_line style line ∷ ansi_from (style_after_line style line) after }
    ensures last { (style : Style) (bytes line : List ℕ) → raw_lines bytes ≡ line ∷ raw_lines [] → ansi_from style bytes ≡ ansi_line style line ∷ [] }
{}

/// The style after an input is that after its first line, and then after the rest.
pub fn the_style_runs_on_from_line_to_line()
    ensures alone { (style : Style) (a : List ℕ) → is_one_line a ≡ true → style_after style a ≡ style_after_line style a }
    ensures lf { (style : Style) (a b : List ℕ) → is_one_line a ≡ true → 0 < length b
        → style_after style (a ++ (10 ∷ b)) ≡ style_after (style_after_line style a) b }
    ensures crlf { (style : Style) (a b : List ℕ) → is_one_line a ≡ true → 0 < length b
        → style_after style (a ++ (13 ∷ 10 ∷ b)) ≡ style_after (style_after_line style a) b }
    ensures cr { (style : Style) (a b : List ℕ) → is_one_line a ≡ true → 0 < length b → required 10 b ≡ None
        → style_after style (a ++ (13 ∷ b)) ≡ style_after (style_after_line style a) b }
{}

/// Each stretch of a UTF-8 input is UTF-8, since it is cut at ASCII bytes alone.
pub fn stretches_of_text_are_text()
    ensures { (style : Style) (bytes : List ℕ) → IsUtf8 bytes → is_text (ansi_from style bytes) ≡ true }
{}
