//! What the definitions of printed buffers give.
ghost use Rattle.std.specs.Prelude.{ℕ, ◌≡◌, ◌<◌, true, false, List, ◌∷◌, ◌++◌, length, map};
ghost use Rattle.std.specs.List.{list_all};
ghost use Rattle.term_core.specs.Cells.{CellView, blank_cell, with_style};
ghost use Rattle.term_text.specs.declared.style.Style.{Style};
ghost use Rattle.ansi_text.specs.Pieces.{sgr, pieces};
ghost use Rattle.ansi_text.specs.Ansi.{ansi, after_sequence};
ghost use Rattle.term_ansi.specs.declared.look.Look.{Look};
ghost use Rattle.term_ansi.specs.Looks.{look_of};
ghost use Rattle.ansi_text.specs.Written.{code};
ghost use Rattle.term_ansi.specs.Sgr.{look_items, sequence_text};
ghost use Rattle.term_ansi.specs.Printed.{rows_text, printed_cells, has_bad};
ghost use Rattle.std.specs.Prelude.{slice_get, if◌then◌else◌};
ghost use Rattle.term_core.specs.Buffers.{BufferView, cell_at};
ghost use Rattle.term_core.specs.Cells.{view};
ghost use Rattle.term_core.specs.Lists.{joined};
ghost use Rattle.term_core.specs.Rect.{has_place, place_of, intersection};
ghost use Rattle.term_widgets.specs.Page.{AllFit, rows_of};
ghost use Rattle.term_ansi.specs.Separable.{groups, group_cells, group_run};
ghost use Rattle.term_ansi.specs.Back.{IsFull, ReadsBack};
ghost use Rattle.term_ansi.specs.Clean.{is_clean_row, HasOwnControls};
ghost use Rattle.term_ansi.specs.Texts.{is_text_row, has_bad_text};
ghost use Rattle.term_text.specs.Text.{LineView};
ghost use Rattle.term_ansi.specs.Printed.{printed};
ghost use Rattle.term_ansi.specs.Runs.{neighbours_differ, runs, runs_read, is_known, is_known_row, is_byte_row, is_nine_row};

/// A look's sequence is read as its items, and these give a blank cell the look whatever the style before them.
pub fn a_sequence_gives_its_look()
    ensures read { (l : Look) (rest : List ℕ) → is_known l ≡ true
        → pieces (sequence_text l ++ rest) ≡ sgr (code 0 ∷ look_items l) ∷ pieces rest }
    ensures look { (style : Style) (l : Look) → is_known l ≡ true
        → look_of (with_style blank_cell (after_sequence style (code 0 ∷ look_items l))) ≡ l }
{}

/// The runs of cells are all cells cut up, each of one look, and neighbours have different looks: so they are the maximal
/// ones.
pub fn runs_are_maximal()
    ensures cells { (cells : List CellView) → joined (map group_cells (groups cells)) ≡ cells }
    ensures texts { (cells : List CellView) → map group_run (groups cells) ≡ runs cells }
    ensures differ { (cells : List CellView) → neighbours_differ (runs cells) ≡ true }
{}

/// Printed rows are read back: a line for each, whose spans are the maximal runs of equal look of its printed cells, each
/// with the joined symbols and a style that gives a blank cell the run's look.
pub fn printed_rows_are_read_back()
    ensures { (rows : List (List CellView)) → 0 < length rows → has_bad rows ≡ false → list_all is_known_row rows ≡ true
        → map runs_read (ansi (rows_text rows)) ≡ map (λ row. runs (printed_cells row)) rows }
{}

/// The looks of rows are known where the parts of their colours are bytes, which each buffer has, and their modifiers are
/// among the nine.
pub fn looks_are_known_by_their_parts()
    ensures { (rows : List (List CellView)) → list_all is_byte_row rows ≡ true → list_all is_nine_row rows ≡ true
        → list_all is_known_row rows ≡ true }
{}

/// The page of a printed buffer at the buffer's width fits, and drawn from its first row on into a buffer of the same area
/// it gives the buffer.
pub fn a_printed_buffer_is_drawn_again()
    ensures fits { (b : BufferView) → ReadsBack b → AllFit b.area.width (ansi (printed b)) }
    ensures drawn { (b old new : BufferView) → ReadsBack b → old.area ≡ b.area → new.area ≡ b.area → IsFull new
        → ((x y : ℕ) → let cut = intersection b.area old.area in
        cell_at new x y ≡ (if has_place cut x y
        then slice_get (joined (view (rows_of b.area.width (ansi (printed b))) cut.width cut.height 0)) (place_of cut x y)
        else cell_at old x y))
        → new ≡ b }
{}

/// A drawn view has no symbol that cannot be printed, and none with a control byte; its symbols are UTF-8, as in each
/// buffer.
pub fn a_drawn_view_can_be_printed()
    ensures good { (columns : ℕ) (lines : List LineView) (width height scroll : ℕ)
        → has_bad_text (view (rows_of columns lines) width height scroll) ≡ false }
    ensures clean { (columns : ℕ) (lines : List LineView) (width height scroll : ℕ)
        → list_all is_text_row (view (rows_of columns lines) width height scroll) ≡ true
        → list_all is_clean_row (view (rows_of columns lines) width height scroll) ≡ true }
{}

/// The text of rows without control bytes has no control byte below 32 but ESC and LF, and at each ESC the sequence of a
/// look begins.
pub fn printed_text_has_its_own_controls_alone()
    ensures { (rows : List (List CellView)) → list_all is_byte_row rows ≡ true → list_all is_clean_row rows ≡ true
        → HasOwnControls (rows_text rows) }
{}

/// Two buffers of one area that print equally are equal.
pub fn buffers_of_one_text_are_equal()
    ensures { (a b : BufferView) → ReadsBack a → ReadsBack b → a.area ≡ b.area → printed a ≡ printed b → a ≡ b }
{}
