// Laws over the rows of pages, and over the mascot.
ghost use Rattle.std.specs.Prelude.{◌≡◌, ℕ, ◌+◌, ◌*◌, ◌<◌, ◌≤◌, ◌⊎◌, ◌↔◌, [], List, true, false, None, Some, IfSome, length, map, slice_get, unwrap_or};
ghost use Rattle.std.specs.List.{All};
ghost use Rattle.term_core.specs.Cells.{CellView, cells, view};
ghost use Rattle.term_core.specs.Graph.{Grapheme, graphs};
ghost use Rattle.term_core.specs.Lists.{joined};
ghost use Rattle.term_core.specs.Paint.{painted};
ghost use Rattle.term_core.specs.Text.{LineView};
ghost use Rattle.term_core.specs.Wrap.{AllNarrow, Thinned};
ghost use Rattle.term_text.specs.declared.style.Color.{Color};
ghost use Rattle.term_widgets.specs.declared.mascot.MascotEyeColor.{MascotEyeColor};
ghost use Rattle.term_widgets.specs.declared.mascot.MascotEyeColor.TheVariants.{Default, Red};
ghost use Rattle.term_widgets.specs.Mascot.{dots_of, is_dot, has_eye, dot_color, eye_color, pair_paint, full, upper_half, halves, over, mascot_cell};
ghost use Rattle.term_widgets.specs.Page.{AllFit, rows_of};

pub use term_core::laws::{rows_are_narrow, rows_are_the_graphemes_without_blanks, wrap_unfolds};

/// Each row of a page takes as many cells as the page has columns.
pub fn page_rows_take_the_width()
    ensures { (w : ℕ) (lines : List LineView) → AllFit w lines
        → All (λ row. length (cells row w) ≡ w) (rows_of w lines) }
{}

/// Row `i` of a view from the row `r` on is the cells of row `r + i`, and blank after the last.
pub fn rows_of_a_view()
    ensures { (rows : List (List Grapheme)) (w h r i : ℕ) → i < h
        → slice_get (view rows w h r) i ≡ Some (cells (unwrap_or (slice_get rows (r + i)) []) w) }
{}

/// Two views of a page agree on each cell of the rows that both show.
pub fn views_agree_cell_by_cell()
    ensures { (w : ℕ) (lines : List LineView) (h k r s i j x : ℕ) → AllFit w lines
        → i < h → j < k → r + i ≡ s + j → x < w
        → slice_get (joined (view (rows_of w lines) w h r)) (i * w + x)
        ≡ slice_get (joined (view (rows_of w lines) w k s)) (j * w + x) }
{}

/// Two views of the same rows agree on each row that both show.
pub fn views_agree()
    ensures { (rows : List (List Grapheme)) (w h k r s i j : ℕ) → i < h → j < k → r + i ≡ s + j
        → slice_get (view rows w h r) i ≡ slice_get (view rows w k s) j }
{}

/// Each row of a page is at most as wide as the page.
pub fn page_rows_are_narrow()
    ensures { (w : ℕ) (lines : List LineView) → AllFit w lines → AllNarrow w (rows_of w lines) }
{}

/// The rows of a page joined are the visible graphemes of its lines without some blanks.
pub fn page_rows_are_the_graphemes_without_blanks()
    ensures { (w : ℕ) (lines : List LineView) → AllFit w lines
        → Thinned (joined (map graphs lines)) (joined (rows_of w lines)) }
{}

/// Each half of a cell that the mascot paints has the colour of its dot; behind a blank dot the background stays. A cell of two
/// blank dots is left as it is, and no other.
pub fn halves_are_their_dots()
    ensures painted { (eye : MascotEyeColor) (a b : ℕ) (fg bg : Color) → IfSome (pair_paint eye a b) (λ paint.
        halves paint.symbol (unwrap_or paint.fg fg) (unwrap_or paint.bg bg) ≡ Some (over eye a bg, over eye b bg)) }
    ensures left { (eye : MascotEyeColor) (a b : ℕ) → (pair_paint eye a b ≡ None) ↔ ((a ≡ 0x20) × (b ≡ 0x20)) }
{}

/// The dots of the picture stand in 32 lines and 32 columns, and each is of one of seven kinds.
pub fn the_picture_is_of_seven_kinds_of_dots()
    ensures { (line column dot : ℕ) → slice_get (dots_of line) column ≡ Some dot → (line < 32) × (column < 32) × (is_dot dot ≡ true) }
{}

/// The mascot has 32 columns and 16 rows: it paints a cell of the last of them, and leaves all past them as they are.
pub fn the_mascot_has_32_columns_and_16_rows()
    ensures column { (eye : MascotEyeColor) (c : CellView) → mascot_cell eye 31 4 c ≡ painted (full 0x2588 (dot_color eye 0x2588) (dot_color eye 0x2588)) c }
    ensures row { (eye : MascotEyeColor) (c : CellView) → mascot_cell eye 26 15 c ≡ painted (full 0x2588 (dot_color eye 0x2588) (dot_color eye 0x2588)) c }
    ensures past { (eye : MascotEyeColor) (x y : ℕ) (c : CellView) → (32 ≤ x) ⊎ (16 ≤ y) → mascot_cell eye x y c ≡ c }
{}

/// The eye is the lower half of the two cells in columns 21 and 22 of row 5, and no other cell depends on it.
pub fn the_eye_is_in_two_cells()
    ensures left { (eye : MascotEyeColor) (c : CellView) → mascot_cell eye 21 5 c ≡ painted (upper_half (dot_color eye 0x2588) (Some (eye_color eye))) c }
    ensures right { (eye : MascotEyeColor) (c : CellView) → mascot_cell eye 22 5 c ≡ painted (upper_half (dot_color eye 0x2588) (Some (eye_color eye))) c }
    ensures others { (x y : ℕ) (c : CellView) → has_eye x y ≡ false → mascot_cell Red x y c ≡ mascot_cell Default x y c }
{}
