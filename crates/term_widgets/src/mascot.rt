// The mascot of Ratatui.
ghost use Rattle.std.specs.Prelude.{◌≡◌, ℕ, ◌+◌, ◌-◌, ◌*◌, ◌<◌, ◌==◌, ◌&&◌, [], ◌∷◌, false, Some, MatchOption, IsOk, IsTrue, OnErr, chars, map, option_map, slice_get, if◌then◌else◌};
ghost use Rattle.std.specs.Str.Iter.{chars_rest};
ghost use Rattle.term_core.specs.Buffers.{BufferView, cell_at, IsWithin};
ghost use Rattle.term_core.specs.Rect.{has_place, intersection};
ghost use Rattle.term_widgets.specs.Mascot.{dot_color, pair_paint, with_paint, pair_cell, mascot_cell, dots_in, dots_of};

use crate::picture::PICTURE;
use std::alloc::Global;
use std::str::Chars;
use term_core::{Buffer, Color, Paint, Rect, Widget, WidgetError};

/// The number of rows of cells that the mascot takes.
const ROWS: u16 = 16;

/// The colour of the mascot's eye.
#[derive(Clone, Copy, Debug, PartialEq, Eq, Default)]
pub enum MascotEyeColor {
    /// Dark grey.
    #[default]
    Default,
    /// Red, as when it blinks.
    Red,
}

/// The mascot of Ratatui, a rat with a hat at a terminal. It takes 32 columns and 16 rows.
#[derive(Clone, Copy, Debug, PartialEq, Eq, Default)]
pub struct RatatuiMascot {
    eye: MascotEyeColor,
}

impl RatatuiMascot {
    /// The mascot with the eye [`MascotEyeColor::Default`].
    pub fn new() -> RatatuiMascot
        ensures { result.eye ≡ MascotEyeColor.Default }
    {
        RatatuiMascot {
            eye: MascotEyeColor::Default,
        }
    }

    /// The mascot with this eye.
    pub fn set_eye(self, rat_eye: MascotEyeColor) -> RatatuiMascot
        ensures { result.eye ≡ rat_eye }
    {
        RatatuiMascot { eye: rat_eye }
    }

    /// The eye.
    pub fn eye(&self) -> MascotEyeColor
        ensures { result ≡ self.now.eye }
    {
        self.eye
    }

    /// The colour of a dot of the picture.
    fn dot_color(self, dot: char) -> Color
        ensures { result ≡ dot_color self.eye dot }
    {
        match dot {
            '█' => Color::Indexed(252),
            'h' => Color::Indexed(231),
            'e' => match self.eye {
                MascotEyeColor::Default => Color::Indexed(236),
                MascotEyeColor::Red => Color::Indexed(196),
            },
            '░' => Color::Indexed(232),
            '▒' => Color::Indexed(237),
            _ => Color::Indexed(248),
        }
    }

    /// What a cell with these two dots is painted with: where both are blank, with nothing.
    fn pair_paint(self, upper: char, lower: char) -> Option<Paint>
        ensures { result ≡ pair_paint self.eye upper lower }
    {
        let up = self.dot_color(upper);
        let low = self.dot_color(lower);
        if both(upper, lower, ' ') {
            None
        } else if both(upper, lower, '░') {
            Some(paint(' ', up, Some(low)))
        } else if lower == ' ' {
            Some(paint('▀', up, None))
        } else if upper == ' ' {
            Some(paint('▄', low, None))
        } else if lower == '░' {
            Some(paint('▀', up, Some(low)))
        } else if upper == '░' {
            Some(paint('▄', low, Some(up)))
        } else if upper == lower {
            Some(paint('█', up, Some(low)))
        } else {
            Some(paint('▀', up, Some(low)))
        }
    }

    /// Paints a cell of the buffer with two dots.
    fn draw_pair(self, upper: char, lower: char, x: u16, y: u16, buf: &mut Buffer)
        requires { IsTrue (has_place buf.old.area x y) }
        ensures area { buf.new.area ≡ buf.old.area }
        ensures cells { (p q : ℕ) → cell_at buf.new p q ≡ (if (p == x) && (q == y)
            then option_map (with_paint (pair_paint self.eye upper lower)) (cell_at buf.old p q) else cell_at buf.old p q) }
    {
        if let Some(paint) = self.pair_paint(upper, lower) {
            buf.paint(x, y, paint);
        }
    }

    /// Draws a row of the picture into a row of an area that the buffer has.
    fn draw_row(self, row: u16, area: Rect, buf: &mut Buffer)
        requires picture { row < ROWS }
        requires height { row < area.height }
        requires within { IsWithin area buf.old.area }
        ensures area { buf.new.area ≡ buf.old.area }
        ensures cells { (p q : ℕ) → cell_at buf.new p q ≡ (if has_place area p q && (q == area.y + row)
            then option_map (mascot_cell self.eye (p - area.x) row) (cell_at buf.old p q) else cell_at buf.old p q) }
    {
        let y = area.y() + row;
        let mut uppers = dots(2 * row);
        let mut lowers = dots(2 * row + 1);
        'pairs: for x in area.x()..area.right() {
            let Some(upper) = next_dot(&mut uppers) else {
                return;
            };
            let Some(lower) = next_dot(&mut lowers) else {
                return;
            };
            self.draw_pair(upper, lower, x, y, buf);
        }
    }
}

impl Widget for RatatuiMascot {
    /// Draws the picture into the area cut to the buffer, from its first cell on and as far as it goes. A cell takes two dots, the
    /// upper and the lower; where both are blank it stays as it is. It is never refused, and takes no memory.
    fn render(self, _alloc: Global, area: Rect, buf: &mut Buffer) -> Result<(), WidgetError>
        ensures always { IsOk result }
        ensures area { buf.new.area ≡ buf.old.area }
        ensures cells { (x y : ℕ) → let cut = intersection area buf.old.area in
            cell_at buf.new x y ≡ (if has_place cut x y
            then option_map (mascot_cell self.eye (x - cut.x) (y - cut.y)) (cell_at buf.old x y) else cell_at buf.old x y) }
        ensures outside { (x y : ℕ) → has_place area x y ≡ false → cell_at buf.new x y ≡ cell_at buf.old x y }
        ensures err { OnErr result (buf.new ≡ buf.old) }
    {
        let cut = area.intersection(buf.area());
        'rows: for row in 0..cut.height().min(ROWS) {
            self.draw_row(row, cut, buf);
        }
        Ok(())
    }
}

/// The dots of a line of the mascot's picture.
fn dots(line: u16) -> Chars<'static>
    ensures { chars (chars_rest result) ≡ dots_of line }
{
    dots_in(PICTURE.as_slice(), line)
}

/// The dots of a line of a picture, of which there are none behind the last.
fn dots_in(picture: &[&'static str], line: u16) -> Chars<'static>
    ensures { chars (chars_rest result) ≡ dots_in (map (λ text. text.now) picture.now) line }
{
    match picture.get(line as usize) {
        Some(text) => text.chars(),
        None => "".chars(),
    }
}

/// The next dot of a line.
fn next_dot(dots: &mut Chars<'static>) -> Option<char>
    ensures { MatchOption result (chars (chars_rest dots.old) ≡ []) (λ dot. chars (chars_rest dots.old) ≡ dot ∷ chars (chars_rest dots.new)) }
{
    // What is left is a text, on which the contract rests.
    let _left = dots.as_str();
    dots.next()
}

/// Whether both dots are this one.
fn both(upper: char, lower: char, dot: char) -> bool
    ensures { result ≡ ((upper == dot) && (lower == dot)) }
{
    upper == dot && lower == dot
}

/// A paint of these parts.
fn paint(symbol: char, fg: Color, bg: Option<Color>) -> Paint
    ensures { result ≡ record { symbol = symbol; fg = Some fg; bg = bg } }
{
    Paint {
        symbol,
        fg: Some(fg),
        bg,
    }
}
