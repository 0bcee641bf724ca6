// What a cell is painted with.
ghost use Rattle.std.specs.Prelude.{◌≡◌};

use crate::cell::Cell;
use term_text::Color;

/// A symbol of one character, and colours. A colour that is `None` stays as it is, and so do the modifiers.
#[derive(Clone, Copy, Debug, PartialEq, Eq)]
pub struct Paint {
    pub symbol: char,
    pub fg: Option<Color>,
    pub bg: Option<Color>,
}

impl Cell {
    ghost use Rattle.term_core.specs.Paint.{painted};

    /// Puts symbol and colours on the cell. Takes no memory.
    pub fn paint(&mut self, paint: Paint)
        ensures { self.new ≡ painted paint self.old }
    {
        self.set_char(paint.symbol);
        if let Some(color) = paint.fg {
            self.set_fg(color);
        }
        if let Some(color) = paint.bg {
            self.set_bg(color);
        }
    }
}
