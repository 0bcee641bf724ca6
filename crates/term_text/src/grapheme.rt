// A visible grapheme.
ghost use Rattle.std.specs.Prelude.{◌≤◌};

use crate::style::Style;

/// A visible grapheme: its text, its style, how many columns it takes (one at least), and whether all its characters are
/// whitespace.
#[derive(Clone, Copy, Debug)]
pub struct Graph<'a> {
    pub symbol: &'a str,
    pub style: Style,
    pub width: usize,
    pub blank: bool,
    pub ghost shown: { 1 ≤ width },
}
