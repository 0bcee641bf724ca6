// An item of an SGR sequence.

use term_text::Color;

/// An item of an SGR sequence: a code, and the colour that follows the codes 38 and 48.
///
/// The definitions of sequences speak of it: those that are read (`sequence`), and those that are written (`written`).
#[derive(Clone, Copy, Debug, PartialEq, Eq)]
pub struct Item {
    /// The number of the code, 0 to 255.
    pub code: u8,
    /// The colour, which stands behind the codes 38 and 48 alone.
    pub color: Option<Color>,
}
