// Why a view of a text is refused.

use std::fmt;

/// Why a view of a text is refused.
#[derive(Clone, Copy, Debug, PartialEq, Eq)]
pub enum ViewError {
    /// There was no memory.
    Memory,
    /// The bytes are not UTF-8.
    NotUtf8,
    /// A visible grapheme of the text is wider than the area.
    TooNarrow,
}

impl fmt::Display for ViewError {
    ghost use Rattle.std.specs.Prelude.{Some};
    ghost use Rattle.md_page.specs.ViewError.{error_text};

    ghost output = { λ e. Some (error_text e) };

    fn fmt<W: fmt::Write>(&self, f: &mut fmt::Formatter<W>) -> fmt::Result {
        match self {
            ViewError::Memory => f.write_str("out of memory"),
            ViewError::NotUtf8 => f.write_str("input is not UTF-8"),
            ViewError::TooNarrow => f.write_str("a character is wider than the page"),
        }
    }
}

impl std::error::Error for ViewError {}
