// Why a text with ANSI colours is refused.
ghost use Rattle.ansi_text.specs.declared.error.Error.TheVariants.{Memory};
ghost use Rattle.std.specs.Prelude.{◌≡◌};

use std::alloc::AllocError;
use std::fmt;

/// Why a text with ANSI colours is refused.
#[derive(Clone, Copy, Debug, PartialEq, Eq)]
pub enum Error {
    /// There was no memory.
    Memory,
    /// A stretch between sequences within a line is not UTF-8.
    Utf8Error,
}

impl fmt::Display for Error {
    ghost use Rattle.std.specs.Prelude.{Some};
    ghost use Rattle.ansi_text.specs.Errors.{error_text};

    ghost output = { λ e. Some (error_text e) };

    fn fmt<W: fmt::Write>(&self, f: &mut fmt::Formatter<W>) -> fmt::Result {
        match self {
            Error::Memory => f.write_str("out of memory"),
            Error::Utf8Error => f.write_str("text is not UTF-8"),
        }
    }
}

impl std::error::Error for Error {}

impl From<AllocError> for Error {
    ghost use Rattle.std.specs.Prelude.{◌≡◌};
    ghost use Rattle.ansi_text.specs.declared.error.Error.{Error};

    ghost from_gives = { λ _ e. e ≡ Error.Memory };

    fn from(_e: AllocError) -> Error {
        Error::Memory
    }
}
