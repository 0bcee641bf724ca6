// Why a rendering is refused.
use std::alloc::AllocError;
use std::error::Error;
use std::fmt;

/// Why a rendering is refused.
#[derive(Clone, Copy, Debug, PartialEq, Eq)]
pub enum RenderError {
    /// There was no memory.
    Memory,
    /// The events are those of no good tree.
    BadEvents,
}

impl From<AllocError> for RenderError {
    ghost use Rattle.std.specs.Prelude.{◌≡◌};
    ghost use Rattle.md_text.specs.declared.error.RenderError.{RenderError};

    ghost from_gives = { λ _ e. e ≡ RenderError.Memory };

    fn from(_: AllocError) -> RenderError {
        RenderError::Memory
    }
}

impl fmt::Display for RenderError {
    ghost use Rattle.std.specs.Prelude.{Some};
    ghost use Rattle.md_text.specs.RenderError.{error_text};

    ghost output = { λ e. Some (error_text e) };

    fn fmt<W: fmt::Write>(&self, f: &mut fmt::Formatter<W>) -> fmt::Result {
        match self {
            RenderError::Memory => f.write_str("out of memory"),
            RenderError::BadEvents => f.write_str("events of no tree"),
        }
    }
}

impl Error for RenderError {}
