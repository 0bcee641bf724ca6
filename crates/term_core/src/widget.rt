// What can be drawn into an area, and why it is refused.
ghost use Rattle.std.specs.Prelude.{◌≡◌, ℕ, false, OnErr};
ghost use Rattle.term_core.specs.Buffers.{BufferView, cell_at};
ghost use Rattle.term_core.specs.Rect.{has_place};

use crate::buffer::Buffer;
use crate::rect::Rect;
use std::alloc::{AllocError, Global};
use std::fmt;

/// Why a page or a widget is refused.
#[derive(Clone, Copy, Debug, PartialEq, Eq)]
pub enum WidgetError {
    /// There was no memory.
    Memory,
    /// A visible grapheme is wider than the page.
    TooNarrow,
}

impl From<AllocError> for WidgetError {
    ghost use Rattle.term_core.specs.declared.widget.WidgetError.{WidgetError};

    ghost from_gives = { λ _ e. e ≡ WidgetError.Memory };

    fn from(_: AllocError) -> WidgetError {
        WidgetError::Memory
    }
}

impl fmt::Display for WidgetError {
    ghost use Rattle.std.specs.Prelude.{Some};
    ghost use Rattle.term_core.specs.WidgetError.{error_text};

    ghost output = { λ e. Some (error_text e) };

    fn fmt<W: fmt::Write>(&self, f: &mut fmt::Formatter<W>) -> fmt::Result {
        match self {
            WidgetError::Memory => f.write_str("out of memory"),
            WidgetError::TooNarrow => f.write_str("a character is wider than the page"),
        }
    }
}

impl std::error::Error for WidgetError {}

/// What can be drawn into an area of a buffer.
///
/// A widget keeps the buffer's area, changes no cell outside the area that it is given,
/// and changes none at all where it is refused.
pub trait Widget {
    /// What a widget needs so that it may be drawn: nothing, unless it says so.
    ///
    /// A widget that calls a function of its user's asks here that it may be called.
    ghost can_render: { Self → Type 0 } = { λ _. Unit {0} };

    /// Draws into the area, as far as the buffer has it.
    fn render(self, alloc: Global, area: Rect, buf: &mut Buffer) -> Result<(), WidgetError>
        requires { can_render self }
        ensures area { buf.new.area ≡ buf.old.area }
        ensures outside { (x y : ℕ) → has_place area x y ≡ false → cell_at buf.new x y ≡ cell_at buf.old x y }
        ensures err { OnErr result (buf.new ≡ buf.old) };
}
