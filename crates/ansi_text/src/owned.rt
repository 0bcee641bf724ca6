// Copies of lines and texts that borrow from nothing.
ghost use Rattle.std.specs.Prelude.{◌≡◌, IfOk, true};
ghost use Rattle.ansi_text.specs.Lines.{all_filled, is_filled};

use std::alloc::{AllocError, Global};
use term_text::{Line, Text};

/// The same line, whose spans own their texts; none of them is empty.
pub(crate) fn owned_line(alloc: Global, line: &Line<'_>) -> Result<Line<'static>, AllocError>
    requires { is_filled line.now ≡ true }
    ensures { IfOk result (λ copy. copy ≡ line.now) }
{
    let mut copy = Line::new(alloc);
    copy.set_style(line.style());
    for span in line.spans() {
        copy.push_span(span.try_to_owned(alloc)?)?;
    }
    Ok(copy)
}

/// The same text, whose spans own their texts; none of them is empty.
pub(crate) fn owned_text(alloc: Global, text: &Text<'_>) -> Result<Text<'static>, AllocError>
    requires { all_filled text.now ≡ true }
    ensures { IfOk result (λ copy. copy ≡ text.now) }
{
    let mut copy = Text::new(alloc);
    for line in text.lines() {
        copy.push_line(owned_line(alloc, line)?)?;
    }
    Ok(copy)
}
