// Lines that hang below a line.
ghost use Rattle.std.specs.Prelude.{◌≡◌, IfOk};
ghost use Rattle.md_rules.specs.Hung.{hung};

use crate::quote::less;
use md_lines::Line;
use std::alloc::{AllocError, Global};

/// A line, and those that hang below it, which lose so many columns.
pub(crate) fn hung<'a>(
    alloc: Global,
    column: u128,
    first: Line<'a>,
    own: &[Line<'a>],
) -> Result<Vec<Line<'a>>, AllocError>
    ensures { IfOk result (λ v. v.items ≡ hung column first.entry own.now) }
{
    let mut lines = Vec::new(alloc);
    lines.push(first)?;
    let mut at = 0;
    while at < own.len() {
        lines.push(less(column, &own[at]))?;
        at += 1;
    }
    Ok(lines)
}
