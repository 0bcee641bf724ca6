// A text as the events of its tree.
ghost use Rattle.std.specs.Prelude.{◌≡◌, IfOk};
ghost use Rattle.md_tree.specs.Tree.{events};
ghost use Rattle.md_events.specs.Blocks.{tree};

use crate::blocks::write_blocks;
use crate::metadata::write_metadata;
use md_lines::lines_of;
use md_tree::Event;
use std::alloc::{AllocError, Global};

/// How many levels deep containers may stand in one another.
const DEPTH_LIMIT: usize = 32;

/// The events of the text's tree; the texts in them borrow from it.
pub fn read<'a>(alloc: Global, text: &'a str) -> Result<Vec<Event<'a>>, AllocError>
    ensures { IfOk result (λ v. v.items ≡ events (tree text.now)) }
{
    let lines = lines_of(alloc, text)?;
    let mut out = Vec::new(alloc);
    let lines = lines.as_slice();
    let front = write_metadata(alloc, lines, &mut out)?;
    write_blocks(alloc, &lines[front..], DEPTH_LIMIT, false, &mut out)?;
    Ok(out)
}
