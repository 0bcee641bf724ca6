// HTML blocks.
ghost use Rattle.std.specs.Prelude.{◌≡◌, ◌++◌, OnOk};
ghost use Rattle.md_tree.specs.Tree.{Branch, Empty, events};
ghost use Rattle.md_tree.specs.declared.event.Tag.TheVariants as tag;
ghost use Rattle.md_events.specs.Kept.{kept_lines};
ghost use Rattle.md_events.specs.declared.kept.Kept.TheVariants.{Html};

use crate::kept::{Kept, write_kept_lines};
use md_lines::Line;
use md_tree::{Event, Tag, TagEnd};
use std::alloc::{AllocError, Global};

/// Appends the events of an HTML block with these lines.
pub(crate) fn write_html<'a>(
    alloc: Global,
    lines: &[Line<'a>],
    out: &mut Vec<Event<'a>>,
) -> Result<(), AllocError>
    ensures { OnOk result (out.new.items ≡ out.old.items ++ events (Branch tag.HtmlBlock (kept_lines Html 0 lines.now) Empty)) }
{
    out.push(Event::Start(Tag::HtmlBlock))?;
    write_kept_lines(alloc, Kept::Html, 0, lines, out)?;
    out.push(Event::End(TagEnd::HtmlBlock))?;
    Ok(())
}
