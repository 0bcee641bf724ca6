// Headings.
ghost use Rattle.std.specs.Prelude.{◌≡◌, ◌++◌, false, OnOk};
ghost use Rattle.md_tree.specs.Tree.{Empty, events};
ghost use Rattle.md_events.specs.Node.{node_then};
ghost use Rattle.md_events.specs.Blocks.{heading_node};

use md_inline::write_inlines;
use md_rules::Heading;
use md_tree::{Event, Tag, TagEnd};
use std::alloc::{AllocError, Global};

/// Appends the events of a heading.
pub(crate) fn write_heading<'a>(
    alloc: Global,
    heading: Heading<'a>,
    out: &mut Vec<Event<'a>>,
) -> Result<(), AllocError>
    ensures { OnOk result (out.new.items ≡ out.old.items ++ events (node_then false (heading_node heading.entry) Empty)) }
{
    let level = heading.level;
    let content = [heading.content];
    out.push(Event::Start(Tag::Heading {
        level,
        id: heading.id,
        classes: heading.classes,
        attrs: heading.attrs,
    }))?;
    write_inlines(alloc, &content, out)?;
    out.push(Event::End(TagEnd::Heading(level)))?;
    Ok(())
}
