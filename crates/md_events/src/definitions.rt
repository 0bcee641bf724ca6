// Titles of definition lists.
ghost use Rattle.std.specs.Prelude.{◌≡◌, ◌++◌, OnOk};
ghost use Rattle.md_tree.specs.Tree.{Branch, Empty, events};
ghost use Rattle.md_tree.specs.declared.event.Tag.TheVariants as tag;
ghost use Rattle.md_events.specs.Definitions.{in_title};

use md_inline::write_inlines;
use md_lines::Line;
use md_rules::title_of;
use md_tree::{Event, Tag, TagEnd};
use std::alloc::{AllocError, Global};

/// Appends the events of the title at the line.
pub(crate) fn write_title<'a>(
    alloc: Global,
    line: &Line<'a>,
    out: &mut Vec<Event<'a>>,
) -> Result<(), AllocError>
    ensures { OnOk result (out.new.items ≡ out.old.items ++ events (Branch tag.DefinitionListTitle (in_title line.now) Empty)) }
{
    let source = [title_of(line)];
    out.push(Event::Start(Tag::DefinitionListTitle))?;
    write_inlines(alloc, &source, out)?;
    out.push(Event::End(TagEnd::DefinitionListTitle))?;
    Ok(())
}
