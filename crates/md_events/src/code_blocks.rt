// Blocks of code.
ghost use Rattle.std.specs.Prelude.{◌≡◌, ◌++◌, ◌≤◌, IfOk, OnOk, length, false};
ghost use Rattle.md_tree.specs.Tree.{Empty, events};
ghost use Rattle.md_events.specs.Node.{Element, node_then};
ghost use Rattle.md_events.specs.Kept.{kept_lines};
ghost use Rattle.md_events.specs.declared.kept.Kept.TheVariants.{Text};
ghost use Rattle.md_events.specs.Written.{fence_events};
ghost use Rattle.md_rules.specs.Fences.{fence_more};
ghost use Rattle.md_tree.specs.declared.event.Tag.TheVariants as tag;

use crate::kept::{Kept, write_kept_lines};
use md_lines::Line;
use md_rules::Fence;
use md_tree::{CodeBlockKind, Event, Tag, TagEnd};
use std::alloc::{AllocError, Global};

/// Appends the events of the code behind a fence, and tells how many of the lines it takes.
pub(crate) fn write_fenced<'a>(
    alloc: Global,
    fence: Fence<'a>,
    lines: &[Line<'a>],
    out: &mut Vec<Event<'a>>,
) -> Result<usize, AllocError>
    ensures written { OnOk result (out.new.items ≡ out.old.items ++ fence_events fence.entry lines.now) }
    ensures lines { IfOk result (λ n. n ≡ fence_more fence.entry lines.now) }
    ensures within { IfOk result (λ n. n ≤ length lines.now) }
{
    let content = fence.content(lines);
    let column = fence.indent;
    write_code(
        alloc,
        CodeBlockKind::Fenced(fence.info),
        column,
        &lines[..content],
        out,
    )?;
    Ok(lines.len().min(content + 1))
}

/// Appends the events of a code block with these lines, which lose so many columns.
pub(crate) fn write_code<'a>(
    alloc: Global,
    kind: CodeBlockKind<'a>,
    column: u128,
    lines: &[Line<'a>],
    out: &mut Vec<Event<'a>>,
) -> Result<(), AllocError>
    ensures { OnOk result (out.new.items ≡ out.old.items ++ events (node_then false (Element (tag.CodeBlock kind.entry) (kept_lines Text column lines.now)) Empty)) }
{
    out.push(Event::Start(Tag::CodeBlock(kind)))?;
    write_kept_lines(alloc, Kept::Text, column, lines, out)?;
    out.push(Event::End(TagEnd::CodeBlock))?;
    Ok(())
}
