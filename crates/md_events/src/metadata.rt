// Metadata at a document's start.
ghost use Rattle.std.specs.Prelude.{◌≡◌, ◌++◌, ◌≤◌, IfOk, OnOk, length};
ghost use Rattle.md_tree.specs.Tree.{Empty, events};
ghost use Rattle.md_rules.specs.Metadata.{metadata_in, metadata_lines};
ghost use Rattle.md_events.specs.Metadata.{further_texts, metadata_texts, metadata_then};

use crate::kept::{Kept, write_kept};
use md_lines::Line;
use md_rules::metadata_in;
use md_tree::{Event, Tag, TagEnd};
use std::alloc::{AllocError, Global};

/// Appends the events of the metadata that the lines of a document begin with, and tells how many lines it takes: none where
/// they begin with none.
pub(crate) fn write_metadata<'a>(
    alloc: Global,
    lines: &[Line<'a>],
    out: &mut Vec<Event<'a>>,
) -> Result<usize, AllocError>
    ensures written { OnOk result (out.new.items ≡ out.old.items ++ events (metadata_then (metadata_in lines.now) lines.now Empty)) }
    ensures lines { IfOk result (λ n. n ≡ metadata_lines (metadata_in lines.now)) }
    ensures within { IfOk result (λ n. n ≤ length lines.now) }
{
    let Some(count) = metadata_in(lines) else {
        return Ok(0);
    };
    out.push(Event::Start(Tag::MetadataBlock))?;
    write_metadata_texts(alloc, &lines[1..1 + count], out)?;
    out.push(Event::End(TagEnd::MetadataBlock))?;
    Ok(count + 2)
}

/// Appends the texts of lines of metadata, with a soft break between two lines.
fn write_metadata_texts<'a>(
    alloc: Global,
    lines: &[Line<'a>],
    out: &mut Vec<Event<'a>>,
) -> Result<(), AllocError>
    ensures { OnOk result (out.new.items ≡ out.old.items ++ events (metadata_texts lines.now)) }
{
    let Some((line, further)) = lines.split_first() else {
        return Ok(());
    };
    write_kept(alloc, Kept::Text, 0, line, out)?;
    write_further_texts(alloc, further, out)
}

/// Appends a soft break and the text of each line of metadata.
fn write_further_texts<'a>(
    alloc: Global,
    lines: &[Line<'a>],
    out: &mut Vec<Event<'a>>,
) -> Result<(), AllocError>
    ensures { OnOk result (out.new.items ≡ out.old.items ++ events (further_texts lines.now)) }
{
    let mut at = 0;
    while at < lines.len() {
        out.push(Event::SoftBreak)?;
        write_kept(alloc, Kept::Text, 0, &lines[at], out)?;
        at += 1;
    }
    Ok(())
}
