// Blocks: the lines of a document as events.
ghost use Rattle.std.specs.Prelude.{◌≡◌, ◌++◌, ◌<◌, ◌≤◌, Some, false, IfOk, IsTrue, OnOk, length};
ghost use Rattle.md_tree.specs.Tree.{Branch, Empty, events};
ghost use Rattle.md_tree.specs.declared.event.Tag.TheVariants as tag;
ghost use Rattle.md_rules.specs.Footnotes.{footnote_label};
ghost use Rattle.md_rules.specs.Items.{marker_of};
ghost use Rattle.md_events.specs.Node.{block_events};
ghost use Rattle.md_rules.specs.Definitions.{describes};
ghost use Rattle.md_rules.specs.declared.entry.Entry.TheVariants.{Description};
ghost use Rattle.md_events.specs.Containers.{footnote, in_item, items, with_task};
ghost use Rattle.md_events.specs.Definitions.{definitions, entries, entry_tag, in_description, in_entry};
ghost use Rattle.md_events.specs.Blocks.{blocks};
ghost use Rattle.md_events.specs.Written.{begins_quote, first_block, first_list, first_marker, first_quote, nests};

use crate::code_blocks::{write_code, write_fenced};
use crate::definitions::write_title;
use crate::heading::write_heading;
use crate::html_blocks::write_html;
use crate::paragraph::{empty_front, front_paragraph, paragraph_more, write_paragraph, write_run};
use crate::tables::write_table;
use md_lines::Line;
use md_rules::{
    BlockStart, Entry, Items, Marker, block_start, description_lines, entries_more, first_alert,
    footnote_lines, hanging, heading_at, is_loose, item_lines, list_more, next_entry, next_item,
    quoted, task_of, without_kind,
};
use md_tree::{CodeBlockKind, Event, Tag, TagEnd};
use std::alloc::{AllocError, Global};
use term_text::CowStr;

/// Appends the events of the blocks of lines, in which containers may stand so many levels deep; in an item of a tight
/// list their paragraphs are runs of inlines.
#[cycle(blocks)]
pub(crate) fn write_blocks<'a>(
    alloc: Global,
    lines: &[Line<'a>],
    levels: usize,
    tight: bool,
    out: &mut Vec<Event<'a>>,
) -> Result<(), AllocError>
    ensures { OnOk result (out.new.items ≡ out.old.items ++ events (blocks levels tight lines.now)) }
{
    let mut at = 0;
    while at < lines.len() {
        if lines[at].is_empty() {
            at += 1;
        } else {
            at += 1 + write_block(alloc, &lines[at..], levels, tight, out)?;
        }
    }
    Ok(())
}

/// Appends the events of the block at the first line, and tells how many lines it takes after it.
#[cycle(blocks)]
fn write_block<'a>(
    alloc: Global,
    lines: &[Line<'a>],
    levels: usize,
    tight: bool,
    out: &mut Vec<Event<'a>>,
) -> Result<usize, AllocError>
    requires { 0 < length lines.now }
    ensures written { OnOk result (out.new.items ≡ out.old.items ++ block_events tight (first_block levels lines.now)) }
    ensures lines { IfOk result (λ n. n ≡ (first_block levels lines.now).more) }
    ensures within { IfOk result (λ n. n < length lines.now) }
{
    let nests = nests(levels);
    let (line, later) = (&lines[0], &lines[1..]);
    match block_start(nests, Items::All, line, later) {
        BlockStart::Code => {
            let more = hanging(4, later);
            write_code(alloc, CodeBlockKind::Indented, 4, &lines[..1 + more], out)?;
            Ok(more)
        }
        BlockStart::Fence(fence) => write_fenced(alloc, fence, later, out),
        BlockStart::ThematicBreak => {
            out.push(Event::Rule)?;
            Ok(0)
        }
        BlockStart::Heading(level) => {
            write_heading(alloc, heading_at(alloc, level, line)?, out)?;
            Ok(0)
        }
        BlockStart::Quote => write_quote(alloc, lines, levels - 1, out),
        BlockStart::Footnote(label) => write_footnote(alloc, label, line, later, levels - 1, out),
        BlockStart::Item(marker) => write_list(alloc, marker, lines, levels - 1, out),
        BlockStart::Html(end) => {
            let more = end.html_more(line, later);
            write_html(alloc, &lines[..1 + more], out)?;
            Ok(more)
        }
        BlockStart::Table => write_table(alloc, line, later, nests, out),
        BlockStart::Definitions => write_definitions(alloc, line, later, levels - 1, out),
        BlockStart::Paragraph => {
            let more = paragraph_more(nests, later);
            write_run(alloc, tight, &lines[..1 + more], out)?;
            Ok(more)
        }
    }
}

/// Whether containers may stand where so many levels are left.
fn nests(levels: usize) -> bool
    ensures { result ≡ nests levels }
{
    levels > 0
}

/// Appends the events of the quote at the first line, in which containers may stand so many levels deep, and tells how
/// many lines it takes after it.
#[cycle(blocks)]
fn write_quote<'a>(
    alloc: Global,
    lines: &[Line<'a>],
    levels: usize,
    out: &mut Vec<Event<'a>>,
) -> Result<usize, AllocError>
    requires { IsTrue (begins_quote lines.now) }
    ensures written { OnOk result (out.new.items ≡ out.old.items ++ block_events false (first_quote levels lines.now)) }
    ensures lines { IfOk result (λ n. n ≡ (first_quote levels lines.now).more) }
    ensures within { IfOk result (λ n. n < length lines.now) }
{
    let inside = quoted(alloc, lines)?;
    let inside = inside.as_slice();
    let kind = first_alert(inside);
    out.push(Event::Start(Tag::BlockQuote(kind)))?;
    write_blocks(alloc, without_kind(kind, inside), levels, false, out)?;
    out.push(Event::End(TagEnd::BlockQuote(kind)))?;
    Ok(inside.len() - 1)
}

/// Appends the events of the footnote definition of this label at the line, before these lines, in which containers may
/// stand so many levels deep, and tells how many of them it takes.
#[cycle(blocks)]
fn write_footnote<'a>(
    alloc: Global,
    label: CowStr<'a>,
    line: &Line<'a>,
    later: &[Line<'a>],
    levels: usize,
    out: &mut Vec<Event<'a>>,
) -> Result<usize, AllocError>
    requires { footnote_label line.now ≡ Some label }
    ensures written { OnOk result (out.new.items ≡ out.old.items ++ block_events false (footnote (blocks levels) label.entry line.now later.now)) }
    ensures lines { IfOk result (λ n. n ≡ (footnote (blocks levels) label.entry line.now later.now).more) }
    ensures within { IfOk result (λ n. n ≤ length later.now) }
{
    let more = hanging(4, later);
    let inside = footnote_lines(alloc, &label, line, &later[..more])?;
    out.push(Event::Start(Tag::FootnoteDefinition(label)))?;
    write_blocks(alloc, inside.as_slice(), levels, false, out)?;
    out.push(Event::End(TagEnd::FootnoteDefinition))?;
    Ok(more)
}

/// Appends the events of the list that begins with an item of this marker at the first line, in whose items containers
/// may stand so many levels deep, and tells how many lines it takes after the first.
#[cycle(blocks)]
fn write_list<'a>(
    alloc: Global,
    marker: Marker,
    lines: &[Line<'a>],
    levels: usize,
    out: &mut Vec<Event<'a>>,
) -> Result<usize, AllocError>
    requires { first_marker lines.now ≡ Some marker }
    ensures written { OnOk result (out.new.items ≡ out.old.items ++ block_events false (first_list levels marker lines.now)) }
    ensures lines { IfOk result (λ n. n ≡ (first_list levels marker lines.now).more) }
    ensures within { IfOk result (λ n. n < length lines.now) }
{
    let later = &lines[1..];
    let more = list_more(marker.kind, marker.item_more(&lines[0], later), later);
    let tight = !is_loose(&later[..more]);
    out.push(Event::Start(Tag::List(marker.number)))?;
    write_items(alloc, marker.kind, tight, lines, levels, out)?;
    out.push(Event::End(TagEnd::List(marker.number.is_some())))?;
    Ok(more)
}

/// Appends the events of the items of this kind that the lines begin with, in which containers may stand so many levels
/// deep.
#[cycle(blocks)]
fn write_items<'a>(
    alloc: Global,
    kind: u8,
    tight: bool,
    lines: &[Line<'a>],
    levels: usize,
    out: &mut Vec<Event<'a>>,
) -> Result<(), AllocError>
    ensures { OnOk result (out.new.items ≡ out.old.items ++ events (items (blocks levels) tight kind 0 lines.now)) }
{
    let mut at = 0;
    while at < lines.len() {
        let line = &lines[at];
        at += 1;
        if line.is_empty() {
            continue;
        }
        let Some(marker) = next_item(kind, line) else {
            break;
        };
        let own = marker.item_more(line, &lines[at..]);
        write_item(
            alloc,
            marker,
            tight,
            line,
            &lines[at..at + own],
            levels,
            out,
        )?;
        at += own;
    }
    Ok(())
}

/// Appends the events of an item that begins at the line and has these further lines, in which containers may stand so
/// many levels deep.
#[cycle(blocks)]
fn write_item<'a>(
    alloc: Global,
    marker: Marker,
    tight: bool,
    line: &Line<'a>,
    own: &[Line<'a>],
    levels: usize,
    out: &mut Vec<Event<'a>>,
) -> Result<(), AllocError>
    requires { marker_of line.now ≡ Some marker }
    ensures { OnOk result (out.new.items ≡ out.old.items ++ events (Branch tag.Item (in_item (blocks levels) tight marker line.now own.now) Empty)) }
{
    let first = marker.item_line(line);
    let task = task_of(&first);
    let inside = item_lines(alloc, marker.column(line), first, own)?;
    out.push(Event::Start(Tag::Item))?;
    write_item_blocks(alloc, task, tight, inside.as_slice(), levels, out)?;
    out.push(Event::End(TagEnd::Item))?;
    Ok(())
}

/// Appends the events of the blocks of an item, with its task mark where it has one.
#[cycle(blocks)]
fn write_item_blocks<'a>(
    alloc: Global,
    task: Option<bool>,
    tight: bool,
    lines: &[Line<'a>],
    levels: usize,
    out: &mut Vec<Event<'a>>,
) -> Result<(), AllocError>
    ensures { OnOk result (out.new.items ≡ out.old.items ++ events (with_task tight task (blocks levels tight lines.now))) }
{
    let Some(done) = task else {
        return write_blocks(alloc, lines, levels, tight, out);
    };
    let blocks = &lines[empty_front(lines)..];
    match front_paragraph(tight, nests(levels), blocks) {
        Some(count) => {
            write_paragraph(alloc, Some(done), &blocks[..count], out)?;
            write_blocks(alloc, &blocks[count..], levels, tight, out)
        }
        None => {
            out.push(Event::TaskListMarker(done))?;
            write_blocks(alloc, blocks, levels, tight, out)
        }
    }
}

/// Appends the events of the definition list whose first title is the line, before these lines, in whose descriptions
/// containers may stand so many levels deep, and tells how many of them it takes.
#[cycle(blocks)]
fn write_definitions<'a>(
    alloc: Global,
    line: &Line<'a>,
    later: &[Line<'a>],
    levels: usize,
    out: &mut Vec<Event<'a>>,
) -> Result<usize, AllocError>
    ensures written { OnOk result (out.new.items ≡ out.old.items ++ block_events false (definitions (blocks levels) line.now later.now)) }
    ensures lines { IfOk result (λ n. n ≡ (definitions (blocks levels) line.now later.now).more) }
    ensures within { IfOk result (λ n. n ≤ length later.now) }
{
    out.push(Event::Start(Tag::DefinitionList))?;
    write_title(alloc, line, out)?;
    write_entries(alloc, later, levels, out)?;
    out.push(Event::End(TagEnd::DefinitionList))?;
    Ok(entries_more(later))
}

/// Appends the events of the further entries of a definition list that the lines begin with, in which containers may stand
/// so many levels deep.
#[cycle(blocks)]
fn write_entries<'a>(
    alloc: Global,
    lines: &[Line<'a>],
    levels: usize,
    out: &mut Vec<Event<'a>>,
) -> Result<(), AllocError>
    ensures { OnOk result (out.new.items ≡ out.old.items ++ events (entries (blocks levels) 0 lines.now)) }
{
    let mut at = 0;
    while at < lines.len() {
        let line = &lines[at];
        at += 1;
        if line.is_empty() {
            continue;
        }
        let Some(entry) = next_entry(line, &lines[at..]) else {
            break;
        };
        let own = entry.entry_more(line, &lines[at..]);
        write_entry(alloc, entry, line, &lines[at..at + own], levels, out)?;
        at += own;
    }
    Ok(())
}

/// Appends the events of the entry at the line that has these further lines, in which containers may stand so many levels
/// deep.
#[cycle(blocks)]
fn write_entry<'a>(
    alloc: Global,
    entry: Entry,
    line: &Line<'a>,
    own: &[Line<'a>],
    levels: usize,
    out: &mut Vec<Event<'a>>,
) -> Result<(), AllocError>
    requires { entry ≡ Description → IsTrue (describes line.now) }
    ensures { OnOk result (out.new.items ≡ out.old.items ++ events (Branch (entry_tag entry) (in_entry (blocks levels) entry line.now own.now) Empty)) }
{
    match entry {
        Entry::Title => write_title(alloc, line, out),
        Entry::Description => write_description(alloc, line, own, levels, out),
    }
}

/// Appends the events of the description that begins at the line and has these further lines, in which containers may stand
/// so many levels deep.
#[cycle(blocks)]
fn write_description<'a>(
    alloc: Global,
    line: &Line<'a>,
    own: &[Line<'a>],
    levels: usize,
    out: &mut Vec<Event<'a>>,
) -> Result<(), AllocError>
    requires { IsTrue (describes line.now) }
    ensures { OnOk result (out.new.items ≡ out.old.items ++ events (Branch tag.DefinitionListDefinition (in_description (blocks levels) line.now own.now) Empty)) }
{
    let inside = description_lines(alloc, line, own)?;
    out.push(Event::Start(Tag::DefinitionListDefinition))?;
    write_blocks(alloc, inside.as_slice(), levels, !is_loose(own), out)?;
    out.push(Event::End(TagEnd::DefinitionListDefinition))?;
    Ok(())
}
