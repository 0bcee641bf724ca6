// Paragraphs: what no other rule takes.
ghost use Rattle.std.specs.Prelude.{◌≡◌, ◌++◌, ◌≤◌, IfSome, OnOk, length, map};
ghost use Rattle.md_tree.specs.Tree.{Branch, Empty, events};
ghost use Rattle.md_tree.specs.declared.event.Tag.TheVariants as tag;
ghost use Rattle.md_lines.specs.Lines.{body_of};
ghost use Rattle.md_inline.specs.Inlines.{inlines};
ghost use Rattle.md_events.specs.Node.{run_then};
ghost use Rattle.md_events.specs.Blocks.{paragraph_more};
ghost use Rattle.md_events.specs.Written.{empty_front, front_paragraph, lines_by, marked};

use md_inline::write_inlines;
use md_lines::Line;
use md_rules::{BlockStart, Items, block_start, interrupts};
use md_tree::{Event, Tag, TagEnd};
use std::alloc::{AllocError, Global};

/// Appends the events of the paragraph of these lines, which in an item of a tight list is a run of inlines.
pub(crate) fn write_run<'a>(
    alloc: Global,
    tight: bool,
    lines: &[Line<'a>],
    out: &mut Vec<Event<'a>>,
) -> Result<(), AllocError>
    ensures { OnOk result (out.new.items ≡ out.old.items ++ events (run_then tight (inlines (map body_of lines.now)) Empty)) }
{
    if tight {
        write_inlines(alloc, lines, out)
    } else {
        write_paragraph(alloc, None, lines, out)
    }
}

/// Appends the events of the paragraph of these lines, with a task mark before its inlines where it has one.
pub(crate) fn write_paragraph<'a>(
    alloc: Global,
    mark: Option<bool>,
    lines: &[Line<'a>],
    out: &mut Vec<Event<'a>>,
) -> Result<(), AllocError>
    ensures { OnOk result (out.new.items
        ≡ out.old.items ++ events (Branch tag.Paragraph (marked mark (inlines (map body_of lines.now))) Empty)) }
{
    out.push(Event::Start(Tag::Paragraph))?;
    write_mark(mark, out)?;
    write_inlines(alloc, lines, out)?;
    out.push(Event::End(TagEnd::Paragraph))?;
    Ok(())
}

/// Appends a task mark, if it is given.
fn write_mark<'a>(mark: Option<bool>, out: &mut Vec<Event<'a>>) -> Result<(), AllocError>
    ensures { OnOk result (out.new.items ≡ out.old.items ++ events (marked mark Empty)) }
{
    if let Some(done) = mark {
        out.push(Event::TaskListMarker(done))?;
    }
    Ok(())
}

/// How many of the lines go on with a paragraph before them.
#[tactic(auto, unfolding(crate::specs::Blocks::paragraph_more))]
pub(crate) fn paragraph_more(nests: bool, lines: &[Line]) -> usize
    ensures value { result ≡ paragraph_more nests lines.now }
    ensures within { result ≤ length lines.now }
{
    let mut at = 0;
    while at < lines.len() {
        let line = &lines[at];
        if line.is_empty() || interrupts(nests, line, &lines[at + 1..]) {
            break;
        }
        at += 1;
    }
    at
}

/// How many empty lines stand in front.
pub(crate) fn empty_front(lines: &[Line]) -> usize
    ensures value { result ≡ empty_front lines.now }
    ensures within { result ≤ length lines.now }
{
    lines.iter().take_while(|line| line.is_empty()).count()
}

/// How many lines the paragraph takes that the lines begin with, or `None` where they begin with none, or with a run of
/// inlines in its place.
pub(crate) fn front_paragraph(tight: bool, nests: bool, lines: &[Line]) -> Option<usize>
    ensures value { result ≡ front_paragraph tight nests lines.now }
    ensures within { IfSome result (λ n. n ≤ length lines.now) }
{
    if tight {
        return None;
    }
    let (line, later) = lines.split_first()?;
    match block_start(nests, Items::All, line, later) {
        BlockStart::Paragraph => Some(paragraph_more(nests, later) + 1),
        _ => None,
    }
}
