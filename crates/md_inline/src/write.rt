// The inlines of the lines of a source.
ghost use Rattle.std.specs.Prelude.{◌≡◌, ◌++◌, string_bytes, IfOk, OnOk, map};
ghost use Rattle.std.specs.List.{join_with_byte};
ghost use Rattle.md_lines.specs.Lines.{body_of};
ghost use Rattle.md_tree.specs.Tree.{events};
ghost use Rattle.md_runs.specs.Source.{source_of};
ghost use Rattle.md_inline.specs.Inlines.{inlines, with_line_end};

use md_leaves::cut_leaves;
use md_lines::{Line, without_end_blanks};
use md_runs::{Source, write_leaves};
use md_tree::Event;
use std::alloc::{AllocError, Global};

/// Appends the events of the inlines of a source, which has these lines; the texts borrow from them.
///
/// After want of memory some of the events may have been appended.
pub fn write_inlines<'a>(
    alloc: Global,
    lines: &[Line<'a>],
    out: &mut Vec<Event<'a>>,
) -> Result<(), AllocError>
    ensures { OnOk result (out.new.items ≡ out.old.items ++ events (inlines (map body_of lines.now))) }
{
    if lines.len() == 1 {
        let line = &lines[0];
        write_source(alloc, lines, without_end_blanks(line.body), out)
    } else {
        let text = joined(alloc, lines)?;
        write_source(alloc, lines, without_end_blanks(text.as_str()), out)?;
        Ok(())
    }
}

/// Appends the events of the inlines of a source, which is this text.
fn write_source<'a>(
    alloc: Global,
    lines: &[Line<'a>],
    text: &str,
    out: &mut Vec<Event<'a>>,
) -> Result<(), AllocError>
    requires { text.now ≡ source_of (map body_of lines.now) }
    ensures { OnOk result (out.new.items ≡ out.old.items ++ events (inlines (map body_of lines.now))) }
{
    let leaves = cut_leaves(alloc, text)?;
    let source = Source::new(lines, text);
    write_leaves(alloc, &source, leaves.as_slice(), out)?;
    Ok(())
}

/// The bodies of the lines with LF between each two.
fn joined(alloc: Global, lines: &[Line]) -> Result<String, AllocError>
    ensures { IfOk result (λ text. string_bytes text ≡ join_with_byte 10 (map body_of lines.now)) }
{
    let mut text = String::with_capacity(alloc, joined_length(lines))?;
    let mut at = 0;
    while at < lines.len() {
        push_line(&lines[at], at + 1 == lines.len(), &mut text)?;
        at += 1;
    }
    Ok(text)
}

/// How many bytes the bodies and their line ends are, or the greatest `usize` where they are more.
fn joined_length(lines: &[Line]) -> usize {
    let mut length = 0usize;
    for line in lines {
        length = length.saturating_add(line.body.len()).saturating_add(1);
    }
    length
}

/// Appends the body of a line, and LF if it is not the last.
fn push_line(line: &Line, is_last: bool, text: &mut String) -> Result<(), AllocError>
    ensures { OnOk result (string_bytes text.new ≡ string_bytes text.old ++ with_line_end line.now.body is_last) }
{
    text.push_str(line.body)?;
    if !is_last {
        text.push_str("\n")?;
    }
    Ok(())
}
