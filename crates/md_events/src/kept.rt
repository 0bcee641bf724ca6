// Lines that are kept as they are: those of code and of HTML.
ghost use Rattle.std.specs.Prelude.{◌≡◌, ◌++◌, OnOk};
ghost use Rattle.md_tree.specs.Tree.{Empty, events};
ghost use Rattle.md_rules.specs.Code.{text_from};
ghost use Rattle.md_events.specs.Kept.{kept_line, kept_lines, kept_then, leaf_of};

use md_lines::Line;
use md_rules::text_from;
use md_tree::Event;
use std::alloc::{AllocError, Global};
use term_text::CowStr;

/// As what lines are kept.
#[derive(Clone, Copy)]
pub(crate) enum Kept {
    /// As code and metadata are.
    Text,
    Html,
}

impl Kept {
    /// A part of such a line.
    fn leaf_of<'a>(self, text: CowStr<'a>) -> Event<'a>
        ensures { result ≡ leaf_of self text.entry }
    {
        match self {
            Kept::Text => Event::Text(text),
            Kept::Html => Event::Html(text),
        }
    }
}

/// Appends the events of lines that are kept so, which lose so many columns.
pub(crate) fn write_kept_lines<'a>(
    alloc: Global,
    kept: Kept,
    column: u128,
    lines: &[Line<'a>],
    out: &mut Vec<Event<'a>>,
) -> Result<(), AllocError>
    ensures { OnOk result (out.new.items ≡ out.old.items ++ events (kept_lines kept column lines.now)) }
{
    let mut at = 0;
    while at < lines.len() {
        write_kept_line(alloc, kept, column, &lines[at], out)?;
        at += 1;
    }
    Ok(())
}

/// Appends the text of a line that is kept so, if it is not empty, and a line end.
fn write_kept_line<'a>(
    alloc: Global,
    kept: Kept,
    column: u128,
    line: &Line<'a>,
    out: &mut Vec<Event<'a>>,
) -> Result<(), AllocError>
    ensures { OnOk result (out.new.items ≡ out.old.items ++ events (kept_line kept column line.now Empty)) }
{
    write_kept(alloc, kept, column, line, out)?;
    out.push(kept.leaf_of(CowStr::borrowed("\n")))?;
    Ok(())
}

/// Appends the text of a line from a column on, if it is not empty.
pub(crate) fn write_kept<'a>(
    alloc: Global,
    kept: Kept,
    column: u128,
    line: &Line<'a>,
    out: &mut Vec<Event<'a>>,
) -> Result<(), AllocError>
    ensures { OnOk result (out.new.items ≡ out.old.items ++ events (kept_then kept (text_from column line.now) Empty)) }
{
    let text = text_from(alloc, column, line)?;
    if !text.as_str().is_empty() {
        out.push(kept.leaf_of(text))?;
    }
    Ok(())
}
