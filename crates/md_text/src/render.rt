// From texts and events to lines.
ghost use Rattle.std.specs.Prelude.{◌≡◌, IfOk, IfErr, Some, None};
ghost use Rattle.std.specs.Option.{option_map};
ghost use Rattle.md_tree.specs.Parse.{tree_of};
ghost use Rattle.md_events.specs.Blocks.{tree};
ghost use Rattle.md_text.specs.Look.{look_of, default_look};
ghost use Rattle.md_text.specs.Layout.{document_lines};
ghost use Rattle.md_text.specs.State.{run, first_state};

use crate::error::RenderError;
use crate::highlight::{Highlighter, NoHighlight};
use crate::machine::Machine;
use crate::options::Options;
use md_events::{Event, read, well_formed};
use md_table::StyleSheet;
use std::alloc::{AllocError, Global};
use term_text::Text;

/// The lines that the tree of a Markdown text lays out, with the defaults and no highlighter. They are not wrapped: a page
/// (`Page::new`, `render_view`) does that, and a table takes the width that it needs (`Options::table_width` bounds it).
///
/// The only refusal is `Memory`.
pub fn from_str<'a>(alloc: Global, input: &'a str) -> Result<Text<'a>, RenderError>
    ensures lines { IfOk result (λ text. text ≡ document_lines default_look (tree input.now)) }
    ensures memory { IfErr result (λ e. e ≡ RenderError.Memory) }
{
    from_str_with_options(alloc, input, &Options::default(), &NoHighlight)
}

/// The lines that the tree of a Markdown text lays out, with these options and this highlighter.
///
/// The only refusal is `Memory`, also where it is the highlighter that finds none.
pub fn from_str_with_options<'a, S: StyleSheet, H: Highlighter>(
    alloc: Global,
    input: &'a str,
    options: &Options<S>,
    highlighter: &H,
) -> Result<Text<'a>, RenderError>
    ensures lines { IfOk result (λ text. text
        ≡ document_lines (look_of options.now S.sheet (H.known highlighter.now) (H.answer highlighter.now)) (tree input.now)) }
    ensures memory { IfErr result (λ e. e ≡ RenderError.Memory) }
{
    let events = read(alloc, input)?;
    let text = laid_out(alloc, events.as_slice(), options, highlighter)?;
    Ok(text)
}

/// The lines that events lay out, which a program made itself, with these options and this highlighter. The tree that has
/// these events may be of any depth.
///
/// `BadEvents` where no good tree has these events (`well_formed` tells), and else `Memory` is the only refusal.
pub fn from_events<'a, S: StyleSheet, H: Highlighter>(
    alloc: Global,
    events: &[Event<'a>],
    options: &Options<S>,
    highlighter: &H,
) -> Result<Text<'a>, RenderError>
    ensures lines { IfOk result (λ text. Some text
        ≡ option_map (document_lines (look_of options.now S.sheet (H.known highlighter.now) (H.answer highlighter.now))) (tree_of events.now)) }
    ensures bad { IfErr result (λ e. e ≡ RenderError.BadEvents → tree_of events.now ≡ None) }
{
    if !well_formed(alloc, events)? {
        return Err(RenderError::BadEvents);
    }
    let text = laid_out(alloc, events, options, highlighter)?;
    Ok(text)
}

/// The lines that the events lay out.
pub(crate) fn laid_out<'a, S: StyleSheet, H: Highlighter>(
    alloc: Global,
    events: &[Event<'a>],
    options: &Options<S>,
    highlighter: &H,
) -> Result<Text<'a>, AllocError>
    ensures { IfOk result (λ text. text
        ≡ (run (look_of options.now S.sheet (H.known highlighter.now) (H.answer highlighter.now)) events.now first_state).lines) }
{
    let mut machine = Machine::new(alloc);
    machine.run(options, highlighter, events)?;
    machine.into_text()
}
