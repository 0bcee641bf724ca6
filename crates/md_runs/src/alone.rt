// Leaves by themselves.
ghost use Rattle.std.specs.Prelude.{◌≡◌, ◌++◌, ◌∷◌, List, IfOk, OnOk};
ghost use Rattle.std.specs.List.{slice_range, list_any};
ghost use Rattle.md_tree.specs.declared.event.Event.{Event};
ghost use Rattle.md_tree.specs.declared.event.Event.TheVariants as event;
ghost use Rattle.md_leaves.specs.declared.leaf.Lone.TheVariants as lone;
ghost use Rattle.md_leaves.specs.Cuts.{IsPlace, IsLone, IsLeaf, AreLeaves};
ghost use Rattle.md_runs.specs.Code.{code_text};
ghost use Rattle.md_runs.specs.Marks.{Step, An, alone_steps, joined, lone_steps};
ghost use Rattle.md_runs.specs.Plain.{begins_element, leaf_begins_element, plain_steps};
ghost use Rattle.md_runs.specs.Facts.{IsPen};

use crate::code::{code_at, text_at};
use crate::element::{close_group, open_group};
use crate::pen::{Pen, Place, flush_to, put_event, put_text};
use crate::source::Source;
use md_leaves::{Kind, Leaf, Lone, Target};
use md_tree::Event;
use std::alloc::{AllocError, Global};
use term_text::CowStr;

/// Whether a link, an image or a pair may begin at one of the leaves.
pub fn has_beginning(leaves: &[Leaf]) -> bool
    ensures { result ≡ list_any leaf_begins_element leaves.now }
{
    leaves.iter().any(|leaf| leaf_begins_element(leaf))
}

fn leaf_begins_element(leaf: &Leaf) -> bool
    ensures { result ≡ leaf_begins_element leaf.now }
{
    begins_element(leaf.kind)
}

/// Whether a link, an image or a pair may begin at a leaf of a kind.
fn begins_element(kind: Kind) -> bool
    ensures { result ≡ begins_element kind }
{
    match kind {
        Kind::Opener { .. } => true,
        Kind::Run { opens, .. } => opens,
        _ => false,
    }
}

/// Writes leaves each by itself, in a link or not.
#[tactic(auto, unfolding(crate::specs::Plain::plain_steps))]
pub fn write_plain<'a>(
    alloc: Global,
    source: &Source<'a, '_>,
    leaves: &[Leaf],
    in_link: bool,
    pen: &mut Pen,
    out: &mut Vec<Event<'a>>,
) -> Result<(), AllocError>
    requires leaves { AreLeaves source.now.text leaves.now }
    requires pen { IsPen source.now pen.old }
    ensures written { OnOk result ((ss : List Step) → out.new.items ++ joined source.now.text pen.new.pending ss ≡ out.old.items ++ joined source.now.text pen.old.pending (plain_steps source.now.text in_link leaves.now ++ ss)) }
    ensures pen { OnOk result (IsPen source.now pen.new) }
{
    let mut at = 0;
    while at < leaves.len() {
        write_alone(alloc, source, leaves[at], in_link, pen, out)?;
        at += 1;
    }
    Ok(())
}

/// Writes a leaf by itself, in a link or not.
pub fn write_alone<'a>(
    alloc: Global,
    source: &Source<'a, '_>,
    leaf: Leaf,
    in_link: bool,
    pen: &mut Pen,
    out: &mut Vec<Event<'a>>,
) -> Result<(), AllocError>
    requires leaf { IsLeaf source.now.text leaf }
    requires pen { IsPen source.now pen.old }
    ensures written { OnOk result ((ss : List Step) → out.new.items ++ joined source.now.text pen.new.pending ss ≡ out.old.items ++ joined source.now.text pen.old.pending (alone_steps source.now.text in_link leaf.kind leaf.from leaf.to ++ ss)) }
    ensures pen { OnOk result (IsPen source.now pen.new) }
{
    match leaf.kind {
        Kind::Lone(lone) => write_lone(alloc, source, lone, leaf.from, leaf.to, in_link, pen, out),
        Kind::Opener { .. } | Kind::Closer { .. } | Kind::Run { .. } => {
            let place = Place {
                from: leaf.from,
                to: leaf.to,
            };
            put_text(source, place, pen, out)
        }
    }
}

/// Writes a leaf that stands for itself at a place, in a link or not.
fn write_lone<'a>(
    alloc: Global,
    source: &Source<'a, '_>,
    lone: Lone,
    from: usize,
    to: usize,
    in_link: bool,
    pen: &mut Pen,
    out: &mut Vec<Event<'a>>,
) -> Result<(), AllocError>
    requires leaf { IsLone source.now.text lone from to }
    requires pen { IsPen source.now pen.old }
    ensures written { OnOk result ((ss : List Step) → out.new.items ++ joined source.now.text pen.new.pending ss ≡ out.old.items ++ joined source.now.text pen.old.pending (lone_steps source.now.text in_link lone from to ++ ss)) }
    ensures pen { OnOk result (IsPen source.now pen.new) }
{
    match lone {
        Lone::Text => put_text(source, Place { from, to }, pen, out),
        Lone::Escape => {
            let from = from + 1;
            put_text(source, Place { from, to }, pen, out)
        }
        Lone::SoftBreak => put_event(source, Event::SoftBreak, pen, out),
        Lone::HardBreak => put_event(source, Event::HardBreak, pen, out),
        Lone::Code { ticks } => {
            let to = to.saturating_sub(ticks);
            write_code(alloc, source, from + ticks, to, pen, out)
        }
        Lone::DisplayMath => {
            let text = text_between(alloc, source, from + 2, to.saturating_sub(2), pen, out)?;
            put_event(source, Event::DisplayMath(text), pen, out)
        }
        Lone::InlineMath => {
            let text = text_between(alloc, source, from + 1, to.saturating_sub(1), pen, out)?;
            put_event(source, Event::InlineMath(text), pen, out)
        }
        Lone::Address => write_address(source, from, to, in_link, pen, out),
        Lone::Html => {
            let text = text_between(alloc, source, from, to, pen, out)?;
            put_event(source, Event::InlineHtml(text), pen, out)
        }
        Lone::FootnoteReference => {
            let text = text_between(alloc, source, from + 2, to.saturating_sub(1), pen, out)?;
            put_event(source, Event::FootnoteReference(text), pen, out)
        }
    }
}

/// Writes code, from the place between its backticks.
fn write_code<'a>(
    alloc: Global,
    source: &Source<'a, '_>,
    from: usize,
    to: usize,
    pen: &mut Pen,
    out: &mut Vec<Event<'a>>,
) -> Result<(), AllocError>
    requires place { IsPlace source.now.text from to }
    requires pen { IsPen source.now pen.old }
    ensures written { OnOk result ((ss : List Step) → out.new.items ++ joined source.now.text pen.new.pending ss ≡ out.old.items ++ joined source.now.text pen.old.pending (An (event.Code (code_text (slice_range source.now.text from to))) ∷ ss)) }
    ensures pen { OnOk result (IsPen source.now pen.new) }
{
    flush_to(source, from, pen, out)?;
    let text = code_at(alloc, source, from, to, &mut pen.cursor)?;
    put_event(source, Event::Code(text), pen, out)?;
    Ok(())
}

/// Writes an address at a place, with its angle brackets: a link, or in a link text.
fn write_address<'a>(
    source: &Source<'a, '_>,
    from: usize,
    to: usize,
    in_link: bool,
    pen: &mut Pen,
    out: &mut Vec<Event<'a>>,
) -> Result<(), AllocError>
    requires leaf { IsLone source.now.text lone.Address from to }
    requires pen { IsPen source.now pen.old }
    ensures written { OnOk result ((ss : List Step) → out.new.items ++ joined source.now.text pen.new.pending ss ≡ out.old.items ++ joined source.now.text pen.old.pending (lone_steps source.now.text in_link lone.Address from to ++ ss)) }
    ensures pen { OnOk result (IsPen source.now pen.new) }
{
    if in_link {
        return put_text(source, Place { from, to }, pen, out);
    }
    let target = Target {
        from: from + 1,
        to: to.saturating_sub(1),
    };
    let text = Place {
        from: target.from,
        to: target.to,
    };
    open_group(source, from, false, target, pen, out)?;
    put_text(source, text, pen, out)?;
    close_group(source, false, pen, out)
}

/// The text of an event that will be written next; the text that was kept is written before it.
#[tactic(auto, unfolding(crate::specs::Marks::joined))]
fn text_between<'a>(
    alloc: Global,
    source: &Source<'a, '_>,
    from: usize,
    to: usize,
    pen: &mut Pen,
    out: &mut Vec<Event<'a>>,
) -> Result<CowStr<'a>, AllocError>
    requires place { IsPlace source.now.text from to }
    requires pen { IsPen source.now pen.old }
    ensures text { IfOk result (λ text. text ≡ slice_range source.now.text from to) }
    ensures written { OnOk result ((e : Event) → (ss : List Step) → out.new.items ++ joined source.now.text pen.new.pending (An e ∷ ss) ≡ out.old.items ++ joined source.now.text pen.old.pending (An e ∷ ss)) }
    ensures pen { OnOk result (IsPen source.now pen.new) }
{
    flush_to(source, from, pen, out)?;
    let text = text_at(alloc, source, from, to, &mut pen.cursor)?;
    Ok(text)
}
