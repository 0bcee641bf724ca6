// The starts and ends of elements.
ghost use Rattle.std.specs.Prelude.{◌≡◌, ◌++◌, [], ◌∷◌, List, OnOk};
ghost use Rattle.std.specs.List.{slice_range};
ghost use Rattle.md_tree.specs.declared.event.Event.TheVariants as event;
ghost use Rattle.md_tree.specs.Tree.{end_of};
ghost use Rattle.md_leaves.specs.Cuts.{IsText};
ghost use Rattle.md_runs.specs.Nest.{group_tag};
ghost use Rattle.md_runs.specs.Marks.{Step, An, closed, joined, opened, stress_closed, stress_opened};
ghost use Rattle.md_runs.specs.Facts.{IsPen};

use crate::pair::Pair;
use crate::pen::{Pen, flush_to, put_event};
use crate::source::Source;
use md_leaves::{Mark, Target};
use md_tree::{Event, Tag, TagEnd};
use std::alloc::AllocError;
use term_text::CowStr;

/// Writes what stands before the inside of a pair.
pub fn open<'a>(
    source: &Source<'a, '_>,
    pair: Pair,
    pen: &mut Pen,
    out: &mut Vec<Event<'a>>,
) -> Result<(), AllocError>
    requires { IsPen source.now pen.old }
    ensures written { OnOk result ((ss : List Step) → out.new.items ++ joined source.now.text pen.new.pending ss ≡ out.old.items ++ joined source.now.text pen.old.pending (opened pair.mark pair.size ++ ss)) }
    ensures pen { OnOk result (IsPen source.now pen.new) }
{
    match pair.mark {
        Mark::Star | Mark::Underscore => open_stress(source, pair.size, pen, out),
        Mark::Tilde => {
            if pair.size == 1 {
                put_event(source, Event::Start(Tag::Subscript), pen, out)
            } else {
                put_event(source, Event::Start(Tag::Strikethrough), pen, out)
            }
        }
        Mark::Caret => put_event(source, Event::Start(Tag::Superscript), pen, out),
    }
}

/// Writes the starts of emphasis and strong.
fn open_stress<'a>(
    source: &Source<'a, '_>,
    count: usize,
    pen: &mut Pen,
    out: &mut Vec<Event<'a>>,
) -> Result<(), AllocError>
    requires { IsPen source.now pen.old }
    ensures written { OnOk result ((ss : List Step) → out.new.items ++ joined source.now.text pen.new.pending ss ≡ out.old.items ++ joined source.now.text pen.old.pending (stress_opened count ++ ss)) }
    ensures pen { OnOk result (IsPen source.now pen.new) }
{
    if count == 1 {
        put_event(source, Event::Start(Tag::Emphasis), pen, out)
    } else if count == 2 {
        put_event(source, Event::Start(Tag::Strong), pen, out)
    } else {
        put_event(source, Event::Start(Tag::Strong), pen, out)?;
        put_event(source, Event::Start(Tag::Emphasis), pen, out)
    }
}

/// Writes what stands behind the inside of a pair.
pub fn close<'a>(
    source: &Source<'a, '_>,
    pair: Pair,
    pen: &mut Pen,
    out: &mut Vec<Event<'a>>,
) -> Result<(), AllocError>
    requires { IsPen source.now pen.old }
    ensures written { OnOk result ((ss : List Step) → out.new.items ++ joined source.now.text pen.new.pending ss ≡ out.old.items ++ joined source.now.text pen.old.pending (closed pair.mark pair.size ++ ss)) }
    ensures pen { OnOk result (IsPen source.now pen.new) }
{
    match pair.mark {
        Mark::Star | Mark::Underscore => close_stress(source, pair.size, pen, out),
        Mark::Tilde => {
            if pair.size == 1 {
                put_event(source, Event::End(TagEnd::Subscript), pen, out)
            } else {
                put_event(source, Event::End(TagEnd::Strikethrough), pen, out)
            }
        }
        Mark::Caret => put_event(source, Event::End(TagEnd::Superscript), pen, out),
    }
}

/// Writes the ends of emphasis and strong.
fn close_stress<'a>(
    source: &Source<'a, '_>,
    count: usize,
    pen: &mut Pen,
    out: &mut Vec<Event<'a>>,
) -> Result<(), AllocError>
    requires { IsPen source.now pen.old }
    ensures written { OnOk result ((ss : List Step) → out.new.items ++ joined source.now.text pen.new.pending ss ≡ out.old.items ++ joined source.now.text pen.old.pending (stress_closed count ++ ss)) }
    ensures pen { OnOk result (IsPen source.now pen.new) }
{
    if count == 1 {
        put_event(source, Event::End(TagEnd::Emphasis), pen, out)
    } else if count == 2 {
        put_event(source, Event::End(TagEnd::Strong), pen, out)
    } else {
        put_event(source, Event::End(TagEnd::Emphasis), pen, out)?;
        put_event(source, Event::End(TagEnd::Strong), pen, out)
    }
}

/// Writes the start of a link or an image with its opener at a place; its destination stands further on.
pub fn open_group<'a>(
    source: &Source<'a, '_>,
    opener: usize,
    is_image: bool,
    target: Target,
    pen: &mut Pen,
    out: &mut Vec<Event<'a>>,
) -> Result<(), AllocError>
    requires target { IsText source.now.text target.from target.to }
    requires pen { IsPen source.now pen.old }
    ensures written { OnOk result ((ss : List Step) → out.new.items ++ joined source.now.text pen.new.pending ss ≡ out.old.items ++ joined source.now.text pen.old.pending (An (event.Start (group_tag is_image (slice_range source.now.text target.from target.to))) ∷ ss)) }
    ensures pen { OnOk result (IsPen source.now pen.new) }
{
    flush_to(source, opener, pen, out)?;
    let mut further = pen.cursor;
    let text = source.text_at(target.from, target.to, &mut further);
    let tag = group_tag(is_image, CowStr::borrowed(text));
    put_event(source, Event::Start(tag), pen, out)?;
    Ok(())
}

/// An image or a link.
fn group_tag<'a>(is_image: bool, dest_url: CowStr<'a>) -> Tag<'a>
    ensures { result ≡ group_tag is_image dest_url.entry }
{
    if is_image {
        Tag::Image { dest_url }
    } else {
        Tag::Link { dest_url }
    }
}

/// Writes the end of a link or an image.
pub fn close_group<'a>(
    source: &Source<'a, '_>,
    is_image: bool,
    pen: &mut Pen,
    out: &mut Vec<Event<'a>>,
) -> Result<(), AllocError>
    requires { IsPen source.now pen.old }
    ensures written { OnOk result ((ss : List Step) → out.new.items ++ joined source.now.text pen.new.pending ss ≡ out.old.items ++ joined source.now.text pen.old.pending (An (event.End (end_of (group_tag is_image []))) ∷ ss)) }
    ensures pen { OnOk result (IsPen source.now pen.new) }
{
    if is_image {
        put_event(source, Event::End(TagEnd::Image), pen, out)
    } else {
        put_event(source, Event::End(TagEnd::Link), pen, out)
    }
}
