// Events written with their texts: texts that touch are written as one.
ghost use Rattle.std.specs.Prelude.{◌≡◌, ◌++◌, ◌∷◌, ◌≤◌, List, None, OnOk};
ghost use Rattle.md_tree.specs.declared.event.Event.{Event};
ghost use Rattle.md_leaves.specs.Cuts.{IsText};
ghost use Rattle.md_runs.specs.Texts.{longer};
ghost use Rattle.md_runs.specs.Marks.{Step, At, An, joined, text_first};
ghost use Rattle.md_runs.specs.Facts.{IsPen};

use crate::source::{Cursor, Source};
use md_tree::Event;
use std::alloc::AllocError;
use term_text::CowStr;

/// A place in the source: the offsets of its first byte and of the byte after its last.
#[derive(Clone, Copy)]
pub struct Place {
    pub from: usize,
    pub to: usize,
}

/// A text that is kept while further texts may touch it, and the line that was written last.
#[derive(Clone, Copy)]
pub struct Pen {
    pub pending: Option<Place>,
    pub cursor: Cursor,
}

impl Pen {
    /// A pen at the first line, which keeps no text.
    pub fn new() -> Pen
        ensures pending { result.pending ≡ None }
        ensures line { result.cursor.line ≡ 0 }
        ensures start { result.cursor.start ≡ 0 }
    {
        Pen {
            pending: None,
            cursor: Cursor::first(),
        }
    }
}

/// A text and the one behind it as one, if they touch.
fn longer(before: Option<Place>, place: Place) -> Option<Place>
    ensures { result ≡ longer before place }
{
    match before {
        Some(before) if before.to == place.from => Some(Place {
            from: before.from,
            to: place.to,
        }),
        _ => None,
    }
}

/// Appends a text, or keeps it while further texts may touch it.
pub fn put_text<'a>(
    source: &Source<'a, '_>,
    place: Place,
    pen: &mut Pen,
    out: &mut Vec<Event<'a>>,
) -> Result<(), AllocError>
    requires place { IsText source.now.text place.from place.to }
    requires pen { IsPen source.now pen.old }
    ensures written { OnOk result ((ss : List Step) → out.new.items ++ joined source.now.text pen.new.pending ss ≡ out.old.items ++ joined source.now.text pen.old.pending (At place ∷ ss)) }
    ensures pen { OnOk result (IsPen source.now pen.new) }
{
    match longer(pen.pending, place) {
        Some(text) => {
            pen.pending = Some(text);
            Ok(())
        }
        None => {
            flush(source, pen, out)?;
            pen.pending = Some(place);
            Ok(())
        }
    }
}

/// Appends the text that was kept.
pub fn flush<'a>(
    source: &Source<'a, '_>,
    pen: &mut Pen,
    out: &mut Vec<Event<'a>>,
) -> Result<(), AllocError>
    requires pen { IsPen source.now pen.old }
    ensures written { OnOk result ((es : List Event) → out.new.items ++ es ≡ out.old.items ++ text_first source.now.text pen.old.pending es) }
    ensures pending { OnOk result (pen.new.pending ≡ None) }
    ensures pen { OnOk result (IsPen source.now pen.new) }
{
    if let Some(place) = pen.pending {
        let text = source.text_at(place.from, place.to, &mut pen.cursor);
        out.push(Event::Text(CowStr::borrowed(text)))?;
        pen.pending = None;
    }
    Ok(())
}

/// Appends the text that was kept before an event, and goes on to the line of a place, so that what is looked for from
/// there on is near.
#[tactic(auto, unfolding(crate::specs::Marks::joined))]
pub fn flush_to<'a>(
    source: &Source<'a, '_>,
    place: usize,
    pen: &mut Pen,
    out: &mut Vec<Event<'a>>,
) -> Result<(), AllocError>
    requires pen { IsPen source.now pen.old }
    ensures written { OnOk result ((e : Event) → (ss : List Step) → out.new.items ++ joined source.now.text pen.new.pending (An e ∷ ss) ≡ out.old.items ++ joined source.now.text pen.old.pending (An e ∷ ss)) }
    ensures pen { OnOk result (IsPen source.now pen.new) }
{
    flush(source, pen, out)?;
    pen.cursor = source.line_at(place, pen.cursor);
    Ok(())
}

/// Appends an event.
#[tactic(auto, unfolding(crate::specs::Marks::joined))]
pub fn put_event<'a>(
    source: &Source<'a, '_>,
    event: Event<'a>,
    pen: &mut Pen,
    out: &mut Vec<Event<'a>>,
) -> Result<(), AllocError>
    requires pen { IsPen source.now pen.old }
    ensures written { OnOk result ((ss : List Step) → out.new.items ++ joined source.now.text pen.new.pending ss ≡ out.old.items ++ joined source.now.text pen.old.pending (An event.entry ∷ ss)) }
    ensures pen { OnOk result (IsPen source.now pen.new) }
{
    flush(source, pen, out)?;
    out.push(event)?;
    Ok(())
}
