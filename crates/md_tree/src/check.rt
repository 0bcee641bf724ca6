// Whether events are those of a tree.
ghost use Rattle.std.specs.Prelude.{◌≡◌, IfOk, is_some};
ghost use Rattle.md_tree.specs.Parse.{same_end, tree_of};

use crate::event::{Event, TagEnd};
use crate::place::Place;
use std::alloc::{AllocError, Global};
use term_text::Stack;

/// An open level: its end, and the place behind it.
#[derive(Clone, Copy)]
struct Open {
    end: TagEnd,
    after: Place,
}

/// Whether the events are those of a good tree.
pub fn well_formed(alloc: Global, events: &[Event<'_>]) -> Result<bool, AllocError>
    ensures { IfOk result (λ answer. answer ≡ is_some (tree_of events.now)) }
{
    let mut open = Stack::new(alloc);
    let mut place = Place::document();
    for event in events {
        match event {
            Event::Start(tag) => {
                if !place.may_stand(tag) {
                    return Ok(false);
                }
                open.push(Open {
                    end: tag.end(),
                    after: place.after(tag),
                })?;
                place = place.inside(tag);
            }
            Event::End(end) => {
                let Some(level) = open.pop() else {
                    return Ok(false);
                };
                if !place.may_end() || !is_same_end(level.end, *end) {
                    return Ok(false);
                }
                place = level.after;
            }
            leaf => {
                if !place.may_hold(leaf) {
                    return Ok(false);
                }
                place = place.after_leaf();
            }
        }
    }
    Ok(open.is_empty() && place.may_end())
}

fn is_same_end(a: TagEnd, b: TagEnd) -> bool
    ensures { result ≡ same_end a b }
{
    a == b
}
