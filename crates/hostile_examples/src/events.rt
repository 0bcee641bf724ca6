//! Deep trees of events that a program made itself.
use md_events::{Event, Tag, TagEnd, well_formed};
use md_text::{NoHighlight, Options, from_events};
use std::alloc::{AllocError, Global};
use std::test::Fail;

/// How deep the elements stand in one another.
const DEPTH: usize = 400_000;

/// A thematic break in so many quotes.
fn quotes(alloc: Global) -> Result<Vec<Event<'static>>, AllocError> {
    let mut events = Vec::new(alloc);
    for _ in 0..DEPTH {
        events.push(Event::Start(Tag::BlockQuote(None)))?;
    }
    events.push(Event::Rule)?;
    for _ in 0..DEPTH {
        events.push(Event::End(TagEnd::BlockQuote(None)))?;
    }
    Ok(events)
}

#[test]
fn deep_quotes_are_one_line(rt: HostRuntime) -> Result<(), Fail> {
    let alloc = rt.alloc();
    let events = quotes(alloc)?;
    assert!(rt; well_formed(alloc, events.as_slice())?);
    let text = from_events(alloc, events.as_slice(), &Options::default(), &NoHighlight)?;
    assert_eq!(rt; text.lines().len(), 1);
    // a mark for each quote, a blank and the dashes
    assert_eq!(rt;
        text.lines().first().map(|line| line.spans().len()),
        Some(DEPTH + 2)
    );
    Ok(())
}

#[test]
fn a_deep_tree_that_lacks_an_end_is_refused(rt: HostRuntime) -> Result<(), Fail> {
    let alloc = rt.alloc();
    let mut events = quotes(alloc)?;
    let last = events.pop();
    assert!(rt; matches!(last, Some(Event::End(TagEnd::BlockQuote(None)))));
    assert!(rt; !well_formed(alloc, events.as_slice())?);
    Ok(())
}
