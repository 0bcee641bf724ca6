use fantailstand::{
    CowStr, Event, NoHighlight, Options, RenderError, Tag, TagEnd, Text, from_events,
};
use std::alloc::Global;

/// The lines of a list of two answers, numbered from 7 on.
fn answers(alloc: Global) -> Result<Text<'static>, RenderError> {
    let events = [
        Event::Start(Tag::List(Some(7))),
        Event::Start(Tag::Item),
        Event::Text(CowStr::borrowed("yes")),
        Event::End(TagEnd::Item),
        Event::Start(Tag::Item),
        Event::Text(CowStr::borrowed("no")),
        Event::End(TagEnd::Item),
        Event::End(TagEnd::List(true)),
    ];
    from_events(alloc, &events, &Options::default(), &NoHighlight)
}

use std::alloc::AllocError;
use std::test::Fail;

/// The texts of all spans, with a bar behind each line.
fn shown(alloc: Global, text: &Text) -> Result<String, AllocError> {
    let mut shown = String::new(alloc);
    for line in text.lines() {
        for span in line.spans() {
            shown.push_str(span.text())?;
        }
        shown.push_str("|")?;
    }
    Ok(shown)
}

#[test]
fn events_of_ones_own_are_laid_out(rt: HostRuntime) -> Result<(), Fail> {
    let alloc = rt.alloc();
    let text = answers(alloc)?;
    assert_eq!(rt; shown(alloc, &text)?.as_str(), "7. yes|8. no|");
    let lone = [Event::End(TagEnd::Item)];
    let refused = from_events(alloc, &lone, &Options::default(), &NoHighlight);
    assert!(rt; matches!(refused, Err(RenderError::BadEvents)));
    Ok(())
}
