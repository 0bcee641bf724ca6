use crate::drawn::drawn;
use crate::{ImageFallback, NoHighlight, Options, RenderError, from_events};
use md_events::{Alignments, Event, Tag, TagEnd, well_formed};
use std::alloc::{AllocError, Global};
use std::process::Abort;
use std::test::Fail;
use term_text::CowStr;

fn text<'a>(text: &'a str) -> Event<'a> {
    Event::Text(CowStr::borrowed(text))
}

fn link<'a>() -> Event<'a> {
    Event::Start(Tag::Link {
        dest_url: CowStr::borrowed("u"),
    })
}

/// What events lay out, as it is shown; `well_formed` says of them that they have a tree.
fn shown(rt: &impl Abort, alloc: Global, events: &[Event]) -> Result<String, Fail> {
    assert!(rt; well_formed(alloc, events)?);
    let text = from_events(alloc, events, &Options::default(), &NoHighlight)?;
    Ok(drawn(alloc, &text)?)
}

/// Events of no good tree: both calls say so.
fn refused(rt: &impl Abort, alloc: Global, events: &[Event]) -> Result<(), Fail> {
    assert!(rt; !well_formed(alloc, events)?);
    let answer = from_events(alloc, events, &Options::default(), &NoHighlight);
    assert!(rt; matches!(answer, Err(RenderError::BadEvents)));
    Ok(())
}

#[test]
fn events_of_small_trees_are_drawn(rt: HostRuntime) -> Result<(), Fail> {
    let alloc = rt.alloc();
    assert_eq!(rt; shown(&rt, alloc, &[])?.as_str(), "");
    let paragraph = [Event::Start(Tag::Paragraph), Event::End(TagEnd::Paragraph)];
    assert_eq!(rt; shown(&rt, alloc, &paragraph)?.as_str(), "|\n");
    let list = [
        Event::Start(Tag::List(Some(1))),
        Event::End(TagEnd::List(true)),
    ];
    assert_eq!(rt; shown(&rt, alloc, &list)?.as_str(), "");
    Ok(())
}

#[test]
fn events_that_no_text_has_are_drawn(rt: HostRuntime) -> Result<(), Fail> {
    let events = [
        Event::Start(Tag::List(Some(18446744073709551615))),
        Event::Start(Tag::Item),
        Event::End(TagEnd::Item),
        Event::End(TagEnd::List(true)),
        Event::Start(Tag::Paragraph),
        link(),
        Event::End(TagEnd::Link),
        Event::End(TagEnd::Paragraph),
    ];
    assert_eq!(rt;
        shown(&rt, rt.alloc(), &events)?.as_str(),
        "|18446744073709551615. <marker>|\n|\n| (|u<link>|)|\n"
    );
    Ok(())
}

#[test]
fn ends_belong_to_their_starts(rt: HostRuntime) -> Result<(), Fail> {
    let alloc = rt.alloc();
    refused(&rt, alloc, &[Event::End(TagEnd::Paragraph)])?;
    refused(&rt, alloc, &[Event::Start(Tag::Paragraph)])?;
    let crossed = [
        Event::Start(Tag::Paragraph),
        Event::Start(Tag::Emphasis),
        Event::End(TagEnd::Paragraph),
        Event::End(TagEnd::Emphasis),
    ];
    refused(&rt, alloc, &crossed)?;
    let ordered = [
        Event::Start(Tag::List(Some(1))),
        Event::End(TagEnd::List(false)),
    ];
    refused(&rt, alloc, &ordered)?;
    Ok(())
}

#[test]
fn elements_stand_where_they_may(rt: HostRuntime) -> Result<(), Fail> {
    let alloc = rt.alloc();
    refused(
        &rt,
        alloc,
        &[Event::Start(Tag::Item), Event::End(TagEnd::Item)],
    )?;
    refused(&rt, alloc, &[text("a")])?;
    let late = [
        Event::Start(Tag::Paragraph),
        text("a"),
        Event::TaskListMarker(true),
        Event::End(TagEnd::Paragraph),
    ];
    refused(&rt, alloc, &late)?;
    let numbers = [
        Event::Start(Tag::List(Some(18446744073709551615))),
        Event::Start(Tag::Item),
        Event::End(TagEnd::Item),
        Event::Start(Tag::Item),
        Event::End(TagEnd::Item),
        Event::End(TagEnd::List(true)),
    ];
    refused(&rt, alloc, &numbers)?;
    Ok(())
}

#[test]
fn no_link_stands_in_a_link(rt: HostRuntime) -> Result<(), Fail> {
    let events = [
        Event::Start(Tag::Paragraph),
        link(),
        Event::Start(Tag::Image {
            dest_url: CowStr::borrowed("v"),
        }),
        link(),
        Event::End(TagEnd::Link),
        Event::End(TagEnd::Image),
        Event::End(TagEnd::Link),
        Event::End(TagEnd::Paragraph),
    ];
    refused(&rt, rt.alloc(), &events)
}

fn image<'a>(dest_url: &'a str) -> Event<'a> {
    Event::Start(Tag::Image {
        dest_url: CowStr::borrowed(dest_url),
    })
}

/// A paragraph of `x`, an image of `a` to `u`, an image of nothing to `v`, and one of nothing to nothing.
fn images(alloc: Global) -> Result<Vec<Event<'static>>, AllocError> {
    let mut events = Vec::new(alloc);
    events.push(Event::Start(Tag::Paragraph))?;
    events.push(text("x"))?;
    events.push(image("u"))?;
    events.push(text("a"))?;
    events.push(Event::SoftBreak)?;
    events.push(Event::Code(CowStr::borrowed("c")))?;
    events.push(Event::End(TagEnd::Image))?;
    events.push(image("v"))?;
    events.push(Event::End(TagEnd::Image))?;
    events.push(image(""))?;
    events.push(Event::End(TagEnd::Image))?;
    events.push(Event::End(TagEnd::Paragraph))?;
    Ok(events)
}

#[test]
fn images_show_what_the_options_say(rt: HostRuntime) -> Result<(), Fail> {
    let alloc = rt.alloc();
    let events = images(alloc)?;
    let rows = [
        (
            ImageFallback::AltText,
            "|x|[img] <script>|a<script>| <script>|c<?>|[img] <script>|v<script>|[img]<script>|\n",
        ),
        (
            ImageFallback::Url,
            "|x|[img] <script>|u<script>|[img] <script>|v<script>|[img]<script>|\n",
        ),
        (
            ImageFallback::AltTextAndUrl,
            "|x|[img] <script>|a<script>| <script>|c<?>| (u)<script>|[img] <script>|v<script>|[img]<script>|\n",
        ),
    ];
    for (fallback, want) in rows {
        let options = Options::default().image_fallback(fallback);
        let text = from_events(alloc, &events, &options, &NoHighlight)?;
        assert_eq!(rt; drawn(alloc, &text)?.as_str(), want);
    }
    Ok(())
}

#[test]
fn images_stand_in_images_and_cells(rt: HostRuntime) -> Result<(), Fail> {
    let alloc = rt.alloc();
    let nested = [
        Event::Start(Tag::Paragraph),
        image("u"),
        text("a"),
        image("v"),
        link(),
        text("b"),
        Event::End(TagEnd::Link),
        Event::End(TagEnd::Image),
        image("w"),
        Event::End(TagEnd::Image),
        Event::End(TagEnd::Image),
        Event::End(TagEnd::Paragraph),
    ];
    assert_eq!(rt;
        shown(&rt, alloc, &nested)?.as_str(),
        "|[img] <script>|a<script>|[img] <script>|b<?>| (|u<link>|)|[img] <script>|w<script>|\n"
    );
    let table = [
        Event::Start(Tag::Table(Alignments::new(alloc))),
        Event::Start(Tag::TableHead),
        Event::Start(Tag::TableCell),
        text("x"),
        image("v"),
        text("b"),
        Event::End(TagEnd::Image),
        Event::InlineMath(CowStr::borrowed("m")),
        Event::DisplayMath(CowStr::borrowed("n")),
        Event::FootnoteReference(CowStr::borrowed("f")),
        Event::InlineHtml(CowStr::borrowed("<i>")),
        Event::End(TagEnd::TableCell),
        Event::End(TagEnd::TableHead),
        Event::End(TagEnd::Table),
    ];
    assert_eq!(rt;
        shown(&rt, alloc, &table)?.as_str(),
        "|┌────────────────────────┐<border>|\n|│<border>| <h2>|x<h2>|[img] <?>|b<?>|$m$<?>|$$n$$<h2>|[f]<?>|<i><?>| <h2>|│<border>|\n|├────────────────────────┤<border>|\n|└────────────────────────┘<border>|\n"
    );
    Ok(())
}

#[test]
fn notes_and_math_have_lines_of_their_own(rt: HostRuntime) -> Result<(), Fail> {
    let alloc = rt.alloc();
    let footnote = [
        Event::Start(Tag::FootnoteDefinition(CowStr::borrowed("1"))),
        Event::Start(Tag::Paragraph),
        text("a"),
        Event::FootnoteReference(CowStr::borrowed("2")),
        Event::End(TagEnd::Paragraph),
        Event::Start(Tag::Paragraph),
        text("b"),
        Event::End(TagEnd::Paragraph),
        Event::End(TagEnd::FootnoteDefinition),
    ];
    assert_eq!(rt;
        shown(&rt, alloc, &footnote)?.as_str(),
        "<dim>|[1]: <dim>|a|[2]<script>|\n<dim>|\n<dim>|b|\n"
    );
    let definitions = [
        Event::Start(Tag::DefinitionList),
        Event::Start(Tag::DefinitionListTitle),
        text("t"),
        Event::End(TagEnd::DefinitionListTitle),
        Event::Start(Tag::DefinitionListDefinition),
        Event::Start(Tag::Paragraph),
        text("d"),
        Event::End(TagEnd::Paragraph),
        Event::Start(Tag::Paragraph),
        text("e"),
        Event::End(TagEnd::Paragraph),
        Event::End(TagEnd::DefinitionListDefinition),
        Event::Start(Tag::DefinitionListDefinition),
        Event::End(TagEnd::DefinitionListDefinition),
        Event::End(TagEnd::DefinitionList),
    ];
    assert_eq!(rt;
        shown(&rt, alloc, &definitions)?.as_str(),
        "|t<bold>|\n|: |d|\n|\n|e|\n|: |\n"
    );
    let others = [
        Event::Start(Tag::MetadataBlock),
        text("a"),
        Event::SoftBreak,
        text("b"),
        Event::End(TagEnd::MetadataBlock),
        Event::Start(Tag::HtmlBlock),
        Event::Html(CowStr::borrowed("<p>\nx")),
        Event::Html(CowStr::borrowed("y\n")),
        Event::End(TagEnd::HtmlBlock),
        Event::Start(Tag::Paragraph),
        Event::InlineMath(CowStr::borrowed("m")),
        Event::DisplayMath(CowStr::borrowed("n\no")),
        Event::InlineHtml(CowStr::borrowed("<i>")),
        Event::End(TagEnd::Paragraph),
    ];
    assert_eq!(rt;
        shown(&rt, alloc, &others)?.as_str(),
        "<metadata>|---|\n<metadata>|a|\n<metadata>|b|\n<metadata>|---|\n|\n|<p><dim>|\n<dim>|xy<dim>|\n|\n|$m$<math>|$$n<display>|\n|o$$<display>|\n|<i><dim>|\n"
    );
    Ok(())
}
