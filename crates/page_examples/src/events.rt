//! Each event and each element by example, written as words: what it lays out, and where it may not stand.
use md_events::{
    Alignments, Attrs, BlockQuoteKind, Classes, CodeBlockKind, Event, HeadingLevel, Tag,
    well_formed,
};
use md_text::{NoHighlight, Options, RenderError, from_events};
use std::alloc::{AllocError, Global};
use std::process::Abort;
use std::test::Fail;
use term_text::CowStr;

/// The spans of the lines that the events lay out, each behind a bar, with a bar and LF behind each line.
fn shown(alloc: Global, events: &[Event]) -> Result<String, Fail> {
    let text = from_events(alloc, events, &Options::default(), &NoHighlight)?;
    let mut shown = String::new(alloc);
    for line in text.lines() {
        for span in line.spans() {
            shown.push_str("|")?;
            shown.push_str(span.text())?;
        }
        shown.push_str("|\n")?;
    }
    Ok(shown)
}

/// Stops where the events are not refused.
fn refused(rt: &impl Abort, alloc: Global, events: &[Event]) -> Result<(), Fail> {
    assert!(rt; !well_formed(alloc, events)?);
    let answer = from_events(alloc, events, &Options::default(), &NoHighlight);
    assert!(rt; matches!(answer, Err(RenderError::BadEvents)));
    Ok(())
}

fn leaf_of(word: &str) -> Option<Event<'static>> {
    Some(match word {
        "text" => Event::Text(CowStr::borrowed("a")),
        "code" => Event::Code(CowStr::borrowed("c")),
        "html" => Event::Html(CowStr::borrowed("<p>")),
        "tag" => Event::InlineHtml(CowStr::borrowed("<i>")),
        "math" => Event::InlineMath(CowStr::borrowed("m")),
        "display" => Event::DisplayMath(CowStr::borrowed("n")),
        "reference" => Event::FootnoteReference(CowStr::borrowed("1")),
        "soft" => Event::SoftBreak,
        "hard" => Event::HardBreak,
        "rule" => Event::Rule,
        "task" => Event::TaskListMarker(true),
        _ => return None,
    })
}

fn heading(alloc: Global, level: HeadingLevel) -> Tag<'static> {
    Tag::Heading {
        level,
        id: None,
        classes: Classes::new(alloc),
        attrs: Attrs::new(alloc),
    }
}

fn inline_of(word: &str) -> Option<Tag<'static>> {
    Some(match word {
        "emphasis" => Tag::Emphasis,
        "strong" => Tag::Strong,
        "struck" => Tag::Strikethrough,
        "super" => Tag::Superscript,
        "sub" => Tag::Subscript,
        "link" => Tag::Link {
            dest_url: CowStr::borrowed("u"),
        },
        "image" => Tag::Image {
            dest_url: CowStr::borrowed("v"),
        },
        _ => return None,
    })
}

fn part_of(word: &str) -> Option<Tag<'static>> {
    Some(match word {
        "item" => Tag::Item,
        "title" => Tag::DefinitionListTitle,
        "description" => Tag::DefinitionListDefinition,
        "head" => Tag::TableHead,
        "row" => Tag::TableRow,
        "cell" => Tag::TableCell,
        _ => return None,
    })
}

fn block_of(alloc: Global, word: &str) -> Option<Tag<'static>> {
    Some(match word {
        "paragraph" => Tag::Paragraph,
        "h1" => heading(alloc, HeadingLevel::H1),
        "h2" => heading(alloc, HeadingLevel::H2),
        "quote" => Tag::BlockQuote(None),
        "alert" => Tag::BlockQuote(Some(BlockQuoteKind::Note)),
        "indented" => Tag::CodeBlock(CodeBlockKind::Indented),
        "fenced" => Tag::CodeBlock(CodeBlockKind::Fenced(CowStr::borrowed("x"))),
        "htmls" => Tag::HtmlBlock,
        "list" => Tag::List(None),
        "numbers" => Tag::List(Some(1)),
        "last" => Tag::List(Some(u64::MAX)),
        "footnote" => Tag::FootnoteDefinition(CowStr::borrowed("1")),
        "definitions" => Tag::DefinitionList,
        "table" => Tag::Table(Alignments::new(alloc)),
        "metadata" => Tag::MetadataBlock,
        _ => return None,
    })
}

fn tag_of(alloc: Global, word: &str) -> Option<Tag<'static>> {
    match inline_of(word) {
        Some(tag) => Some(tag),
        None => match part_of(word) {
            Some(tag) => Some(tag),
            None => block_of(alloc, word),
        },
    }
}

/// The event of a word: a leaf's or an element's name, or behind `/` the name of an element that ends.
fn event_of(alloc: Global, word: &str) -> Option<Event<'static>> {
    if let Some(name) = word.strip_prefix('/') {
        let tag = tag_of(alloc, name)?;
        return Some(Event::End(tag.end()));
    }
    match leaf_of(word) {
        Some(leaf) => Some(leaf),
        None => Some(Event::Start(tag_of(alloc, word)?)),
    }
}

/// The events of words with blanks between them; a word that names none is left out.
fn events_of(alloc: Global, words: &str) -> Result<Vec<Event<'static>>, AllocError> {
    let mut events = Vec::new(alloc);
    for word in words.split(' ') {
        if let Some(event) = event_of(alloc, word) {
            events.push(event)?;
        }
    }
    Ok(events)
}

#[test]
fn each_leaf_is_drawn(rt: HostRuntime) -> Result<(), Fail> {
    let rows = [
        ("paragraph text /paragraph", "|a|\n"),
        ("paragraph code /paragraph", "|c|\n"),
        ("htmls html /htmls", "|<p>|\n"),
        ("paragraph tag /paragraph", "|<i>|\n"),
        ("paragraph math /paragraph", "|$m$|\n"),
        ("paragraph display /paragraph", "|$$n$$|\n"),
        ("paragraph reference /paragraph", "|[1]|\n"),
        ("paragraph soft /paragraph", "| |\n"),
        ("paragraph hard /paragraph", "|\n|\n"),
        ("rule", "|---|\n"),
        ("list item task /item /list", "|- |[x] |\n"),
    ];
    for (words, want) in rows {
        let events = events_of(rt.alloc(), words)?;
        let drawn = shown(rt.alloc(), &events)?;
        assert_eq!(rt; drawn.as_str(), want, "{words:?}");
    }
    Ok(())
}

#[test]
fn each_inline_element_is_drawn(rt: HostRuntime) -> Result<(), Fail> {
    let rows = [
        ("emphasis", "|a|\n"),
        ("strong", "|a|\n"),
        ("struck", "|a|\n"),
        ("super", "|a|\n"),
        ("sub", "|a|\n"),
        ("link", "|a| (|u|)|\n"),
        ("image", "|[img] |a|\n"),
    ];
    for (name, want) in rows {
        let words = format!(in rt.alloc(); "paragraph {name} text /{name} /paragraph")?;
        let events = events_of(rt.alloc(), words.as_str())?;
        let drawn = shown(rt.alloc(), &events)?;
        assert_eq!(rt; drawn.as_str(), want, "{name:?}");
    }
    Ok(())
}

#[test]
fn each_block_and_its_parts_are_drawn(rt: HostRuntime) -> Result<(), Fail> {
    let rows = [
        ("paragraph /paragraph", "|\n"),
        ("h1 text /h1 h2 text /h2", "|# |a|\n|\n|## |a|\n"),
        ("quote paragraph text /paragraph /quote", "|>| |a|\n"),
        (
            "alert paragraph text /paragraph /alert",
            "|>| |\u{2139}\u{FE0F} Note|\n|>| |a|\n",
        ),
        ("indented text /indented", "|```|\n|a|\n|```|\n"),
        ("fenced text /fenced", "|```x|\n|a|\n|```|\n"),
        ("htmls html /htmls", "|<p>|\n"),
        ("list item text /item /list", "|- |a|\n"),
        (
            "numbers item text /item item /item /numbers",
            "|1. |a|\n|2. |\n",
        ),
        (
            "footnote paragraph text /paragraph /footnote",
            "|[1]: |a|\n",
        ),
        (
            "definitions title text /title description text /description /definitions",
            "|a|\n|: |a|\n",
        ),
        (
            "metadata text soft text /metadata",
            "|---|\n|a|\n|a|\n|---|\n",
        ),
    ];
    for (words, want) in rows {
        let events = events_of(rt.alloc(), words)?;
        let drawn = shown(rt.alloc(), &events)?;
        assert_eq!(rt; drawn.as_str(), want, "{words:?}");
    }
    Ok(())
}

#[test]
fn a_table_and_its_parts_are_drawn(rt: HostRuntime) -> Result<(), Fail> {
    let words = "table head cell text /cell /head row cell text /cell /row /table";
    let events = events_of(rt.alloc(), words)?;
    let drawn = shown(rt.alloc(), &events)?;
    assert_eq!(rt;
        drawn.as_str(),
        "|┌───┐|\n|│| |a| |│|\n|├───┤|\n|│| |a| |│|\n|└───┘|\n"
    );
    Ok(())
}

#[test]
fn no_leaf_and_no_element_stands_where_it_may_not(rt: HostRuntime) -> Result<(), Fail> {
    let rows = [
        // In a document stand blocks alone.
        "text",
        "code",
        "html",
        "tag",
        "math",
        "display",
        "reference",
        "soft",
        "hard",
        "task",
        "emphasis /emphasis",
        "strong /strong",
        "struck /struck",
        "super /super",
        "sub /sub",
        "link /link",
        "image /image",
        "item /item",
        "title /title",
        "description /description",
        "head /head",
        "row /row",
        "cell /cell",
        // And no block stands in a paragraph.
        "paragraph rule /paragraph",
        "paragraph paragraph /paragraph /paragraph",
        "paragraph h1 /h1 /paragraph",
        "paragraph quote /quote /paragraph",
        "paragraph fenced /fenced /paragraph",
        "paragraph htmls /htmls /paragraph",
        "paragraph list /list /paragraph",
        "paragraph footnote /footnote /paragraph",
        "paragraph definitions /definitions /paragraph",
        "paragraph table head /head /table /paragraph",
        "paragraph metadata /metadata /paragraph",
    ];
    for words in rows {
        let events = events_of(rt.alloc(), words)?;
        refused(&rt, rt.alloc(), &events)?;
    }
    Ok(())
}

/// What events lay out, and nothing where they are those of no tree.
#[test]
fn events_of_no_tree_are_refused(rt: HostRuntime) -> Result<(), Fail> {
    let rows = [
        ("", Some("")),
        ("paragraph /paragraph", Some("|\n")),
        ("numbers /numbers", Some("")),
        ("/paragraph", None),
        ("paragraph", None),
        ("paragraph emphasis /paragraph /emphasis", None),
        ("emphasis paragraph /emphasis /paragraph", None),
        ("item /item", None),
        ("text", None),
        ("table row /row head /head /table", None),
        (
            "paragraph link image link /link /image /link /paragraph",
            None,
        ),
        ("paragraph text task /paragraph", None),
        ("list item text task /item /list", None),
        ("h1 /h2", None),
        ("numbers /list", None),
        ("list /numbers", None),
        ("quote /alert", None),
        ("last item /item /last", Some("|18446744073709551615. |\n")),
        ("last item /item item /item /last", None),
        ("table /table", None),
        ("table head /head head /head /table", None),
    ];
    for (words, want) in rows {
        let events = events_of(rt.alloc(), words)?;
        match want {
            None => refused(&rt, rt.alloc(), &events)?,
            Some(lines) => {
                let drawn = shown(rt.alloc(), &events)?;
                assert_eq!(rt; drawn.as_str(), lines, "{words:?}");
            }
        }
    }
    Ok(())
}
