use crate::drawn::{drawn, end, quote, start, text};
use crate::render::laid_out;
use crate::{
    AlertKind, AnsiFence, CustomSheet, DefaultStyleSheet, Highlighter, NoHighlight, Options,
    RenderError, StyleSheet, from_str, from_str_with_options,
};
use md_events::{Attrs, BlockQuoteKind, Classes, CodeBlockKind, Event, HeadingLevel, Tag, TagEnd};
use std::alloc::{AllocError, Global};
use std::test::Fail;
use term_text::CowStr;

// The lines of events in the default look.
fn drawn_events(alloc: Global, events: &[Event]) -> Result<String, AllocError> {
    let options = Options::default();
    let text = laid_out(alloc, events, &options, &NoHighlight)?;
    drawn(alloc, &text)
}

#[test]
fn paragraphs_and_breaks_are_lines_and_spans(rt: HostRuntime) -> Result<(), Fail> {
    let rows = [
        ("", ""),
        ("ab", "|ab|\n"),
        ("ab  \ncd", "|ab|\n|cd|\n"),
        ("ab\ncd", "|ab| |cd|\n"),
        ("a\n\nb", "|a|\n|\n|b|\n"),
        ("\na  \nb\n\n\nc\n", "|a|\n|b|\n|\n|c|\n"),
    ];
    for (input, want) in rows {
        let text = from_str(rt.alloc(), input)?;
        let drawn = drawn(rt.alloc(), &text)?;
        assert_eq!(rt; drawn.as_str(), want, "{input:?}");
    }
    Ok(())
}

#[test]
fn plain_text_asks_nothing_of_options_and_highlighter(rt: HostRuntime) -> Result<(), Fail> {
    let input = "ab\ncd";
    let options = Options::new(DefaultStyleSheet);
    let text = from_str_with_options(rt.alloc(), input, &options, &AnsiFence)?;
    let drawn = drawn(rt.alloc(), &text)?;
    assert_eq!(rt; drawn.as_str(), "|ab| |cd|\n");
    Ok(())
}

// A heading without attributes.
fn heading(alloc: Global, level: HeadingLevel) -> Tag<'static> {
    Tag::Heading {
        level,
        id: None,
        classes: Classes::new(alloc),
        attrs: Attrs::new(alloc),
    }
}

#[test]
fn headings_have_a_mark_and_an_empty_line_before_them(rt: HostRuntime) -> Result<(), Fail> {
    let first = heading(rt.alloc(), HeadingLevel::H1);
    let second = heading(rt.alloc(), HeadingLevel::H2);
    let (first_end, second_end) = (first.end(), second.end());
    let events = [
        Event::Start(first),
        text("a"),
        Event::Code(CowStr::borrowed("b")),
        Event::End(first_end),
        Event::Start(second),
        Event::End(second_end),
    ];
    let drawn = drawn_events(rt.alloc(), &events)?;
    assert_eq!(rt; drawn.as_str(), "<h1>|# |a|b<code>|\n|\n<h2>|## |\n");
    Ok(())
}

#[test]
fn attributes_stand_behind_a_heading(rt: HostRuntime) -> Result<(), Fail> {
    let mut classes = Classes::new(rt.alloc());
    classes.push(CowStr::borrowed("b"))?;
    classes.push(CowStr::borrowed("c"))?;
    let mut attrs = Attrs::new(rt.alloc());
    attrs.push((CowStr::borrowed("k"), Some(CowStr::borrowed("v"))))?;
    attrs.push((CowStr::borrowed("l"), None))?;
    let heading = Tag::Heading {
        level: HeadingLevel::H1,
        id: Some(CowStr::borrowed("a")),
        classes,
        attrs,
    };
    let end = heading.end();
    let events = [Event::Start(heading), text("h"), Event::End(end)];
    let drawn = drawn_events(rt.alloc(), &events)?;
    assert_eq!(rt; drawn.as_str(), "<h1>|# |h| {#a .b .c k=v l}<dim>|\n");
    Ok(())
}

#[test]
fn inlines_patch_the_style_that_they_stand_in(rt: HostRuntime) -> Result<(), Fail> {
    let link = Tag::Link {
        dest_url: CowStr::borrowed("e"),
    };
    let link_end = link.end();
    let events = [
        Event::Start(Tag::Paragraph),
        Event::Start(Tag::Strong),
        text("a"),
        Event::Code(CowStr::borrowed("b")),
        Event::SoftBreak,
        Event::Start(link),
        text("d"),
        Event::End(link_end),
        Event::Start(Tag::Emphasis),
        text("f"),
        Event::End(Tag::Emphasis.end()),
        Event::End(Tag::Strong.end()),
        Event::Start(Tag::Strikethrough),
        text("g\nh"),
        Event::End(Tag::Strikethrough.end()),
        Event::Start(Tag::Superscript),
        text("i"),
        Event::End(Tag::Superscript.end()),
        Event::Start(Tag::Subscript),
        text("j"),
        Event::End(Tag::Subscript.end()),
        text("k"),
        Event::End(Tag::Paragraph.end()),
    ];
    let drawn = drawn_events(rt.alloc(), &events)?;
    assert_eq!(rt;
        drawn.as_str(),
        "|a<bold>|b<code>| |d<bold link>| (|e<link>|)|f<bold italic>|g<struck>|\n|h<struck>|i<script>|j<script>|k|\n"
    );
    Ok(())
}

// A block of code between two paragraphs of `p`.
fn code_between(kind: CodeBlockKind<'static>, lines: [&'static str; 3]) -> [Event<'static>; 11] {
    let [first, second, third] = lines;
    [
        Event::Start(Tag::Paragraph),
        text("p"),
        Event::End(Tag::Paragraph.end()),
        Event::Start(Tag::CodeBlock(kind)),
        text(first),
        text(second),
        text(third),
        Event::End(TagEnd::CodeBlock),
        Event::Start(Tag::Paragraph),
        text("p"),
        Event::End(Tag::Paragraph.end()),
    ]
}

fn fenced(info: &'static str) -> CodeBlockKind<'static> {
    CodeBlockKind::Fenced(CowStr::borrowed(info))
}

#[test]
fn code_stands_between_fences_in_the_style_of_code(rt: HostRuntime) -> Result<(), Fail> {
    let events = code_between(fenced("rust"), ["a\r", "\n\nb", "\n"]);
    let drawn = drawn_events(rt.alloc(), &events)?;
    assert_eq!(rt;
        drawn.as_str(),
        "|p|\n|\n<code>|```rust|\n<code>|a|\n<code>|\n<code>|b|\n<code>|```|\n|\n|p|\n"
    );
    Ok(())
}

#[test]
fn code_that_comes_first_has_no_empty_line_before_it(rt: HostRuntime) -> Result<(), Fail> {
    let events = [
        Event::Start(Tag::CodeBlock(CodeBlockKind::Indented)),
        text("a\nb"),
        Event::End(TagEnd::CodeBlock),
    ];
    let drawn = drawn_events(rt.alloc(), &events)?;
    assert_eq!(rt;
        drawn.as_str(),
        "<code>|```|\n<code>|a|\n<code>|b|\n<code>|```|\n"
    );
    Ok(())
}

#[test]
fn a_sheet_without_a_fence_shows_the_lines_alone(rt: HostRuntime) -> Result<(), Fail> {
    let sheet = CustomSheet::default().with_code_block_fence("");
    let events = code_between(fenced("rust"), ["a", "\n", "b"]);
    let text = laid_out(rt.alloc(), &events, &Options::new(sheet), &NoHighlight)?;
    let drawn = drawn(rt.alloc(), &text)?;
    assert_eq!(rt; drawn.as_str(), "|p|\n|\n<code>|a|\n<code>|b|\n|\n|p|\n");
    Ok(())
}

#[test]
fn ansi_code_is_drawn_in_its_colours(rt: HostRuntime) -> Result<(), Fail> {
    let events = code_between(fenced("ansi"), ["\x1b[31ma\n", "b\r", "c\n"]);
    let text = laid_out(rt.alloc(), &events, &Options::default(), &AnsiFence)?;
    let drawn = drawn(rt.alloc(), &text)?;
    assert_eq!(rt;
        drawn.as_str(),
        "|p|\n|\n|```ansi|\n|a<red>|\n|b|\n|c|\n|```|\n|\n|p|\n"
    );
    Ok(())
}

#[test]
fn indented_code_is_never_asked_of_a_highlighter(rt: HostRuntime) -> Result<(), Fail> {
    let events = code_between(CodeBlockKind::Indented, ["fn", "", ""]);
    let text = laid_out(rt.alloc(), &events, &Options::default(), &Keywords)?;
    let drawn = drawn(rt.alloc(), &text)?;
    assert_eq!(rt;
        drawn.as_str(),
        "|p|\n|\n<code>|```|\n<code>|fn|\n<code>|```|\n|\n|p|\n"
    );
    Ok(())
}

// A highlighter of a user's own, for a language whose keyword `begin` stands on lines of its own, in red.
struct Keywords;

impl Highlighter for Keywords {
    ghost use Rattle.std.specs.Prelude.{codes, ◌++◌, if◌then◌else◌};
    ghost use Rattle.std.specs.Str.{bytes_eq};

    ghost known = { λ _ lang. bytes_eq lang (codes "words") };

    ghost answer = { λ _ lang line. if bytes_eq line (codes "begin") then codes "\u{1b}[31m" ++ line else line };

    fn recognises(&self, lang: &str) -> bool {
        lang == "words"
    }

    fn line(&self, alloc: Global, _lang: &str, line: &str) -> Result<String, AllocError> {
        if line != "begin" {
            return String::from_str(alloc, line);
        }
        let mut text = String::from_str(alloc, "\x1b[31m")?;
        text.push_str(line)?;
        Ok(text)
    }
}

// A highlighter that has no memory.
struct Refusing;

impl Highlighter for Refusing {
    ghost use Rattle.md_text.specs.Look.{knows_ansi, as_it_is};

    ghost known = { λ _. knows_ansi };

    ghost answer = { λ _. as_it_is };

    fn recognises(&self, lang: &str) -> bool {
        lang == "ansi"
    }

    fn line(&self, _alloc: Global, _lang: &str, _line: &str) -> Result<String, AllocError> {
        Err(AllocError)
    }
}

#[test]
fn a_highlighters_want_of_memory_is_handed_on(rt: HostRuntime) -> Result<(), Fail> {
    let events = code_between(fenced("ansi"), ["a", "\n", ""]);
    let refused = laid_out(rt.alloc(), &events, &Options::default(), &Refusing);
    assert!(rt; refused.is_err());
    let events = code_between(fenced("other"), ["a", "\n", ""]);
    let laid = laid_out(rt.alloc(), &events, &Options::default(), &Refusing);
    assert!(rt; laid.is_ok());
    Ok(())
}

#[test]
fn a_highlighter_of_ones_own_is_asked_for_each_line(rt: HostRuntime) -> Result<(), Fail> {
    let rows = [
        (
            "words",
            "|p|\n|\n|```words|\n|begin<red>|\n|a|\n|```|\n|\n|p|\n",
        ),
        (
            "other",
            "|p|\n|\n<code>|```other|\n<code>|begin|\n<code>|a|\n<code>|```|\n|\n|p|\n",
        ),
    ];
    for (info, want) in rows {
        let events = code_between(fenced(info), ["begin", "\n", "a\n"]);
        let text = laid_out(rt.alloc(), &events, &Options::default(), &Keywords)?;
        let drawn = drawn(rt.alloc(), &text)?;
        assert_eq!(rt; drawn.as_str(), want, "{info}");
    }
    Ok(())
}

#[test]
fn quotes_have_a_mark_for_each_level_on_empty_lines_too(rt: HostRuntime) -> Result<(), Fail> {
    let events = [
        start(quote()),
        start(Tag::Paragraph),
        text("a"),
        end(Tag::Paragraph),
        start(quote()),
        start(Tag::Paragraph),
        text("b"),
        end(Tag::Paragraph),
        end(quote()),
        start(heading(rt.alloc(), HeadingLevel::H1)),
        text("c"),
        end(heading(rt.alloc(), HeadingLevel::H1)),
        end(quote()),
        start(Tag::Paragraph),
        text("d"),
        end(Tag::Paragraph),
    ];
    let drawn = drawn_events(rt.alloc(), &events)?;
    assert_eq!(rt;
        drawn.as_str(),
        "<quote>|>| |a|\n<quote>|>| |\n<quote>|>|>| |b|\n<quote>|>| |\n<h1 quote>|>| |# |c|\n|\n|d|\n"
    );
    Ok(())
}

#[test]
fn an_empty_quote_is_followed_by_an_empty_line(rt: HostRuntime) -> Result<(), Fail> {
    let events = [
        start(quote()),
        end(quote()),
        start(Tag::Paragraph),
        text("a"),
        end(Tag::Paragraph),
    ];
    let drawn = drawn_events(rt.alloc(), &events)?;
    assert_eq!(rt; drawn.as_str(), "|\n|a|\n");
    Ok(())
}

// An alert of two paragraphs.
fn alert_events(alloc: Global) -> Result<Vec<Event<'static>>, AllocError> {
    let alert = Tag::BlockQuote(Some(BlockQuoteKind::Note));
    let alert_end = alert.end();
    Ok(Vec::from_array(
        alloc,
        [
            start(alert),
            start(Tag::Paragraph),
            text("a"),
            end(Tag::Paragraph),
            start(Tag::Paragraph),
            text("b"),
            end(Tag::Paragraph),
            Event::End(alert_end),
        ],
    )?)
}

#[test]
fn an_alert_begins_with_its_icon_and_label(rt: HostRuntime) -> Result<(), Fail> {
    let events = alert_events(rt.alloc())?;
    let default = CustomSheet::default();
    let rows = [
        (default, "\u{2139}\u{FE0F} Note"),
        (default.with_alert_icon(AlertKind::Note, ""), "Note"),
        (
            default.with_alert_label(AlertKind::Note, ""),
            "\u{2139}\u{FE0F}",
        ),
    ];
    for (sheet, title) in rows {
        let text = laid_out(
            rt.alloc(),
            events.as_slice(),
            &Options::new(sheet),
            &NoHighlight,
        )?;
        let drawn = drawn(rt.alloc(), &text)?;
        let want = format!(in rt.alloc();
            "<note>|>| |{title}<bold note>|\n<note>|>| |a|\n<note>|>| |\n<note>|>| |b|\n"
        )?;
        assert_eq!(rt; drawn.as_str(), want.as_str());
    }
    Ok(())
}

#[test]
fn numbers_go_up_and_are_right_aligned(rt: HostRuntime) -> Result<(), Fail> {
    let events = [
        start(Tag::List(Some(3))),
        start(Tag::Item),
        text("a"),
        start(Tag::List(Some(9))),
        start(Tag::Item),
        text("b"),
        end(Tag::Item),
        start(Tag::Item),
        text("c"),
        end(Tag::Item),
        end(Tag::List(Some(9))),
        end(Tag::Item),
        start(Tag::Item),
        start(Tag::List(None)),
        start(Tag::Item),
        text("d"),
        end(Tag::Item),
        end(Tag::List(None)),
        end(Tag::Item),
        end(Tag::List(Some(3))),
        start(Tag::List(None)),
        start(Tag::Item),
        end(Tag::Item),
        end(Tag::List(None)),
        Event::Rule,
    ];
    let drawn = drawn_events(rt.alloc(), &events)?;
    assert_eq!(rt;
        drawn.as_str(),
        "|3. <marker>|a|\n|    9. <marker>|b|\n|   10. <marker>|c|\n|4. <marker>|\n|    - |d|\n|\n|- |\n|\n|---|\n"
    );
    Ok(())
}

#[test]
fn only_what_may_stand_behind_a_marker_does(rt: HostRuntime) -> Result<(), Fail> {
    let events = [
        start(Tag::List(None)),
        start(Tag::Item),
        start(Tag::Paragraph),
        Event::TaskListMarker(true),
        text("a"),
        end(Tag::Paragraph),
        start(Tag::Paragraph),
        text("b"),
        end(Tag::Paragraph),
        end(Tag::Item),
        start(Tag::Item),
        Event::TaskListMarker(false),
        start(Tag::Paragraph),
        text("c"),
        end(Tag::Paragraph),
        end(Tag::Item),
        start(Tag::Item),
        start(quote()),
        start(Tag::Paragraph),
        text("d"),
        end(Tag::Paragraph),
        start(Tag::Paragraph),
        text("e"),
        end(Tag::Paragraph),
        end(quote()),
        end(Tag::Item),
        start(Tag::Item),
        start(heading(rt.alloc(), HeadingLevel::H2)),
        text("f"),
        end(heading(rt.alloc(), HeadingLevel::H2)),
        end(Tag::Item),
        end(Tag::List(None)),
    ];
    let drawn = drawn_events(rt.alloc(), &events)?;
    assert_eq!(rt;
        drawn.as_str(),
        "|- |[x] |a|\n|\n|b|\n|- |[ ] |c|\n|- |d|\n<quote>|>| |\n<quote>|>| |e|\n|- |\n<h2>|## |f|\n"
    );
    Ok(())
}

#[test]
fn coloured_code_in_a_quote_has_marks_on_its_fence_lines_alone(
    rt: HostRuntime,
) -> Result<(), Fail> {
    let events = [
        start(quote()),
        start(Tag::CodeBlock(fenced("ansi"))),
        text("a\n"),
        end(Tag::CodeBlock(fenced("ansi"))),
        end(quote()),
    ];
    let options = Options::default();
    let coloured = laid_out(rt.alloc(), &events, &options, &AnsiFence)?;
    let coloured = drawn(rt.alloc(), &coloured)?;
    assert_eq!(rt;
        coloured.as_str(),
        "<quote>|>| |```ansi|\n|a|\n<quote>|>| |```|\n"
    );
    let plain = laid_out(rt.alloc(), &events, &options, &NoHighlight)?;
    let plain = drawn(rt.alloc(), &plain)?;
    assert_eq!(rt;
        plain.as_str(),
        "<code>|>| |```ansi|\n<code>|>| |a|\n<code>|>| |```|\n"
    );
    Ok(())
}

#[test]
fn refusals_are_printed(rt: HostRuntime) -> Result<(), Fail> {
    let memory = RenderError::Memory.to_string(rt.alloc())?;
    assert_eq!(rt; memory.as_str(), "out of memory");
    let bad_events = RenderError::BadEvents.to_string(rt.alloc())?;
    assert_eq!(rt; bad_events.as_str(), "events of no tree");
    Ok(())
}
