use crate::drawn::drawn;
use crate::{
    AlertKind, AnsiFence, CustomSheet, Highlighter, ImageFallback, NoHighlight, Options, from_str,
    from_str_with_options,
};
use std::test::Fail;

#[test]
fn inlines_and_headings_of_texts_are_drawn(rt: HostRuntime) -> Result<(), Fail> {
    let rows = [
        (
            "**Strong *emphasis***",
            "|Strong <bold>|emphasis<bold italic>|\n",
        ),
        (
            "[**Bold link**](https://example.com)",
            "|Bold link<bold link>| (|https://example.com<link>|)|\n",
        ),
        (
            "# Heading {#title .primary data-kind=doc}",
            "<h1>|# |Heading| {#title .primary data-kind=doc}<dim>|\n",
        ),
        ("a\\*b", "|a|*b|\n"),
        ("***x***", "|x<bold italic>|\n"),
        ("~~a~~ H~2~", "|a<struck>| H|2<script>|\n"),
        ("[x] (y)", "|[x] (y)|\n"),
        ("# {#i}", "<h1>|# | {#i}<dim>|\n"),
    ];
    for (input, want) in rows {
        let text = from_str(rt.alloc(), input)?;
        let drawn = drawn(rt.alloc(), &text)?;
        assert_eq!(rt; drawn.as_str(), want, "{input:?}");
    }
    Ok(())
}

#[test]
fn coloured_code_of_texts_is_drawn(rt: HostRuntime) -> Result<(), Fail> {
    let coloured = "```ansi\n\x1b[31mred\n```";
    let quoted = "> ```ansi\n> \x1b[31mred\n> ```";
    let rows = [
        (coloured, "|```ansi|\n|red<red>|\n|```|\n"),
        (
            quoted,
            "<quote>|>| |```ansi|\n|red<red>|\n<quote>|>| |```|\n",
        ),
    ];
    for (input, want) in rows {
        let text = from_str_with_options(rt.alloc(), input, &Options::default(), &AnsiFence)?;
        let drawn = drawn(rt.alloc(), &text)?;
        assert_eq!(rt; drawn.as_str(), want, "{input:?}");
    }
    Ok(())
}

#[test]
fn code_of_texts_is_drawn(rt: HostRuntime) -> Result<(), Fail> {
    let rows = [
        (
            "```ansi\n\x1b[31mred\n```",
            "<code>|```ansi|\n<code>|\x1b[31mred|\n<code>|```|\n",
        ),
        (
            "x\n\n    y",
            "|x|\n|\n<code>|```|\n<code>|y|\n<code>|```|\n",
        ),
        (
            "- ```\n  x\n  ```\n  `c`",
            "|- |\n|\n<code>|```|\n<code>|x|\n<code>|```|\n|c<code>|\n",
        ),
    ];
    for (input, want) in rows {
        let text = from_str(rt.alloc(), input)?;
        let drawn = drawn(rt.alloc(), &text)?;
        assert_eq!(rt; drawn.as_str(), want, "{input:?}");
    }
    Ok(())
}

#[test]
fn containers_of_texts_are_drawn(rt: HostRuntime) -> Result<(), Fail> {
    let rows = [
        ("- > text", "|- |text|\n"),
        (
            "> Parent\n>> Child",
            "<quote>|>| |Parent|\n<quote>|>| |\n<quote>|>|>| |Child|\n",
        ),
        ("9. a\n10. b", "|9. <marker>|a|\n|10. <marker>|b|\n"),
        ("- x\n  1. y", "|- |x|\n|    1. <marker>|y|\n"),
        ("- a\n\n- b", "|- |a|\n|- |b|\n"),
        ("a\n---", "|a|\n|\n|---|\n"),
        (
            "> [!TIP]\n> x",
            "<quote>|>| |\u{1F4A1} Tip<bold quote>|\n<quote>|>| |x|\n",
        ),
    ];
    for (input, want) in rows {
        let text = from_str(rt.alloc(), input)?;
        let drawn = drawn(rt.alloc(), &text)?;
        assert_eq!(rt; drawn.as_str(), want, "{input:?}");
    }
    Ok(())
}

#[test]
fn forms_beside_running_text_have_lines_and_styles_of_their_own(
    rt: HostRuntime,
) -> Result<(), Fail> {
    let rows = [
        (
            "---\ntitle: Demo\n---\n\nBody",
            "<metadata>|---|\n<metadata>|title: Demo|\n<metadata>|---|\n|\n|Body|\n",
        ),
        (
            "---\r\ntitle: Demo\r\n---\r\n\r\nBody",
            "<metadata>|---|\n<metadata>|title: Demo|\n<metadata>|---|\n|\n|Body|\n",
        ),
        (
            "Before\n\n$$\nx = y\ny = z\n$$\n\nAfter",
            "|Before|\n|\n|$$<display>|\n|x = y<display>|\n|y = z<display>|\n|$$<display>|\n|\n|After|\n",
        ),
        ("a $$m$$ b", "|a |$$m$$<display>|\n| b|\n"),
        (
            "Term\n: First paragraph.\n\n  Second paragraph.",
            "|Term<bold>|\n|: |First paragraph.|\n|\n|Second paragraph.|\n",
        ),
        (
            "Text[^one]\n\n[^one]: First paragraph.\n\n    Second paragraph.",
            "|Text|[one]<script>|\n|\n<dim>|[one]: <dim>|First paragraph.|\n<dim>|\n<dim>|Second paragraph.|\n",
        ),
        ("<http://a.b>", "|http://a.b<link>| (|http://a.b<link>|)|\n"),
        ("x ![](u) y", "|x |[img] <script>|u<script>| y|\n"),
        (
            "> x\n> <div>\n> *a*\n\n*b* <i>",
            "<quote>|>| |x|\n<quote>|>| |\n<quote>|>| |<div><dim>|\n<dim>|>| |*a*<dim>|\n|\n|b<italic>| |<i><dim>|\n",
        ),
    ];
    for (input, want) in rows {
        let text = from_str(rt.alloc(), input)?;
        let drawn = drawn(rt.alloc(), &text)?;
        assert_eq!(rt; drawn.as_str(), want, "{input:?}");
    }
    Ok(())
}

#[test]
fn an_image_of_a_text_shows_what_the_options_say(rt: HostRuntime) -> Result<(), Fail> {
    let input = "![Architecture diagram](diagram.png)";
    let options = Options::default().image_fallback(ImageFallback::AltTextAndUrl);
    let text = from_str_with_options(rt.alloc(), input, &options, &NoHighlight)?;
    let drawn = drawn(rt.alloc(), &text)?;
    assert_eq!(rt;
        drawn.as_str(),
        "|[img] <script>|Architecture diagram<script>| (diagram.png)<script>|\n"
    );
    Ok(())
}

#[test]
fn a_sheet_without_marks_shows_what_they_mark(rt: HostRuntime) -> Result<(), Fail> {
    let sheet = CustomSheet::default()
        .with_heading_marker(1, "")
        .with_code_block_fence("")
        .with_alert_icon(AlertKind::Tip, "");
    let options = Options::new(sheet);
    let rows = [
        (
            "# Heading\n\n```text\ncode\n```",
            "<h1>|Heading|\n|\n<code>|code|\n",
        ),
        (
            "> [!TIP]\n> x",
            "<quote>|>| |Tip<bold quote>|\n<quote>|>| |x|\n",
        ),
    ];
    for (input, want) in rows {
        let text = from_str_with_options(rt.alloc(), input, &options, &NoHighlight)?;
        let drawn = drawn(rt.alloc(), &text)?;
        assert_eq!(rt; drawn.as_str(), want, "{input:?}");
    }
    Ok(())
}

#[test]
fn no_highlighter_knows_a_language_and_lines_stay(rt: HostRuntime) -> Result<(), Fail> {
    assert!(rt; !NoHighlight.recognises("x"));
    let line = NoHighlight.line(rt.alloc(), "x", "y")?;
    assert_eq!(rt; line.as_str(), "y");
    Ok(())
}
