//! Events as they are shown in the tests.
use md_events::*;
use std::alloc::{AllocError, Global};
use std::process::Abort;
use std::test::Fail;
use term_text::{Alignment, CowStr};

/// Appends the attributes of a heading.
fn show_attributes(
    shown: &mut String,
    id: Option<&str>,
    classes: &Classes,
    attrs: &Attrs,
) -> Result<(), AllocError> {
    if let Some(id) = id {
        write!(shown, " #{id}")?;
    }
    for class in classes.as_slice() {
        let class = class.as_str();
        write!(shown, " .{class}")?;
    }
    for (key, value) in attrs.as_slice() {
        let key = key.as_str();
        write!(shown, " {key}")?;
        if let Some(value) = value {
            let value = value.as_str();
            write!(shown, "={value}")?;
        }
    }
    Ok(())
}

fn level_number(level: HeadingLevel) -> u32 {
    match level {
        HeadingLevel::H1 => 1,
        HeadingLevel::H2 => 2,
        HeadingLevel::H3 => 3,
        HeadingLevel::H4 => 4,
        HeadingLevel::H5 => 5,
        HeadingLevel::H6 => 6,
    }
}

fn alignment_mark(alignment: &Alignment) -> &'static str {
    match alignment {
        Alignment::None => " -",
        Alignment::Left => " <",
        Alignment::Right => " >",
        Alignment::Center => " ^",
    }
}

/// Appends the start of a table with the marks of its columns.
fn show_table(shown: &mut String, alignments: &Alignments) -> Result<(), AllocError> {
    shown.push_str("<table")?;
    for alignment in alignments.as_slice() {
        shown.push_str(alignment_mark(alignment))?;
    }
    shown.push_str(">")
}

/// Appends the start of a heading with its attributes.
fn show_heading(
    shown: &mut String,
    level: HeadingLevel,
    id: &Option<CowStr>,
    classes: &Classes,
    attrs: &Attrs,
) -> Result<(), AllocError> {
    let level = level_number(level);
    write!(shown, "<h{level}")?;
    let id = match id {
        Some(id) => Some(id.as_str()),
        None => None,
    };
    show_attributes(shown, id, classes, attrs)?;
    shown.push_str(">")
}

/// Appends the start of an element, in angle brackets, but for cells, which stand in square ones.
fn show_start(shown: &mut String, tag: &Tag) -> Result<(), AllocError> {
    match tag {
        Tag::Paragraph => shown.push_str("<p>"),
        Tag::Heading {
            level,
            id,
            classes,
            attrs,
        } => show_heading(shown, *level, id, classes, attrs),
        Tag::CodeBlock(CodeBlockKind::Indented) => shown.push_str("<indented>"),
        Tag::CodeBlock(CodeBlockKind::Fenced(info)) => {
            let info = info.as_str();
            write!(shown, "<code {info}>")
        }
        Tag::BlockQuote(None) => shown.push_str("<quote>"),
        Tag::BlockQuote(Some(BlockQuoteKind::Note)) => shown.push_str("<note>"),
        Tag::BlockQuote(Some(_)) => shown.push_str("<alert>"),
        Tag::List(None) => shown.push_str("<list>"),
        Tag::List(Some(number)) => write!(shown, "<list {number}>"),
        Tag::Item => shown.push_str("<item>"),
        Tag::Table(alignments) => show_table(shown, alignments),
        Tag::TableHead => shown.push_str("<head>"),
        Tag::TableRow => shown.push_str("<row>"),
        Tag::TableCell => shown.push_str("["),
        Tag::HtmlBlock => shown.push_str("<html>"),
        Tag::FootnoteDefinition(label) => {
            let label = label.as_str();
            write!(shown, "<footnote {label}>")
        }
        Tag::MetadataBlock => shown.push_str("<meta>"),
        Tag::DefinitionList => shown.push_str("<dl>"),
        Tag::DefinitionListTitle => shown.push_str("<dt>"),
        Tag::DefinitionListDefinition => shown.push_str("<dd>"),
        Tag::Strong => shown.push_str("<b>"),
        _ => shown.push_str("?"),
    }
}

/// Appends the end of an element.
fn show_end(shown: &mut String, tag: TagEnd) -> Result<(), AllocError> {
    match tag {
        TagEnd::Paragraph => shown.push_str("</p>"),
        TagEnd::Heading(level) => {
            let level = level_number(level);
            write!(shown, "</h{level}>")
        }
        TagEnd::CodeBlock => shown.push_str("</code>"),
        TagEnd::BlockQuote(_) => shown.push_str("</quote>"),
        TagEnd::List(_) => shown.push_str("</list>"),
        TagEnd::Item => shown.push_str("</item>"),
        TagEnd::Table => shown.push_str("</table>"),
        TagEnd::TableHead => shown.push_str("</head>"),
        TagEnd::TableRow => shown.push_str("</row>"),
        TagEnd::TableCell => shown.push_str("]"),
        TagEnd::HtmlBlock => shown.push_str("</html>"),
        TagEnd::FootnoteDefinition => shown.push_str("</footnote>"),
        TagEnd::MetadataBlock => shown.push_str("</meta>"),
        TagEnd::DefinitionList => shown.push_str("</dl>"),
        TagEnd::DefinitionListTitle => shown.push_str("</dt>"),
        TagEnd::DefinitionListDefinition => shown.push_str("</dd>"),
        TagEnd::Strong => shown.push_str("</b>"),
        _ => shown.push_str("?"),
    }
}

/// Appends an event: texts in round brackets, HTML in braces, code in backticks, labels between `^`, `/` for a soft break
/// and `|` for a hard one.
fn show(shown: &mut String, event: &Event) -> Result<(), AllocError> {
    match event {
        Event::Start(tag) => show_start(shown, tag),
        Event::End(tag) => show_end(shown, *tag),
        Event::TaskListMarker(true) => shown.push_str("[x]"),
        Event::TaskListMarker(false) => shown.push_str("[ ]"),
        Event::Rule => shown.push_str("<rule>"),
        Event::Text(text) => {
            let text = text.as_str();
            write!(shown, "({text})")
        }
        Event::Code(text) => {
            let text = text.as_str();
            write!(shown, "`{text}`")
        }
        Event::Html(text) => {
            let text = text.as_str();
            write!(shown, "{{{text}}}")
        }
        Event::FootnoteReference(label) => {
            let label = label.as_str();
            write!(shown, "^{label}^")
        }
        Event::SoftBreak => shown.push_str("/"),
        Event::HardBreak => shown.push_str("|"),
        _ => shown.push_str("?"),
    }
}

/// The events of a text, as they are shown.
pub(crate) fn shown(rt: &impl Abort, alloc: Global, text: &str) -> Result<String, Fail> {
    let events = read(alloc, text)?;
    let mut shown = String::new(alloc);
    for event in events.as_slice() {
        show(&mut shown, event)?;
    }
    assert!(rt; well_formed(alloc, events.as_slice())?);
    Ok(shown)
}

/// Compares the events of each text with what is beside it.
pub(crate) fn compare(rt: &impl Abort, alloc: Global, rows: &[(&str, &str)]) -> Result<(), Fail> {
    for (text, wanted) in rows {
        assert_eq!(rt; shown(rt, alloc, text)?.as_str(), *wanted);
    }
    Ok(())
}
