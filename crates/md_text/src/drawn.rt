//! Lines as the tests write them, and events in few words.
use crate::{AlertKind, DefaultStyleSheet, StyleSheet};
use md_events::{Event, Tag};
use std::alloc::{AllocError, Global};
use term_text::{CowStr, Line, Style, Text};

// The name that stands beside a style.
fn name_among(style: Style, names: &[(Style, &'static str)]) -> Option<&'static str> {
    for (named, name) in names {
        if style == *named {
            return Some(*name);
        }
    }
    None
}

// The names stand in small tables: what a check of one table costs grows by the square of its calls.
fn name_of_modifiers(style: Style) -> Option<&'static str> {
    let plain = Style::new();
    let names = [
        (plain, ""),
        (plain.italic(), "<italic>"),
        (plain.bold(), "<bold>"),
        (plain.crossed_out(), "<struck>"),
        (plain.dim().italic(), "<script>"),
        (plain.italic().bold(), "<bold italic>"),
    ];
    name_among(style, names.as_slice())
}

fn name_of_colours(style: Style) -> Option<&'static str> {
    let names = [
        (Style::reset(), "<reset>"),
        (Style::new().red(), "<red>"),
        (Style::reset().red(), "<reset red>"),
    ];
    name_among(style, names.as_slice())
}

fn name_in_text(style: Style) -> Option<&'static str> {
    let sheet = DefaultStyleSheet;
    let names = [
        (sheet.heading(1), "<h1>"),
        (sheet.heading(2), "<h2>"),
        (sheet.heading_meta(), "<dim>"),
        (sheet.code(), "<code>"),
        (sheet.link(), "<link>"),
        (sheet.link().bold(), "<bold link>"),
    ];
    name_among(style, names.as_slice())
}

fn name_in_containers(style: Style) -> Option<&'static str> {
    let sheet = DefaultStyleSheet;
    let note = sheet.alert(AlertKind::Note);
    let names = [
        (sheet.blockquote(), "<quote>"),
        (note, "<note>"),
        (note.bold(), "<bold note>"),
        (sheet.alert(AlertKind::Tip).bold(), "<bold quote>"),
        (sheet.heading(1).patch(sheet.blockquote()), "<h1 quote>"),
        (sheet.list_marker(), "<marker>"),
        (sheet.table_border(), "<border>"),
    ];
    name_among(style, names.as_slice())
}

fn name_in_other_forms(style: Style) -> Option<&'static str> {
    let sheet = DefaultStyleSheet;
    let names = [
        (sheet.metadata_block(), "<metadata>"),
        (sheet.math_inline(), "<math>"),
        (sheet.math_display(), "<display>"),
    ];
    name_among(style, names.as_slice())
}

// The name of a style that the tests use, and none for the plain one.
fn style_name(style: Style) -> &'static str {
    if let Some(name) = name_of_modifiers(style) {
        return name;
    }
    if let Some(name) = name_in_text(style) {
        return name;
    }
    if let Some(name) = name_in_containers(style) {
        return name;
    }
    if let Some(name) = name_in_other_forms(style) {
        return name;
    }
    name_of_colours(style).unwrap_or("<?>")
}

fn draw_line(drawn: &mut String, line: &Line) -> Result<(), AllocError> {
    drawn.push_str(style_name(line.style()))?;
    for span in line.spans() {
        drawn.push_str("|")?;
        drawn.push_str(span.text())?;
        drawn.push_str(style_name(span.style()))?;
    }
    drawn.push_str("|\n")?;
    Ok(())
}

// The spans of each line between bars, with the names of styles behind them and before the line.
pub(crate) fn drawn(alloc: Global, text: &Text) -> Result<String, AllocError> {
    let mut drawn = String::new(alloc);
    for line in text.lines() {
        draw_line(&mut drawn, line)?;
    }
    Ok(drawn)
}

pub(crate) fn text(content: &'static str) -> Event<'static> {
    Event::Text(CowStr::borrowed(content))
}

// The events of the start and of the end of an element.
pub(crate) fn start(tag: Tag<'static>) -> Event<'static> {
    Event::Start(tag)
}

pub(crate) fn end(tag: Tag<'static>) -> Event<'static> {
    Event::End(tag.end())
}

pub(crate) fn quote() -> Tag<'static> {
    Tag::BlockQuote(None)
}
