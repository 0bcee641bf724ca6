//! The defaults as a table, a sheet with two answers changed, and tables with their pictures.
use md_table::{AlertKind, CustomSheet, DefaultStyleSheet, RowDividers, StyleSheet, TableBuilder};
use std::alloc::{AllocError, Global};
use std::collections::HashMap;
use std::test::Fail;
use term_text::Color::{
    Black, Blue, Cyan, DarkGray, Green, LightBlue, LightCyan, LightYellow, Magenta, Red, White,
    Yellow,
};
use term_text::{Alignment, CowStr, Line, Modifier, Span, Style};

const KINDS: [AlertKind; 5] = [
    AlertKind::Note,
    AlertKind::Tip,
    AlertKind::Important,
    AlertKind::Warning,
    AlertKind::Caution,
];

#[test]
fn the_default_styles_are_these(rt: HostRuntime) -> Result<(), Fail> {
    let s = DefaultStyleSheet;
    let plain = Style::new();
    let bold = plain.add_modifier(Modifier::BOLD);
    let dim = plain.add_modifier(Modifier::DIM);
    let italic = plain.add_modifier(Modifier::ITALIC);
    let underlined = plain.add_modifier(Modifier::UNDERLINED);
    let rows = [
        ("heading 1", s.heading(1), bold.patch(underlined).bg(Cyan)),
        ("heading 2", s.heading(2), bold.fg(Cyan)),
        ("heading 3", s.heading(3), bold.patch(italic).fg(Cyan)),
        ("heading 4", s.heading(4), italic.fg(LightCyan)),
        ("heading 6", s.heading(6), italic.fg(LightCyan)),
        ("code", s.code(), plain.fg(White).bg(Black)),
        ("link", s.link(), underlined.fg(Blue)),
        ("blockquote", s.blockquote(), plain.fg(Green)),
        ("heading_meta", s.heading_meta(), dim),
        ("html", s.html(), dim),
        ("footnote_def", s.footnote_def(), dim),
        ("metadata_block", s.metadata_block(), plain.fg(LightYellow)),
        ("math_inline", s.math_inline(), italic.fg(Magenta)),
        ("math_display", s.math_display(), plain.fg(Magenta)),
        ("footnote_ref", s.footnote_ref(), dim.patch(italic)),
        ("image_alt", s.image_alt(), dim.patch(italic)),
        ("definition_term", s.definition_term(), bold),
        ("definition_description", s.definition_description(), plain),
        ("table_cell", s.table_cell(), plain),
        ("table_header", s.table_header(), bold.fg(Cyan)),
        ("table_border", s.table_border(), plain.fg(DarkGray)),
        ("list_marker", s.list_marker(), plain.fg(LightBlue)),
    ];
    for (name, answer, wanted) in rows {
        assert_eq!(rt; answer, wanted, "{name}");
    }
    Ok(())
}

#[test]
fn the_default_marks_and_alerts_are_these(rt: HostRuntime) -> Result<(), Fail> {
    let s = DefaultStyleSheet;
    for (level, marker) in [
        (1, "#"),
        (2, "##"),
        (3, "###"),
        (4, "####"),
        (5, "#####"),
        (6, "######"),
    ] {
        assert_eq!(rt; s.heading_marker(level), marker);
    }
    assert_eq!(rt; s.code_block_fence(), "```");
    let rows = [
        (AlertKind::Note, Blue, "Note"),
        (AlertKind::Tip, Green, "Tip"),
        (AlertKind::Important, Magenta, "Important"),
        (AlertKind::Warning, Yellow, "Warning"),
        (AlertKind::Caution, Red, "Caution"),
    ];
    for (kind, color, label) in rows {
        assert_eq!(rt; s.alert(kind), Style::new().fg(color));
        assert_eq!(rt; s.alert_label(kind), label);
        assert_eq!(rt; kind.label(), label);
    }
    Ok(())
}

#[test]
fn the_default_icons_are_these(rt: HostRuntime) -> Result<(), Fail> {
    let s = DefaultStyleSheet;
    assert_eq!(rt; s.alert_icon(AlertKind::Note), "\u{2139}\u{FE0F}");
    assert_eq!(rt; s.alert_icon(AlertKind::Tip), "\u{1F4A1}");
    assert_eq!(rt; s.alert_icon(AlertKind::Important), "\u{2757}");
    assert_eq!(rt; s.alert_icon(AlertKind::Warning), "\u{26A0}\u{FE0F}");
    assert_eq!(rt; s.alert_icon(AlertKind::Caution), "\u{1F534}");
    Ok(())
}

// Two answers of a sheet.
fn link_and_mark<S: StyleSheet>(styles: &S) -> (Style, &str) {
    (styles.link(), styles.heading_marker(2))
}

#[test]
fn a_custom_sheet_changes_the_answers_that_are_set(rt: HostRuntime) -> Result<(), Fail> {
    let red = Style::new().fg(Red);
    let blue = Style::new().fg(Blue).add_modifier(Modifier::UNDERLINED);
    let default = CustomSheet::default();
    assert_eq!(rt; link_and_mark(&default), (blue, "##"));
    let custom = default.with_link(red).with_heading_marker(2, "§");
    assert_eq!(rt; link_and_mark(&custom), (red, "§"));
    assert_eq!(rt; custom.heading_marker(3), "###");
    let alerts = custom
        .with_alert_icon(AlertKind::Tip, "")
        .with_alert_label(AlertKind::Note, "N.B.");
    assert_eq!(rt; alerts.alert_icon(AlertKind::Tip), "");
    assert_eq!(rt; alerts.alert_icon(AlertKind::Note), "\u{2139}\u{FE0F}");
    assert_eq!(rt; alerts.alert_label(AlertKind::Note), "N.B.");
    assert_eq!(rt; alerts.link(), red);
    Ok(())
}

#[test]
fn equal_kinds_hash_equally(rt: HostRuntime) -> Result<(), Fail> {
    let mut places = HashMap::new(rt.alloc());
    for (place, kind) in KINDS.iter().enumerate() {
        places.insert(*kind, place)?;
    }
    for (place, kind) in KINDS.iter().enumerate() {
        assert_eq!(rt; places.get(kind), Some(&place), "{}", kind.label());
    }
    Ok(())
}

/// A builder with these alignments and rows of texts, the header first.
fn built<'a>(
    alloc: Global,
    alignments: &[Alignment],
    rows: &[&[&'static str]],
) -> Result<TableBuilder<'a>, AllocError> {
    let mut builder = TableBuilder::new(alloc, Vec::from_slice(alloc, alignments)?);
    for (place, cells) in rows.iter().enumerate() {
        for text in *cells {
            builder.start_cell();
            builder.push_span(Span::raw(CowStr::borrowed(text)))?;
            builder.finish_cell()?;
        }
        if place == 0 {
            builder.finish_header();
        } else {
            builder.finish_row()?;
        }
    }
    Ok(builder)
}

/// The texts of lines, each with an LF behind it.
fn shown(alloc: Global, lines: &[Line]) -> Result<String, AllocError> {
    let mut shown = String::new(alloc);
    for line in lines {
        for span in line.spans() {
            shown.push_str(span.text())?;
        }
        shown.push_str("\n")?;
    }
    Ok(shown)
}

#[test]
fn narrow_columns_grow_first(rt: HostRuntime) -> Result<(), Fail> {
    let alloc = rt.alloc();
    // three columns leave their cells ten columns less than the width
    let cases = [
        (24, "┌───────┬──────┬───────┐"),
        (25, "┌────────┬──────┬───────┐"),
        (15, "┌───┬──────┬───┐"),
        (34, "┌────────────┬──────┬────────────┐"),
    ];
    for (width, top) in cases {
        let mut builder = TableBuilder::new(alloc, Vec::new(alloc));
        builder.push_span(Span::raw(CowStr::borrowed("ten digits")))?;
        builder.finish_cell()?;
        builder.push_span(Span::glyph(CowStr::borrowed("wide"), Style::new()))?;
        builder.finish_cell()?;
        builder.push_span(Span::raw(CowStr::borrowed("and others")))?;
        builder.finish_cell()?;
        builder.finish_header();
        let lines = builder.render(&DefaultStyleSheet, Some(width), RowDividers::Hidden)?;
        let picture = shown(alloc, lines.as_slice())?;
        assert_eq!(rt; picture.as_str().lines().next(), Some(top));
    }
    Ok(())
}

#[test]
fn rows_have_all_columns(rt: HostRuntime) -> Result<(), Fail> {
    let alloc = rt.alloc();
    let sides = [Alignment::Left, Alignment::Right, Alignment::Center];
    let none: &[&'static str] = [].as_slice();
    let rows = [
        ["Name", "x", "wide"].as_slice(),
        none,
        ["y", "zoo", "c", "d"].as_slice(),
    ];
    let open = built(alloc, sides.as_slice(), rows.as_slice())?.render(
        &DefaultStyleSheet,
        None,
        RowDividers::from(false),
    )?;
    assert_eq!(rt;
        shown(alloc, open.as_slice())?.as_str(),
        "┌──────┬─────┬──────┬───┐\n│ Name │   x │ wide │   │\n├──────┼─────┼──────┼───┤\n│      │     │      │   │\n│ y    │ zoo │  c   │ d │\n└──────┴─────┴──────┴───┘\n"
    );
    let divided = built(alloc, sides.as_slice(), rows.as_slice())?.render(
        &DefaultStyleSheet,
        None,
        RowDividers::from(true),
    )?;
    assert_eq!(rt; divided.len(), 7);
    let mut unfinished = TableBuilder::new(alloc, Vec::new(alloc));
    unfinished.push_span(Span::raw(CowStr::borrowed("lost")))?;
    assert_eq!(rt;
        unfinished
            .render(&DefaultStyleSheet, None, RowDividers::Shown)?
            .len(),
        0
    );
    Ok(())
}

#[test]
fn pads_have_the_cells_style(rt: HostRuntime) -> Result<(), Fail> {
    let alloc = rt.alloc();
    let border = Style::new().fg(DarkGray);
    let header = Style::new().fg(Cyan);
    let sheet = CustomSheet::default()
        .with_table_border(border)
        .with_table_header(header);
    let mut builder = TableBuilder::new(alloc, Vec::new(alloc));
    builder.push_span(Span::styled(CowStr::borrowed("a"), Style::new().bold()))?;
    builder.push_span(Span::raw(CowStr::borrowed("")))?;
    builder.finish_cell()?;
    builder.finish_header();
    let lines = builder.render(&sheet, None, RowDividers::Hidden)?;
    let spans = lines.get(1).ok_or("none")?.spans();
    let want = [
        ("│", border),
        (" ", header),
        ("a", header.bold()),
        (" ", header),
        ("│", border),
    ];
    assert_eq!(rt; spans.len(), 5);
    for (span, (text, style)) in spans.iter().zip(want.iter()) {
        assert_eq!(rt; (span.text(), span.style()), (*text, *style));
    }
    Ok(())
}
