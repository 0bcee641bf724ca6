//! The tests of the block rules on lines.
use md_lines::{Line, line_of, lines_of};
use md_rules::{
    BlockStart, Cells, HtmlEnd, Items, Rule, alignments, block_start, footnote_label, heading_at,
    html_end, interrupts, item_lines, marker_of, quoted, row_count, starts_table, text_from,
};
use std::alloc::{AllocError, Global};
use std::test::Fail;
use term_text::Alignment;

/// Lines, each by its indent and its body.
fn shown(alloc: Global, lines: &[Line]) -> Result<String, AllocError> {
    let mut shown = String::new(alloc);
    for line in lines {
        let indent = line.indent;
        let body = line.body;
        write!(shown, "{indent}:{body}|")?;
    }
    Ok(shown)
}

#[test]
fn a_heading_has_attributes_and_content(rt: HostRuntime) -> Result<(), Fail> {
    let mut words = String::new(rt.alloc());
    let line = line_of("## a b ## {#i .c}");
    if let BlockStart::Heading(level) = block_start(true, Items::All, &line, &[]) {
        let heading = heading_at(rt.alloc(), level, &line)?;
        let content = heading.content.body;
        write!(words, "{content}|")?;
        for class in heading.classes.as_slice() {
            words.push_str(class.as_str())?;
        }
    }
    assert_eq!(rt; words.as_str(), "a b|c");
    Ok(())
}

#[test]
fn containers_take_off_marks_and_columns(rt: HostRuntime) -> Result<(), Fail> {
    let lines = lines_of(rt.alloc(), ">  a\n> b\nc")?;
    let inside = quoted(rt.alloc(), lines.as_slice())?;
    assert_eq!(rt; shown(rt.alloc(), inside.as_slice())?.as_str(), "1:a|0:b|");
    let line = line_of(" 7) [x] d");
    let own = lines_of(rt.alloc(), "      e")?;
    let mut words = String::new(rt.alloc());
    if let Some(marker) = marker_of(&line) {
        let column = marker.column(&line);
        let lines = item_lines(rt.alloc(), column, marker.item_line(&line), own.as_slice())?;
        words.push_str(shown(rt.alloc(), lines.as_slice())?.as_str())?;
    }
    assert_eq!(rt; words.as_str(), "0:d|2:e|");
    assert_eq!(rt; text_from(rt.alloc(), 1, &line_of("   a"))?.as_str(), "  a");
    Ok(())
}

#[test]
fn a_line_begins_by_the_first_rule_that_holds(rt: HostRuntime) -> Result<(), Fail> {
    let rows = [
        ("    # a", true, Rule::Code),
        ("``` | a\n-|-", true, Rule::Fence),
        ("* * *", true, Rule::ThematicBreak),
        ("# a | b\n-|-", true, Rule::Heading),
        ("> - a", true, Rule::Quote),
        ("> - a", false, Rule::Paragraph),
        ("[^1]: a | b\n-|-", true, Rule::Footnote),
        ("[^1]: a | b\n-|-", false, Rule::Table),
        ("[^1]:\n: b", true, Rule::Footnote),
        ("[^ 1]: a", true, Rule::Paragraph),
        ("2. a | b\n-|-", true, Rule::Item),
        ("2. a | b\n-|-", false, Rule::Table),
        ("2. a\n: b", true, Rule::Item),
        ("2. a\n: b", false, Rule::Paragraph),
        ("<p> a | b\n-|-", true, Rule::Html),
        ("<p>\n: b", false, Rule::Html),
        ("- <p>", true, Rule::Item),
        ("- <p>", false, Rule::Paragraph),
        ("    <p>", true, Rule::Code),
        ("a\n: b", true, Rule::Definitions),
        ("a", true, Rule::Paragraph),
    ];
    for (text, nests, rule) in rows {
        let lines = lines_of(rt.alloc(), text)?;
        let (line, later) = lines.as_slice().split_first().expect(&rt, text);
        assert_eq!(rt;
            block_start(nests, Items::All, line, later).rule(),
            rule,
            "{text}"
        );
    }
    Ok(())
}

#[test]
fn some_blocks_end_a_paragraph(rt: HostRuntime) -> Result<(), Fail> {
    let rows = [
        ("```", true, true),
        ("---", true, true),
        ("# a", true, true),
        ("> a", true, true),
        ("> a", false, false),
        ("1. a", true, true),
        ("2. a", true, false),
        ("-", true, false),
        ("2. a | b\n-|-", true, true),
        ("a\n:\tb", true, true),
        ("a\n:\tb", false, false),
        (": a\n: b", true, false),
        ("    a", true, false),
        ("[^1]:", true, true),
        ("[^1]:", false, false),
        ("</DIV>", true, true),
        ("<span>", true, false),
        ("<!--", false, true),
    ];
    for (text, nests, ends) in rows {
        let lines = lines_of(rt.alloc(), text)?;
        let (line, later) = lines.as_slice().split_first().expect(&rt, text);
        assert_eq!(rt; interrupts(nests, line, later), ends, "{text}");
    }
    Ok(())
}

#[test]
fn a_table_starts_at_a_header_and_delimiters(rt: HostRuntime) -> Result<(), Fail> {
    let rows = [
        ("| a\\|b |\n|---|", true),
        ("a | b\n:-|-:", true),
        ("|\n|-|", true),
        ("||\n|:-:|", true),
        ("| a |", false),
        ("a\n|---|", false),
        ("a \\|\n|---|", false),
        ("a |\n---", false),
        ("| a |\n|:|", false),
        ("| a |\n|- -|", false),
        ("| a | b |\n|---|", false),
        ("| a |\n|---|---|", false),
        ("    | a |\n|---|", false),
        ("| a |\n    |---|", false),
    ];
    for (text, starts) in rows {
        let lines = lines_of(rt.alloc(), text)?;
        let (line, later) = lines.as_slice().split_first().expect(&rt, text);
        assert_eq!(rt; starts_table(line, later), starts, "{text}");
    }
    Ok(())
}

#[test]
fn rows_end_where_another_block_begins(rt: HostRuntime) -> Result<(), Fail> {
    let rows = [
        ("| a |\nb | c\n\n| d |", true, 2),
        ("| a |\nb", true, 1),
        ("| a |\n# | b |", false, 1),
        ("``` | a", false, 0),
        ("> | a", true, 0),
        ("> | a", false, 1),
        ("2. | a", true, 0),
        ("2. | a", false, 1),
        ("    | a |", true, 0),
        ("<p> | a", false, 0),
        ("<b> | a", false, 1),
        ("[^1]: | a", true, 0),
        ("[^1]: | a", false, 1),
    ];
    for (text, nests, count) in rows {
        let lines = lines_of(rt.alloc(), text)?;
        assert_eq!(rt; row_count(nests, lines.as_slice()), count, "{text}");
    }
    Ok(())
}

#[test]
fn html_blocks_begin_at_tags_of_these_elements(rt: HostRuntime) {
    let rows = [
        ("<pre", Some(HtmlEnd::RawElement)),
        ("   <SCRIPT>alert", Some(HtmlEnd::RawElement)),
        ("<style\ttype", Some(HtmlEnd::RawElement)),
        ("<pre/>", None),
        ("</pre>", None),
        ("<prefix>", None),
        ("<!-- a", Some(HtmlEnd::Comment)),
        ("<!-->", Some(HtmlEnd::Comment)),
        ("<! --", None),
        ("<address", Some(HtmlEnd::EmptyLine)),
        ("</ul >", Some(HtmlEnd::EmptyLine)),
        ("<h6>a", Some(HtmlEnd::EmptyLine)),
        ("<h7>a", None),
        ("<Hr/>", Some(HtmlEnd::EmptyLine)),
        ("<hr/a", None),
        ("<hr /a", Some(HtmlEnd::EmptyLine)),
        ("<//hr>", None),
        ("< div>", None),
        ("<div-a>", None),
        ("<divs>", None),
        ("<span>", None),
        ("<>", None),
        ("<", None),
        ("a<div>", None),
        ("    <div>", None),
    ];
    for (text, end) in rows {
        assert_eq!(rt; html_end(&line_of(text)), end, "{text}");
    }
}

#[test]
fn a_footnote_has_a_label_of_its_own(rt: HostRuntime) {
    let rows = [
        ("[^1]: a", Some("1")),
        ("  [^x-y]:a", Some("x-y")),
        ("[^\u{e9}!]:", Some("\u{e9}!")),
        ("[^^]::", Some("^")),
        ("[^]: a", None),
        ("[^a b]: c", None),
        ("[^a\tb]: c", None),
        ("[^a[b]: c", None),
        ("[^a]", None),
        ("[^a] : b", None),
        ("[a]: b", None),
        ("[^a", None),
        ("    [^a]: b", None),
    ];
    for (text, label) in rows {
        let found = footnote_label(&line_of(text));
        assert_eq!(rt; found.as_ref().map(|label| label.as_str()), label, "{text}");
    }
}

/// The cells of a line, each in brackets.
fn cells_shown(alloc: Global, line: &Line) -> Result<String, AllocError> {
    let mut shown = String::new(alloc);
    let mut cells = Cells::of(line);
    while let Some(cell) = cells.next_cell() {
        write!(shown, "[{cell}]")?;
    }
    Ok(shown)
}

#[test]
fn a_line_is_cut_into_cells_at_its_bars(rt: HostRuntime) -> Result<(), Fail> {
    let rows = [
        ("| a\\|b |", "[a\\|b]"),
        ("| `a|b` |", "[`a][b`]"),
        ("|a|b", "[a][b]"),
        ("a | b |\t", "[a][b]"),
        ("a \\|", "[a \\|]"),
        ("|é||漢\\\\|", "[é][][漢\\\\|]"),
        ("|", "[]"),
        ("||", "[]"),
        ("|||", "[][]"),
    ];
    for (text, cells) in rows {
        let lines = lines_of(rt.alloc(), text)?;
        let line = lines.as_slice().first().expect(&rt, text);
        assert_eq!(rt; cells_shown(rt.alloc(), line)?.as_str(), cells, "{text}");
    }
    let sides = alignments(rt.alloc(), &line_of("|:-|-:|:-:|---|"))?;
    let wanted = [
        Alignment::Left,
        Alignment::Right,
        Alignment::Center,
        Alignment::None,
    ];
    assert_eq!(rt; sides.as_slice(), wanted.as_slice());
    Ok(())
}
