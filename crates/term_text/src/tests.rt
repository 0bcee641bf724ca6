// What the calls answer on examples.
use crate::{
    Color, Counted, CowStr, Cutter, Extent, Line, Modifier, NoSteps, RowIndex, Span, Stack, Steps,
    Style, Text, end_length, first_end, next_line, next_line_of_bytes,
};
use std::alloc::{AllocError, Global};
use std::test::Fail;

/// The rows of the line, each with a bar behind it, and how many there are.
fn rows(alloc: Global, line: &Line, width: usize) -> Result<(String, u64), AllocError> {
    let mut shown = String::new(alloc);
    let mut steps = Steps::new(Counted::new());
    if line.fits(width) {
        let mut cutter = Cutter::new(line, width);
        for _ in 0..u64::MAX {
            let Some(row) = cutter.next_row(&mut steps) else {
                break;
            };
            for graph in row.graphemes() {
                shown.push_str(graph.symbol)?;
            }
            shown.push_str("|")?;
        }
    }
    let count = steps.ledger().count();
    Ok((shown, count))
}

fn line_of<'a>(alloc: Global, text: &'a str) -> Result<Line<'a>, AllocError> {
    let mut line = Line::new(alloc);
    line.push_span(Span::raw(CowStr::borrowed(text)))?;
    Ok(line)
}

#[test]
fn rows_end_before_the_last_blank_that_fits(rt: HostRuntime) -> Result<(), Fail> {
    let cases = [
        ("aaa bbb", 5, "aaa|bbb|", 2),
        // A blank that does not fit ends a row too, and the blanks behind it go.
        ("aaaaa  bb", 5, "aaaaa|bb|", 2),
        ("abcdefg", 3, "abc|def|g|", 3),
        // A no-break space is blank.
        ("aaa\u{a0}bbb", 5, "aaa|bbb|", 2),
        // A tab takes no cell.
        ("a\tb c\tdefg", 4, "ab|cdef|g|", 3),
        // Wide characters, and one that is put together.
        ("漢字かな", 5, "漢字|かな|", 2),
        ("e\u{301}e\u{301} x", 2, "e\u{301}e\u{301}|x|", 2),
        // Other characters that are graphemes by themselves, of one column and of two.
        ("──┼──", 3, "──┼|──|", 2),
        ("──── ──", 3, "───|─|──|", 3),
        ("пункт один", 5, "пункт|один|", 2),
        ("漢字 かな。", 4, "漢字|かな|。|", 3),
        ("  a", 2, " |a|", 2),
        ("", 1, "|", 1),
    ];
    for (text, width, want, count) in cases {
        let line = line_of(rt.alloc(), text)?;
        let (shown, steps) = rows(rt.alloc(), &line, width)?;
        assert_eq!(rt; shown.as_str(), want, "{text}");
        assert_eq!(rt; steps, count, "{text}");
    }
    Ok(())
}

#[test]
fn wide_characters_need_their_room(rt: HostRuntime) -> Result<(), Fail> {
    let line = line_of(rt.alloc(), "a漢")?;
    assert_eq!(rt; line.width(), 3);
    assert_eq!(rt;
        line.extent(),
        Extent {
            columns: 3,
            widest: 2
        }
    );
    assert!(rt; line.fits(2));
    assert!(rt; !line.fits(1));
    let plain = line_of(rt.alloc(), "abc")?;
    assert_eq!(rt; plain.width(), 3);
    assert!(rt; plain.fits(1));
    assert!(rt; !plain.fits(0));
    Ok(())
}

#[test]
fn a_span_has_columns_and_a_widest_grapheme(rt: HostRuntime) -> Result<(), Fail> {
    let rows = [
        ("", 0, 0),
        ("abc", 3, 1),
        ("a\tb", 2, 1),
        ("é漢b", 4, 2),
        ("e\u{301}", 1, 1),
        ("👨\u{200d}👩\u{200d}👧!", 3, 2),
    ];
    for (text, columns, widest) in rows {
        let span = Span::raw(CowStr::borrowed(text));
        assert_eq!(rt; span.extent(), Extent { columns, widest }, "{text:?}");
        assert_eq!(rt; span.width(), columns, "{text:?}");
    }
    let glyph = Span::glyph(CowStr::borrowed("abc"), Style::new());
    let whole = Extent {
        columns: 3,
        widest: 3,
    };
    assert_eq!(rt; glyph.extent(), whole);
    Ok(())
}

#[test]
fn a_glyph_is_one_grapheme(rt: HostRuntime) -> Result<(), Fail> {
    let red = Style::new().red();
    let glyph = Span::glyph(CowStr::borrowed("abc"), red);
    assert_eq!(rt; glyph.width(), 3);
    let mut graphs = glyph.graphemes();
    let first = graphs.next().ok_or("none")?;
    assert_eq!(rt; first.symbol, "abc");
    assert_eq!(rt; first.width, 3);
    assert!(rt; graphs.next().is_none());
    let text = glyph.with_style(Style::new().bold());
    assert!(rt; text.is_glyph());
    assert_eq!(rt; text.text(), "abc");
    Ok(())
}

#[test]
fn a_span_has_its_style_over_the_lines(rt: HostRuntime) -> Result<(), Fail> {
    let mut line = Line::new(rt.alloc());
    line.set_style(Style::new().red().bold());
    line.push_span(Span::styled(CowStr::borrowed("a "), Style::new().blue()))?;
    line.push_span(Span::raw(CowStr::borrowed("")))?;
    assert_eq!(rt; line.spans().len(), 1);
    let mut graphs = line.graphemes();
    let first = graphs.next().ok_or("none")?;
    assert_eq!(rt; first.style, Style::new().blue().bold());
    assert!(rt; !first.blank);
    let second = graphs.next().ok_or("none")?;
    assert!(rt; second.blank);
    assert!(rt; graphs.next().is_none());
    Ok(())
}

#[test]
fn a_later_style_wins(rt: HostRuntime) -> Result<(), Fail> {
    let under = Style::new().red().on_black().bold().italic();
    let over = Style::new().green().remove_modifier(Modifier::BOLD);
    let both = under.patch(over);
    assert_eq!(rt; both.fg, Some(Color::Green));
    assert_eq!(rt; both.bg, Some(Color::Black));
    assert_eq!(rt; both.add, Modifier::ITALIC);
    assert_eq!(rt; both.sub, Modifier::BOLD);
    assert_eq!(rt; under.patch(Style::reset()).add, Modifier::default());
    assert_eq!(rt; Style::reset().patch(Style::new().dim()).add, Modifier::DIM);
    Ok(())
}

#[test]
fn lines_end_at_lf_crlf_and_cr(rt: HostRuntime) -> Result<(), Fail> {
    let mut text = "a\r\nb\rc\n\nd";
    let wants = ["a", "b", "c", "", "d"];
    for want in wants {
        if text.is_empty() {
            return Err(Fail::from("too few lines"));
        }
        let (line, rest) = next_line(text);
        assert_eq!(rt; line, want);
        text = rest;
    }
    assert_eq!(rt; text, "");
    let (line, rest) = next_line_of_bytes(b"x\r\n");
    assert_eq!(rt; line, b"x".as_slice());
    assert_eq!(rt; rest.len(), 0);
    assert_eq!(rt; first_end(b"abc\rd"), 3);
    assert_eq!(rt; end_length(b"\r\nd"), 2);
    Ok(())
}

#[test]
fn texts_are_borrowed_or_owned(rt: HostRuntime) -> Result<(), Fail> {
    let borrowed = CowStr::borrowed("a");
    assert_eq!(rt; borrowed.as_borrowed(), Some("a"));
    let owned = CowStr::owned(String::from_str(rt.alloc(), "b")?);
    assert!(rt; owned.as_borrowed().is_none());
    let copy = owned.try_clone(rt.alloc())?;
    assert_eq!(rt; copy.as_str(), "b");
    let line = Line::from_text(rt.alloc(), "x\n\ny")?;
    assert_eq!(rt; line.spans().len(), 2);
    let mut text = Text::new(rt.alloc());
    text.push_line(line)?;
    assert_eq!(rt; text.lines().len(), 1);
    Ok(())
}

#[test]
fn copies_of_spans_borrow_or_own_their_texts(rt: HostRuntime) -> Result<(), Fail> {
    let glyph = Span::glyph(CowStr::borrowed("ab"), Style::new().red());
    let copy = glyph.try_clone(rt.alloc())?;
    assert_eq!(rt; copy.cow().as_borrowed(), Some("ab"));
    let owned = copy.try_to_owned(rt.alloc())?;
    assert!(rt; owned.cow().as_borrowed().is_none());
    assert!(rt; owned.is_glyph());
    let mut line = Line::with_capacity(rt.alloc(), 2)?;
    assert!(rt; line.spans().is_empty());
    line.push_span(owned)?;
    assert_eq!(rt; line.into_spans().len(), 1);
    Ok(())
}

#[test]
fn the_last_item_is_the_top(rt: HostRuntime) -> Result<(), Fail> {
    let mut stack = Stack::new(rt.alloc());
    stack.push(1u8)?;
    stack.push(2u8)?;
    assert_eq!(rt; stack.pop(), Some(2));
    assert!(rt; !stack.is_empty());
    let mut steps = Steps::new(NoSteps);
    let line = line_of(rt.alloc(), "ab")?;
    if line.fits(1) {
        let mut cutter = Cutter::new(&line, 1);
        assert!(rt; cutter.next_row(&mut steps).is_some());
    }
    Ok(())
}

#[test]
fn rows_of_two_lines(rt: HostRuntime) -> Result<(), Fail> {
    let alloc = rt.alloc();
    let mut index = RowIndex::new(alloc);
    assert_eq!(rt; (index.lines(), index.total()), (0, 0));
    index.push(2)?;
    index.push(3)?;
    assert_eq!(rt; (index.lines(), index.total()), (2, 5));
    let mut steps = Steps::new(Counted::new());
    assert_eq!(rt; index.before(0, &mut steps), 0);
    assert_eq!(rt; index.before(1, &mut steps), 2);
    assert_eq!(rt; index.before(2, &mut steps), 5);
    assert_eq!(rt; steps.ledger().count(), 3);
    assert_eq!(rt; RowIndex::with_capacity(alloc, 2)?.lines(), 0);
    Ok(())
}
