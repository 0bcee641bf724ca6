// Pages drawn by example.
use crate::Page;
use std::alloc::{AllocError, Global};
use std::test::Fail;
use term_core::{Buffer, Cell, Counted, Line, NoSteps, Rect, Steps, Text, WidgetError};

/// The page of a text of these lines.
fn page_of<'a>(alloc: Global, lines: &[&'a str], width: u16) -> Result<Page<'a>, WidgetError> {
    let mut text = Text::new(alloc);
    for line in lines {
        text.push_line(Line::from_text(alloc, line)?)?;
    }
    Page::new(alloc, text, width)
}

/// The symbols of a buffer, with a comma after each row.
fn symbols(alloc: Global, buffer: &Buffer) -> Result<String, AllocError> {
    let mut out = String::new(alloc);
    for row in buffer.rows() {
        for cell in row {
            out.push_str(cell.symbol())?;
        }
        out.push_str(",")?;
    }
    Ok(out)
}

#[test]
fn lines_wrap_at_blanks_and_scroll(rt: HostRuntime) -> Result<(), Fail> {
    let alloc = rt.alloc();
    for (text, width, scroll, rows) in [
        ("aa bb cc", 5, 0, "aa bb,cc   ,"),
        ("abcdefgh", 5, 0, "abcde,fgh  ,"),
        ("漢", 2, 0, "漢 ,  ,"),
        ("aa bb cc", 5, 1, "cc   ,     ,"),
        ("aa bb cc", 5, 9, "     ,     ,"),
        ("aaa\u{a0}bbb", 5, 0, "aaa  ,bbb  ,"),
    ] {
        let page = page_of(alloc, [text].as_slice(), width)?;
        let area = Rect::new(0, 0, page.width(), 2);
        let mut buffer = Buffer::empty(alloc, area)?;
        let mut steps = Steps::new(NoSteps);
        let mut cuts = Steps::new(NoSteps);
        page.draw(alloc, area, scroll, &mut buffer, &mut steps, &mut cuts)?;
        assert_eq!(rt; symbols(alloc, &buffer)?.as_str(), rows, "of {text:?}");
    }
    Ok(())
}

#[test]
fn an_area_is_cut_to_the_buffer(rt: HostRuntime) -> Result<(), Fail> {
    let alloc = rt.alloc();
    let mut filled = Cell::blank(alloc);
    filled.set_char('x');
    let mut buffer = Buffer::filled(alloc, Rect::new(0, 0, 4, 3), &filled)?;
    let page = page_of(alloc, ["ab", "", "cd"].as_slice(), 3)?;
    assert_eq!(rt; page.len(), 3);
    assert_eq!(rt; page.lines(), 3);
    let area = Rect::new(1, 1, 9, 9);
    let width = area.intersection(buffer.area()).width();
    assert_eq!(rt; width, page.width());
    let mut probes = Steps::new(Counted::new());
    let mut cuts = Steps::new(Counted::new());
    page.draw(alloc, area, 0, &mut buffer, &mut probes, &mut cuts)?;
    assert_eq!(rt; symbols(alloc, &buffer)?.as_str(), "xxxx,xab ,x   ,");
    Ok(())
}

#[test]
fn a_grapheme_wider_than_the_page(rt: HostRuntime) -> Result<(), Fail> {
    let alloc = rt.alloc();
    assert!(rt;
        matches!(
            page_of(alloc, ["a", "漢"].as_slice(), 1),
            Err(WidgetError::TooNarrow)
        )
    );
    assert_eq!(rt; page_of(alloc, ["\t", ""].as_slice(), 0)?.len(), 2);
    let empty = Page::empty(alloc);
    assert_eq!(rt; (empty.len(), empty.lines(), empty.width()), (0, 0, 0));
    assert!(rt; empty.line(0).is_none());
    assert_eq!(rt; empty.first_row(0), 0);
    assert_eq!(rt; steps_of(alloc, &empty, 2, 0)?, (0, 0));
    Ok(())
}

/// How many probes and cuts it takes to draw so many rows of a page, from the row `scroll` on.
fn steps_of(
    alloc: Global,
    page: &Page,
    height: u16,
    scroll: usize,
) -> Result<(u64, u64), AllocError> {
    let area = Rect::new(0, 0, page.width(), height);
    let mut buffer = Buffer::empty(alloc, area)?;
    let mut probes = Steps::new(Counted::new());
    let mut cuts = Steps::new(Counted::new());
    page.draw(alloc, area, scroll, &mut buffer, &mut probes, &mut cuts)?;
    Ok((probes.ledger().count(), cuts.ledger().count()))
}

#[test]
fn a_draw_cuts_what_it_shows_and_what_is_above_in_the_line(rt: HostRuntime) -> Result<(), Fail> {
    let alloc = rt.alloc();
    let mut letters = String::new(alloc);
    for _ in 0..100 {
        letters.push_str("a")?;
    }
    let one = page_of(alloc, [letters.as_str()].as_slice(), 10)?;
    for (height, scroll, cuts) in [
        (2, 7, 9),
        (2, 0, 2),
        (2, 9, 10),
        (9, 9, 10),
        (2, 10, 0),
        (0, 3, 0),
    ] {
        assert_eq!(rt; steps_of(alloc, &one, height, scroll)?, (0, cuts));
    }
    let four = page_of(alloc, ["a", letters.as_str(), "", "b"].as_slice(), 10)?;
    for (height, scroll, cuts) in [(3, 0, 3), (1, 1, 1), (3, 10, 12), (3, 11, 2), (9, 12, 1)] {
        assert_eq!(rt; steps_of(alloc, &four, height, scroll)?, (2, cuts));
    }
    assert_eq!(rt; steps_of(alloc, &four, 3, 13)?, (0, 0));
    Ok(())
}

#[test]
fn lines_of_a_page_and_their_first_rows(rt: HostRuntime) -> Result<(), Fail> {
    let alloc = rt.alloc();
    let page = page_of(alloc, ["aa bb cc", "", "漢字"].as_slice(), 2)?;
    assert_eq!(rt; page.len(), 6);
    for (index, row) in [(0, 0), (1, 3), (2, 4), (3, 6)] {
        if index <= page.lines() {
            assert_eq!(rt; page.first_row(index), row);
        }
    }
    let line = page.line(2).ok_or("a line")?;
    assert_eq!(rt; line.width(), 4);
    assert!(rt; page.line(1).is_some_and(|line| line.spans().is_empty()));
    assert!(rt; page.line(3).is_none());
    Ok(())
}

#[test]
fn a_page_at_another_width(rt: HostRuntime) -> Result<(), Fail> {
    let alloc = rt.alloc();
    let mut page = page_of(alloc, ["aa bb cc"].as_slice(), 5)?;
    page.rewrap(2)?;
    let area = Rect::new(0, 0, page.width(), 4);
    let mut buffer = Buffer::empty(alloc, area)?;
    let mut probes = Steps::new(NoSteps);
    let mut cuts = Steps::new(NoSteps);
    page.draw(alloc, area, 0, &mut buffer, &mut probes, &mut cuts)?;
    assert_eq!(rt; symbols(alloc, &buffer)?.as_str(), "aa,bb,cc,  ,");
    assert_eq!(rt; (page.len(), page.lines(), page.width()), (3, 1, 2));
    let mut wide = page_of(alloc, ["漢"].as_slice(), 2)?;
    assert!(rt; matches!(wide.rewrap(1), Err(WidgetError::TooNarrow)));
    assert_eq!(rt; (wide.len(), wide.lines(), wide.width()), (1, 1, 2));
    Ok(())
}
