// Answers that stand outside the contracts: ample memory, printed texts, cells by example.
use crate::{
    Buffer, Caption, Cell, Color, CowStr, Line, Modifier, Paint, Rect, Span, Style, WidgetError,
};
use std::test::Fail;

#[test]
fn common_part_of_two_rectangles(rt: HostRuntime) {
    let cut = Rect::new(2, 3, 10, 10).intersection(Rect::new(5, 0, 4, 8));
    assert_eq!(rt; cut, Rect::new(5, 3, 4, 5));
    assert_eq!(rt; cut.right(), 9);
    assert_eq!(rt; cut.bottom(), 8);
    assert!(rt;
        Rect::new(0, 0, 2, 2)
            .intersection(Rect::new(2, 0, 2, 2))
            .is_empty()
    );
    assert_eq!(rt; Rect::new(65_530, 0, 10, 1).width(), 5);
}

#[test]
fn cells_of_a_buffer(rt: HostRuntime) -> Result<(), Fail> {
    let alloc = rt.alloc();
    let mut cell = Cell::new(alloc, "e\u{301}")?;
    cell.set_style(Style::new().red().bold());
    let area = Rect::new(1, 1, 2, 2);
    let mut buffer = Buffer::filled(alloc, area, &cell)?;
    assert_eq!(rt; buffer.area(), area);
    buffer.set_cell(2, 1, Cell::blank(alloc));
    buffer.set_style(Rect::new(2, 0, 9, 2), Style::new().on_black());
    let shown = buffer.cell(1, 2).ok_or("inside")?;
    assert_eq!(rt; shown.symbol(), "e\u{301}");
    assert_eq!(rt; shown.fg(), Color::Red);
    assert_eq!(rt; shown.bg(), Color::Reset);
    assert_eq!(rt; shown.modifier(), Modifier::BOLD);
    let blank = buffer.cell(2, 1).ok_or("inside")?;
    assert_eq!(rt; blank.symbol(), " ");
    assert_eq!(rt; blank.bg(), Color::Black);
    assert!(rt; buffer.cell(0, 1).is_none());
    assert!(rt; buffer.cell(3, 1).is_none());
    Ok(())
}

#[test]
fn symbols_of_nine_to_sixty_four_bytes(rt: HostRuntime) -> Result<(), Fail> {
    let alloc = rt.alloc();
    // 18, 25 and 28 bytes: a family, a family of four, a flag of a region.
    let families = [
        "👨\u{200d}👩\u{200d}👧",
        "👨\u{200d}👩\u{200d}👧\u{200d}👦",
        "🏴\u{e0067}\u{e0062}\u{e0065}\u{e006e}\u{e0067}\u{e007f}",
    ];
    for symbol in families {
        let cell = Cell::new(alloc, symbol)?;
        assert_eq!(rt; cell.symbol(), symbol);
        assert_eq!(rt; cell.try_clone(alloc)?.symbol(), symbol);
        let buffer = Buffer::filled(alloc, Rect::new(0, 0, 3, 2), &cell)?;
        assert_eq!(rt; buffer.cell(2, 1).map_or("", |cell| cell.symbol()), symbol);
    }
    let mut symbol = String::from_str(alloc, "e")?;
    for _ in 0..31 {
        symbol.push_str("\u{301}")?;
        let cell = Cell::new(alloc, &symbol)?;
        assert_eq!(rt; cell.symbol(), symbol.as_str());
        assert_eq!(rt; cell.try_clone(alloc)?.symbol(), symbol.as_str());
    }
    Ok(())
}

#[test]
fn texts_of_refusals(rt: HostRuntime) -> Result<(), Fail> {
    let memory = format!(in rt.alloc(); "{}", WidgetError::Memory)?;
    assert_eq!(rt; memory.as_str(), "out of memory");
    let narrow = format!(in rt.alloc(); "{}", WidgetError::TooNarrow)?;
    assert_eq!(rt; narrow.as_str(), "a character is wider than the page");
    Ok(())
}

#[test]
fn spans_of_lines_copies_of_texts_and_long_symbols(rt: HostRuntime) -> Result<(), Fail> {
    let alloc = rt.alloc();
    let line = Line::from_text(alloc, "a\nb")?;
    let [first, second] = line.spans() else {
        return Err(Fail::new("two spans"));
    };
    assert_eq!(rt; (first.text(), second.text()), ("a", "b"));
    assert_eq!(rt; (first.style(), second.is_glyph()), (Style::new(), false));
    assert_eq!(rt; CowStr::borrowed("ab").try_clone(alloc)?.as_str(), "ab");
    assert_eq!(rt; Cell::new(alloc, "abcdefghi")?.symbol(), "abcdefghi");
    Ok(())
}

#[test]
fn a_caption_over_cells(rt: HostRuntime) -> Result<(), Fail> {
    let alloc = rt.alloc();
    let mut cell = Cell::new(alloc, "x")?;
    cell.set_style(Style::new().on_black().italic());
    let mut line = Line::new(alloc);
    line.push_span(Span::styled(CowStr::borrowed("\u{200b}a漢"), Style::new().red().bold()))?;
    line.push_span(Span::raw(CowStr::borrowed("漢b")))?;
    let mut buffer = Buffer::filled(alloc, Rect::new(1, 1, 5, 1), &cell)?;
    Caption::new(alloc, &line, 4)?.write(alloc, 2, 1, &mut buffer);
    Caption::empty(alloc).write(alloc, 1, 1, &mut buffer);
    for (x, symbol, fg, bg) in [
        (1, "x", Color::Reset, Color::Black),
        (2, "a", Color::Red, Color::Black),
        (3, "漢", Color::Red, Color::Black),
        (4, " ", Color::Reset, Color::Reset),
        (5, "x", Color::Reset, Color::Black),
    ] {
        let cell = buffer.cell(x, 1).ok_or("inside")?;
        assert_eq!(rt; (cell.symbol(), cell.fg(), cell.bg()), (symbol, fg, bg));
    }
    let first = buffer.cell(2, 1).ok_or("inside")?;
    assert_eq!(rt; first.modifier(), Style::new().italic().bold().add);
    Ok(())
}

#[test]
fn a_painted_cell(rt: HostRuntime) -> Result<(), Fail> {
    let alloc = rt.alloc();
    let mut buffer = Buffer::empty(alloc, Rect::new(0, 0, 1, 1))?;
    buffer.set_style(buffer.area(), Style::new().on_black().bold());
    let paint = Paint {
        symbol: '▀',
        fg: Some(Color::Red),
        bg: None,
    };
    buffer.paint(0, 0, paint);
    let cell = buffer.cell(0, 0).ok_or("inside")?;
    assert_eq!(rt;
        (cell.symbol(), cell.fg(), cell.bg()),
        ("▀", Color::Red, Color::Black)
    );
    assert_eq!(rt; cell.modifier(), Modifier::BOLD);
    Ok(())
}
