// Widgets drawn by example, and on each small area against a plain model.
ghost use Rattle.std.specs.Prelude.{◌<◌, ◌≤◌};

use crate::{Block, Paragraph};
use std::alloc::{AllocError, Global};
use std::test::Fail;
use term_core::{
    Buffer, Cell, Color, CowStr, Line, Modifier, Paint, Rect, Span, Style, Text, Widget,
    WidgetError,
};

/// A text of these lines.
fn text_of<'a>(alloc: Global, lines: &[&'a str]) -> Result<Text<'a>, AllocError> {
    let mut text = Text::new(alloc);
    for line in lines {
        text.push_line(Line::from_text(alloc, line)?)?;
    }
    Ok(text)
}

/// A buffer of `x`, green on blue and in italics.
fn ground(alloc: Global, area: Rect) -> Result<Buffer, AllocError> {
    let mut cell = Cell::new(alloc, "x")?;
    cell.set_style(Style::new().green().bg(Color::Blue).italic());
    Buffer::filled(alloc, area, &cell)
}

/// The symbols of a buffer, with a comma after each row.
fn symbols(alloc: Global, buffer: &Buffer) -> Result<String, AllocError> {
    let mut out = String::new(alloc);
    for row in buffer.rows() {
        for cell in row {
            out.push_str(cell.symbol())?;
        }
        out.push_str(",")?;
    }
    Ok(out)
}

#[test]
fn a_paragraph_in_a_bordered_block(rt: HostRuntime) -> Result<(), Fail> {
    let alloc = rt.alloc();
    let area = Rect::new(0, 0, 6, 4);
    let block = Block::bordered().title(Line::from_text(alloc, "T")?);
    assert_eq!(rt; block.inner(area), Rect::new(1, 1, 4, 2));
    let paragraph = Paragraph::new(text_of(alloc, ["ab cd"].as_slice())?);
    let mut buffer = Buffer::empty(alloc, area)?;
    paragraph.block(block).render(alloc, area, &mut buffer)?;
    assert_eq!(rt;
        symbols(alloc, &buffer)?.as_str(),
        "┌T───┐,│ab  │,│cd  │,└────┘,"
    );
    let scrolled = Paragraph::new(text_of(alloc, ["ab cd", "", "ef"].as_slice())?).scroll(1);
    let mut buffer = Buffer::empty(alloc, area)?;
    scrolled
        .block(Block::bordered())
        .render(alloc, area, &mut buffer)?;
    assert_eq!(rt;
        symbols(alloc, &buffer)?.as_str(),
        "┌────┐,│cd  │,│    │,└────┘,"
    );
    Ok(())
}

#[test]
fn a_title_without_borders_takes_the_top_row(rt: HostRuntime) -> Result<(), Fail> {
    let alloc = rt.alloc();
    let area = Rect::new(0, 0, 1, 2);
    let block = Block::new().title(Line::from_text(alloc, "AB")?);
    let mut buffer = Buffer::empty(alloc, area)?;
    (&block).render(alloc, area, &mut buffer)?;
    assert_eq!(rt; symbols(alloc, &buffer)?.as_str(), "A, ,");
    assert_eq!(rt; block.inner(area), Rect::new(0, 1, 1, 1));
    Ok(())
}

#[test]
fn inner_areas_do_not_pass_the_end(rt: HostRuntime) -> Result<(), Fail> {
    let alloc = rt.alloc();
    let titled = Block::new().title(Line::new(alloc));
    for (area, within, below) in [
        (
            Rect::new(3, 4, 0, 0),
            Rect::new(3, 4, 0, 0),
            Rect::new(3, 4, 0, 0),
        ),
        (
            Rect::new(3, 4, 1, 1),
            Rect::new(4, 5, 0, 0),
            Rect::new(3, 5, 1, 0),
        ),
        (
            Rect::new(3, 4, 2, 2),
            Rect::new(4, 5, 0, 0),
            Rect::new(3, 5, 2, 1),
        ),
        (
            Rect::new(65_533, 65_534, 2, 1),
            Rect::new(65_534, 65_535, 0, 0),
            Rect::new(65_533, 65_535, 2, 0),
        ),
    ] {
        assert_eq!(rt; Block::bordered().inner(area), within);
        assert_eq!(rt; titled.inner(area), below);
        assert_eq!(rt; Block::new().inner(area), area);
    }
    Ok(())
}

#[test]
fn a_refused_paragraph_changes_no_cell(rt: HostRuntime) -> Result<(), Fail> {
    let alloc = rt.alloc();
    let area = Rect::new(0, 0, 3, 3);
    let mut buffer = ground(alloc, area)?;
    let paragraph = Paragraph::new(text_of(alloc, ["漢"].as_slice())?).block(Block::bordered());
    let answer = paragraph.render(alloc, area, &mut buffer);
    assert_eq!(rt; answer, Err(WidgetError::TooNarrow));
    assert_eq!(rt; symbols(alloc, &buffer)?.as_str(), "xxx,xxx,xxx,");
    let small = Rect::new(0, 0, 2, 3);
    let paragraph = Paragraph::new(text_of(alloc, ["漢"].as_slice())?).block(Block::bordered());
    paragraph.render(alloc, small, &mut buffer)?;
    assert_eq!(rt; symbols(alloc, &buffer)?.as_str(), "┌┐x,││x,└┘x,");
    Ok(())
}

/// A title with a grapheme of two characters, one of no columns, a wide one and a narrow one.
const TITLE: &str = "e\u{301}\u{200b}漢y";

/// What a plain model expects of a cell: its symbol, and its colours and modifiers.
#[derive(Clone, Copy)]
struct Look<'a> {
    symbol: &'a str,
    fg: Color,
    bg: Color,
    modifier: Modifier,
}

impl<'a> Look<'a> {
    /// The cell as it was.
    fn ground() -> Look<'a> {
        Look {
            symbol: "x",
            fg: Color::Green,
            bg: Color::Blue,
            modifier: Modifier::ITALIC,
        }
    }

    /// A blank cell with another symbol.
    fn plain(symbol: &'a str) -> Look<'a> {
        Look {
            symbol,
            fg: Color::Reset,
            bg: Color::Reset,
            modifier: Modifier::default(),
        }
    }

    /// The same colours with another symbol.
    fn with_symbol(self, symbol: &'a str) -> Look<'a> {
        Look { symbol, ..self }
    }

    fn is(self, cell: &Cell) -> bool {
        self.symbol == cell.symbol()
            && self.fg == cell.fg()
            && self.bg == cell.bg()
            && self.modifier == cell.modifier()
    }
}

/// The symbol of a border, by its place in an area of this size.
fn model_border(x: u16, y: u16, width: u16, height: u16) -> Option<&'static str>
    requires across { x < width }
    requires down { y < height }
{
    let is_right = x + 1 == width;
    let is_bottom = y + 1 == height;
    match (x == 0, is_right, y == 0, is_bottom) {
        (_, true, _, true) => Some("┘"),
        (true, _, _, true) => Some("└"),
        (_, true, true, _) => Some("┐"),
        (true, _, true, _) => Some("┌"),
        (true, _, _, _) | (_, true, _, _) => Some("│"),
        (_, _, true, _) | (_, _, _, true) => Some("─"),
        _ => None,
    }
}

/// A column of the title, where there is room for so many: `None` where it does not reach.
fn model_title(column: u16, room: u16) -> Option<Look<'static>> {
    let styled = Look {
        symbol: "y",
        fg: Color::Red,
        bg: Color::Blue,
        modifier: Style::new().italic().bold().add,
    };
    match column {
        0 if room >= 1 => Some(styled.with_symbol("e\u{301}")),
        1 if room >= 3 => Some(styled.with_symbol("漢")),
        2 if room >= 3 => Some(Look::plain(" ")),
        3 if room >= 4 => Some(styled),
        _ => None,
    }
}

/// What a block with the title makes of the cell at a place in an area of this size.
fn model_block(has_borders: bool, x: u16, y: u16, width: u16, height: u16) -> Look<'static>
    requires across { x < width }
    requires down { y < height }
{
    let (inset, room) = if has_borders {
        (1, width.saturating_sub(2))
    } else {
        (0, width)
    };
    if y == 0 && x >= inset {
        if let Some(look) = model_title(x - inset, room) {
            return look;
        }
    }
    match model_border(x, y, width, height) {
        Some(symbol) if has_borders => Look::ground().with_symbol(symbol),
        _ => Look::ground(),
    }
}

/// What a paragraph of `TEXT`, scrolled by one row, makes of such a cell. Its first row is the title's.
fn model_paragraph(has_borders: bool, x: u16, y: u16, width: u16, height: u16) -> Look<'static>
    requires across { x < width }
    requires down { y < height }
{
    let inset = if has_borders { 1 } else { 0 };
    let within = x >= inset
        && x < width.saturating_sub(inset)
        && y >= 1
        && y < height.saturating_sub(inset);
    if !within {
        return model_block(has_borders, x, y, width, height);
    }
    let columns = width.saturating_sub(inset).saturating_sub(inset) as usize;
    let at = y as usize * columns + (x - inset) as usize;
    Look::plain(TEXT.get(at..at + 1).unwrap_or(" "))
}

const TEXT: &str = "abcdefghijklmnop";

/// The widgets that are drawn on each area.
#[derive(Clone, Copy)]
enum Kind {
    Block(bool),
    Paragraph(bool),
}

fn titled<'a>(alloc: Global, has_borders: bool) -> Result<Block<'a>, AllocError> {
    let mut title = Line::new(alloc);
    title.push_span(Span::styled(CowStr::borrowed(TITLE), Style::new().red()))?;
    title.set_style(Style::new().bold());
    let block = if has_borders {
        Block::bordered()
    } else {
        Block::new()
    };
    Ok(block.title(title))
}

fn draw(alloc: Global, kind: Kind, area: Rect, buf: &mut Buffer) -> Result<(), WidgetError> {
    match kind {
        Kind::Block(has_borders) => (&titled(alloc, has_borders)?).render(alloc, area, buf),
        Kind::Paragraph(has_borders) => {
            let paragraph = Paragraph::new(text_of(alloc, [TEXT].as_slice())?).scroll(1);
            let block = titled(alloc, has_borders)?;
            paragraph.block(block).render(alloc, area, buf)
        }
    }
}

/// What a widget on an area makes of the cell at a place, where the buffer begins at (1, 1) and has 4 columns and 4 rows.
fn model(kind: Kind, area: Rect, x: u16, y: u16) -> Look<'static> {
    let (left, right) = (area.x().max(1), area.right().min(5));
    let (top, bottom) = (area.y().max(1), area.bottom().min(5));
    let inside = left <= x && x < right && top <= y && y < bottom;
    if !inside {
        return Look::ground();
    }
    let (column, row) = (x - left, y - top);
    let (width, height) = (right - left, bottom - top);
    match kind {
        Kind::Block(has_borders) => model_block(has_borders, column, row, width, height),
        Kind::Paragraph(has_borders) => model_paragraph(has_borders, column, row, width, height),
    }
}

/// Draws the widget, and counts the cells that are not those of the model.
fn differences(alloc: Global, kind: Kind, area: Rect) -> Result<u64, WidgetError> {
    let mut buffer = ground(alloc, Rect::new(1, 1, 4, 4))?;
    draw(alloc, kind, area, &mut buffer)?;
    let mut count = 0u64;
    for at in 0..16u16 {
        let (x, y) = (1 + at % 4, 1 + at / 4);
        match buffer.cell(x, y) {
            Some(cell) if model(kind, area, x, y).is(cell) => {}
            _ => count = count.saturating_add(1),
        }
    }
    Ok(count)
}

/// Where an area begins, before, in and behind the buffer.
fn start(number: u16) -> u16
    ensures { result < 7 }
{
    match number {
        0 => 0,
        1 => 1,
        2 => 3,
        3 => 4,
        _ => 6,
    }
}

/// An area that begins before, in or behind the buffer and has up to 4 columns and rows.
fn area_of(number: u16) -> Rect {
    Rect::new(
        start(number % 5),
        start(number / 5 % 5),
        number / 25 % 5,
        number / 125 % 5,
    )
}

/// The first area on which the widget is not that of the model.
fn first_difference(alloc: Global, kind: Kind) -> Result<Option<Rect>, WidgetError> {
    for number in 0..625u16 {
        let area = area_of(number);
        if differences(alloc, kind, area)? > 0 {
            return Ok(Some(area));
        }
    }
    Ok(None)
}

#[test]
fn blocks_on_small_areas(rt: HostRuntime) -> Result<(), Fail> {
    let alloc = rt.alloc();
    assert_eq!(rt; first_difference(alloc, Kind::Block(false))?, None);
    assert_eq!(rt; first_difference(alloc, Kind::Block(true))?, None);
    Ok(())
}

#[test]
fn paragraphs_on_small_areas(rt: HostRuntime) -> Result<(), Fail> {
    let alloc = rt.alloc();
    assert_eq!(rt; first_difference(alloc, Kind::Paragraph(false))?, None);
    assert_eq!(rt; first_difference(alloc, Kind::Paragraph(true))?, None);
    Ok(())
}

/// A widget of one's own: it marks the first cell of its area.
#[derive(Drop)]
struct Mark(char);

impl Widget for Mark {
    fn render(self, _alloc: Global, area: Rect, buf: &mut Buffer) -> Result<(), WidgetError> {
        let cut = area.intersection(buf.area());
        if cut.is_empty() {
            return Ok(());
        }
        let paint = Paint {
            symbol: self.0,
            fg: Some(Color::Red),
            bg: None,
        };
        buf.paint(cut.x(), cut.y(), paint);
        Ok(())
    }
}

/// Draws any widget within a border.
fn framed<W: Widget + Drop>(
    alloc: Global,
    widget: W,
    area: Rect,
    buf: &mut Buffer,
) -> Result<(), WidgetError>
    requires { W.can_render widget }
{
    let block = Block::bordered();
    (&block).render(alloc, area, buf)?;
    widget.render(alloc, block.inner(area), buf)
}

#[test]
fn a_widget_of_ones_own(rt: HostRuntime) -> Result<(), Fail> {
    let alloc = rt.alloc();
    let area = Rect::new(0, 0, 4, 3);
    let mut buffer = Buffer::empty(alloc, area)?;
    framed(alloc, Mark('*'), area, &mut buffer)?;
    assert_eq!(rt; symbols(alloc, &buffer)?.as_str(), "┌──┐,│* │,└──┘,");
    Ok(())
}
