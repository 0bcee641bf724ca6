// Blocks: borders and a title.
ghost use Rattle.std.specs.Prelude.{◌≡◌, ℕ, ◌+◌, ◌-◌, ◌^◌, ◌<◌, ◌==◌, ◌&&◌, nat_le, nat_lt, ◌≤◌, [], length, true, false, Some, None, IsTrue, IfOk, OnOk, OnErr, IsErrOf, option_map, encode_utf8, if◌then◌else◌};
ghost use Rattle.term_core.specs.Buffers.{BufferView, cell_at, IsWithin};
ghost use Rattle.term_core.specs.Caption.{strokes};
ghost use Rattle.term_core.specs.Rect.{has_place, intersection, is_empty};
ghost use Rattle.term_widgets.specs.Block.{BlockView, inner_of, within_borders, bordered, with_symbol, border_symbol, title_graphs, title_room, title_start, block_cell};

use std::alloc::{AllocError, Global};
use std::marker::Model;
use term_core::{Buffer, Caption, Line, Paint, Rect, Widget, WidgetError};

/// Borders and a title round an area, each of them if it is asked for.
#[derive(Drop)]
pub struct Block<'a> {
    has_borders: bool,
    title: Option<Line<'a>>,
}

impl<'a> Model for Block<'a> {
    ghost use Rattle.term_widgets.specs.Block.{BlockView};

    ghost Value = { BlockView };

    ghost view = { λ b. record { bordered = b.has_borders; title = b.title } };
}

impl<'a> Block<'a> {
    /// No borders and no title.
    pub fn new() -> Block<'a>
        ensures { result ≡ record { bordered = false; title = None } }
    {
        Block {
            has_borders: false,
            title: None,
        }
    }

    /// Borders on all four sides, and no title.
    pub fn bordered() -> Block<'a>
        ensures { result ≡ record { bordered = true; title = None } }
    {
        Block {
            has_borders: true,
            title: None,
        }
    }

    /// The same block with the title, in place of an earlier one.
    pub fn title(self, title: Line<'a>) -> Block<'a>
        ensures { result ≡ record self.entry { title = Some title.entry } }
    {
        Block {
            has_borders: self.has_borders,
            title: Some(title),
        }
    }

    /// What the block leaves of its area: without the outermost rows and columns where it has borders, and without the top row
    /// where it has a title alone.
    pub fn inner(&self, area: Rect) -> Rect
        ensures { result ≡ inner_of self.now area }
    {
        let x = area.x().saturating_add(1).min(area.right());
        let y = area.y().saturating_add(1).min(area.bottom());
        if self.has_borders {
            let width = area.width().saturating_sub(2);
            return Rect::new(x, y, width, area.height().saturating_sub(2));
        }
        if self.title.is_none() {
            return area;
        }
        Rect::new(area.x(), y, area.width(), area.height().saturating_sub(1))
    }

    /// The column where the title begins, and how many columns it has.
    fn title_place(&self, area: Rect) -> (u16, usize)
        requires { 0 < area.width }
        ensures start { result.0 ≡ title_start self.now area }
        ensures room { result.1 ≡ title_room self.now area }
    {
        let width = area.width() as usize;
        if self.has_borders {
            (area.x() + 1, width.saturating_sub(2))
        } else {
            (area.x(), width)
        }
    }

    /// The title, made before any cell changes; or want of memory.
    pub(crate) fn caption(&self, alloc: Global, area: Rect) -> Result<Caption, AllocError>
        requires { 0 < area.width }
        ensures ok { IfOk result (λ c. c ≡ strokes (title_graphs self.now.title (title_room self.now area))) }
        ensures within { IfOk result (λ c. length c ≤ title_room self.now area) }
    {
        let (_, room) = self.title_place(area);
        match &self.title {
            Some(title) => Caption::new(alloc, title, room),
            None => Ok(Caption::empty(alloc)),
        }
    }

    /// Draws the block on an area that the buffer has, with its title as it was made before. Takes no memory.
    pub(crate) fn draw(&self, alloc: Global, area: Rect, title: Caption, buf: &mut Buffer)
        requires some { is_empty area ≡ false }
        requires within { IsWithin area buf.old.area }
        requires title { title ≡ strokes (title_graphs self.now.title (title_room self.now area)) }
        requires fits { length title ≤ title_room self.now area }
        ensures area { buf.new.area ≡ buf.old.area }
        ensures cells { (x y : ℕ) → cell_at buf.new x y
            ≡ (if has_place area x y then option_map (block_cell self.now area x y) (cell_at buf.old x y) else cell_at buf.old x y) }
    {
        self.draw_edge(area, buf);
        let (start, _) = self.title_place(area);
        title.write(alloc, start, area.y(), buf);
    }

    /// Draws the borders, if there are any, on the edge of an area that the buffer has.
    fn draw_edge(&self, area: Rect, buf: &mut Buffer)
        requires some { is_empty area ≡ false }
        requires within { IsWithin area buf.old.area }
        ensures area { buf.new.area ≡ buf.old.area }
        ensures cells { (x y : ℕ) → cell_at buf.new x y
            ≡ (if has_place area x y then option_map (bordered self.now area x y) (cell_at buf.old x y) else cell_at buf.old x y) }
    {
        if self.has_borders {
            draw_borders(area, buf);
        }
    }
}

impl<'t, 'a> Widget for &'t Block<'a> {
    /// Draws borders and title on the edge of the area cut to the buffer, and leaves all other cells as they are. A border
    /// changes a cell's symbol alone. It is never `TooNarrow`.
    fn render(self, alloc: Global, area: Rect, buf: &mut Buffer) -> Result<(), WidgetError>
        ensures area { buf.new.area ≡ buf.old.area }
        ensures ok { OnOk result ((x y : ℕ) → let cut = intersection area buf.old.area in
            cell_at buf.new x y ≡ (if has_place cut x y then option_map (block_cell self.now cut x y) (cell_at buf.old x y)
            else cell_at buf.old x y)) }
        ensures outside { (x y : ℕ) → has_place area x y ≡ false → cell_at buf.new x y ≡ cell_at buf.old x y }
        ensures err { OnErr result (buf.new ≡ buf.old) }
        ensures never { IsErrOf result WidgetError.TooNarrow → ⊥ }
    {
        let cut = area.intersection(buf.area());
        if cut.is_empty() {
            return Ok(());
        }
        let title = self.caption(alloc, cut)?;
        self.draw(alloc, cut, title, buf);
        Ok(())
    }
}

/// A symbol in the colours of the cell.
fn symbol(symbol: char) -> Paint
    ensures { result ≡ record { symbol = symbol; fg = None; bg = None } }
{
    Paint {
        symbol,
        fg: None,
        bg: None,
    }
}

/// Makes the character the symbol of the cells of a row from the column `x` up to the column `end`.
fn draw_row(x: u16, end: u16, y: u16, c: char, buf: &mut Buffer)
    requires order { x ≤ end }
    requires within { (p : ℕ) → x ≤ p → p < end → IsTrue (has_place buf.old.area p y) }
    ensures area { buf.new.area ≡ buf.old.area }
    ensures cells { (p q : ℕ) → cell_at buf.new p q
        ≡ (if (nat_le x p && nat_lt p end) && (q == y) then option_map (with_symbol (Some c)) (cell_at buf.old p q) else cell_at buf.old p q) }
{
    'row: for at in x..end {
        draw_corner(at, y, c, buf);
    }
}

/// Makes the character the symbol of the cells of a column from the row `y` up to the row `end`.
fn draw_column(x: u16, y: u16, end: u16, c: char, buf: &mut Buffer)
    requires order { y ≤ end }
    requires within { (q : ℕ) → y ≤ q → q < end → IsTrue (has_place buf.old.area x q) }
    ensures area { buf.new.area ≡ buf.old.area }
    ensures cells { (p q : ℕ) → cell_at buf.new p q
        ≡ (if (p == x) && (nat_le y q && nat_lt q end) then option_map (with_symbol (Some c)) (cell_at buf.old p q) else cell_at buf.old p q) }
{
    'column: for at in y..end {
        draw_corner(x, at, c, buf);
    }
}

/// Makes the character the symbol of a cell.
fn draw_corner(x: u16, y: u16, c: char, buf: &mut Buffer)
    requires { IsTrue (has_place buf.old.area x y) }
    ensures area { buf.new.area ≡ buf.old.area }
    ensures cells { (p q : ℕ) → cell_at buf.new p q
        ≡ (if (p == x) && (q == y) then option_map (with_symbol (Some c)) (cell_at buf.old p q) else cell_at buf.old p q) }
{
    buf.paint(x, y, symbol(c));
}

/// Draws borders on the edge of an area that the buffer has, the corners last.
fn draw_borders(area: Rect, buf: &mut Buffer)
    requires some { is_empty area ≡ false }
    requires within { IsWithin area buf.old.area }
    ensures area { buf.new.area ≡ buf.old.area }
    ensures cells { (x y : ℕ) → cell_at buf.new x y
        ≡ (if has_place area x y then option_map (with_symbol (border_symbol area x y)) (cell_at buf.old x y) else cell_at buf.old x y) }
{
    let left = area.x();
    let right = area.right() - 1;
    let top = area.y();
    let bottom = area.bottom() - 1;
    draw_row(left, right + 1, top, '─', buf);
    draw_row(left, right + 1, bottom, '─', buf);
    draw_column(left, top, bottom + 1, '│', buf);
    draw_column(right, top, bottom + 1, '│', buf);
    draw_corner(left, top, '┌', buf);
    draw_corner(right, top, '┐', buf);
    draw_corner(left, bottom, '└', buf);
    draw_corner(right, bottom, '┘', buf);
}
