// Cells of a terminal.
ghost use Rattle.std.specs.Prelude.{◌≡◌, ◌≤◌, [], length, IsOk, IfOk, encode_utf8};
ghost use Rattle.term_core.specs.Cells.{CellView, blank_cell, with_style};

use bitflags::Flags;
use smallvec::SmallVec;
use std::alloc::{AllocError, Global};
use std::marker::Model;
use term_text::{Color, Modifier, Style};

/// One cell of a terminal: a symbol with its colours and modifiers.
///
/// A symbol of at most 8 bytes stands in the cell itself and takes no memory.
#[derive(Drop)]
pub struct Cell {
    symbol: SmallVec<u8, 8>,
    fg: Color,
    bg: Color,
    modifier: Modifier,
}

impl Model for Cell {
    ghost use Rattle.std.specs.Str.{IsUtf8};
    ghost use Rattle.term_core.specs.Cells.{CellView};

    ghost Value = { CellView };

    ghost view = { λ c. record { symbol = c.symbol.items; fg = c.fg; bg = c.bg; modifier = c.modifier } };

    ghost invariant = { λ c. IsUtf8 c.symbol.items };
}

impl Cell {
    /// A space with both colours `Reset` and no modifier. Takes no memory.
    pub fn blank(alloc: Global) -> Cell
        ensures { result ≡ blank_cell }
    {
        let Ok(cell) = Cell::new(alloc, " ") else {
            unreachable!();
        };
        cell
    }

    /// The symbol with both colours `Reset` and no modifier.
    ///
    /// A symbol of at most 8 bytes takes no memory and is never refused.
    pub fn new(alloc: Global, symbol: &str) -> Result<Cell, AllocError>
        ensures ok { IfOk result (λ c. c ≡ record blank_cell { symbol = symbol.now }) }
        ensures succeeds { length symbol.now ≤ 8 → IsOk result }
    {
        match SmallVec::from_slice(alloc, symbol.as_bytes()) {
            Ok(symbol) => Ok(Cell {
                symbol,
                fg: Color::Reset,
                bg: Color::Reset,
                modifier: Modifier::empty(),
            }),
            Err(error) => Err(error),
        }
    }

    /// The same cell again. A symbol of at most 8 bytes takes no memory and is never refused.
    pub fn try_clone(&self, alloc: Global) -> Result<Cell, AllocError>
        ensures ok { IfOk result (λ c. c ≡ self.now) }
        ensures succeeds { length self.now.symbol ≤ 8 → IsOk result }
    {
        match SmallVec::from_slice(alloc, self.symbol.as_slice()) {
            Ok(symbol) => Ok(Cell {
                symbol,
                fg: self.fg,
                bg: self.bg,
                modifier: self.modifier,
            }),
            Err(error) => Err(error),
        }
    }

    /// The text that stands in the cell.
    pub fn symbol(&self) -> &str
        ensures { result.now ≡ self.now.symbol }
    {
        let bytes = self.symbol.as_slice();
        unsafe { std::str::from_utf8_unchecked(bytes) }
    }

    /// The foreground colour.
    pub fn fg(&self) -> Color
        ensures { result ≡ self.now.fg }
    {
        self.fg
    }

    /// The background colour.
    pub fn bg(&self) -> Color
        ensures { result ≡ self.now.bg }
    {
        self.bg
    }

    /// The modifiers.
    pub fn modifier(&self) -> Modifier
        ensures { result ≡ self.now.modifier }
    {
        self.modifier
    }

    /// Makes the character the symbol. Takes no memory.
    pub fn set_char(&mut self, c: char)
        ensures { self.new ≡ record self.old { symbol = encode_utf8 c } }
    {
        let mut bytes = [0; 4];
        let text = c.encode_utf8(&mut bytes);
        let Ok(symbol) = SmallVec::from_slice(*self.symbol.allocator(), text.as_bytes()) else {
            unreachable!();
        };
        self.symbol = symbol;
    }

    /// Sets the foreground colour.
    pub fn set_fg(&mut self, color: Color)
        ensures { self.new ≡ record self.old { fg = color } }
    {
        self.fg = color;
    }

    /// Sets the background colour.
    pub fn set_bg(&mut self, color: Color)
        ensures { self.new ≡ record self.old { bg = color } }
    {
        self.bg = color;
    }

    /// Sets the colours that the style sets, then adds its `add` and removes its `sub`.
    pub fn set_style(&mut self, style: Style)
        ensures { self.new ≡ with_style self.old style }
    {
        if let Some(color) = style.fg {
            self.fg = color;
        }
        if let Some(color) = style.bg {
            self.bg = color;
        }
        self.modifier = self.modifier.union(style.add).difference(style.sub);
    }

    /// Makes the symbol of another cell the symbol. Takes no memory.
    pub fn set_symbol_of(&mut self, other: Cell)
        ensures { self.new ≡ record self.old { symbol = other.symbol } }
    {
        let Cell { symbol, .. } = other;
        self.symbol = symbol;
    }
}
