// Graphemes that are written over cells: a title or a label.
ghost use Rattle.std.specs.Prelude.{◌≡◌, ℕ, ◌+◌, ◌-◌, ◌<◌, ◌≤◌, ◌==◌, ◌&&◌, ◌++◌, [], nat_le, length, replicate, slice_get, option_map, Some, IsTrue, IfOk, OnOk, if◌then◌else◌};
ghost use Rattle.term_core.specs.Buffers.{BufferView, cell_at};
ghost use Rattle.term_core.specs.Caption.{fitted, strokes, struck};
ghost use Rattle.term_core.specs.Rect.{has_place};
ghost use Rattle.term_text.specs.Graph.{graphs};

use crate::buffer::Buffer;
use crate::cell::Cell;
use std::alloc::{AllocError, Global};
use std::marker::Model;
use term_text::{Line, Style};

/// What a column of a caption does to its cell.
#[derive(Drop)]
pub enum Stroke {
    /// The cell gets the symbol of this one, and the style over its own.
    Symbol(Cell, Style),
    /// The cell is covered by the symbol before it, and becomes blank.
    Blank,
}

/// Graphemes that can be written over cells, made before any cell changes: a title or a label.
///
/// It has the whole graphemes of a line up to the first that does not fit.
#[derive(Drop)]
pub struct Caption {
    strokes: Vec<Stroke>,
}

impl Model for Caption {
    ghost use Rattle.std.specs.Prelude.{List};
    ghost use Rattle.term_core.specs.declared.caption.Stroke.{Stroke};

    ghost Value = { List Stroke };

    ghost view = { λ c. c.strokes.items };
}

impl Caption {
    /// No graphemes. Takes no memory.
    pub fn empty(alloc: Global) -> Caption
        ensures { result ≡ [] }
    {
        Caption {
            strokes: Vec::new(alloc),
        }
    }

    /// The visible graphemes of the line up to the first that does not fit into `width` columns as a whole; or want of memory.
    pub fn new(alloc: Global, line: &Line, width: usize) -> Result<Caption, AllocError>
        ensures ok { IfOk result (λ c. c ≡ strokes (fitted width (graphs line.now))) }
        ensures within { IfOk result (λ c. length c ≤ width) }
    {
        let mut strokes = Vec::new(alloc);
        let mut room = width;
        let mut rest = line.graphemes();
        'graphs: while let Some(graph) = rest.next() {
            if graph.width > room {
                return Ok(Caption { strokes });
            }
            strokes.push(Stroke::Symbol(Cell::new(alloc, graph.symbol)?, graph.style))?;
            push_blanks(&mut strokes, graph.width - 1)?;
            room -= graph.width;
        }
        Ok(Caption { strokes })
    }

    /// Writes the graphemes over the cells of the row `y` from the column `x` on, which the buffer has. Takes no memory.
    ///
    /// A grapheme's first cell gets its symbol, and its style over the cell's; the cells that it covers become blank.
    pub fn write(self, alloc: Global, x: u16, y: u16, buf: &mut Buffer)
        requires { (i : ℕ) → i < length self → IsTrue (has_place buf.old.area (x + i) y) }
        ensures area { buf.new.area ≡ buf.old.area }
        ensures cells { (p q : ℕ) → cell_at buf.new p q
            ≡ (if (q == y) && nat_le x p then option_map (struck (slice_get self (p - x))) (cell_at buf.old p q) else cell_at buf.old p q) }
    {
        let Caption { strokes } = self;
        let mut rest = strokes;
        'strokes: while let Some(stroke) = rest.pop() {
            let column = x + rest.len() as u16;
            buf.strike(alloc, column, y, stroke);
        }
    }
}

/// Adds columns that are covered.
fn push_blanks(out: &mut Vec<Stroke>, count: usize) -> Result<(), AllocError>
    ensures { OnOk result (out.new.items ≡ out.old.items ++ replicate count Stroke.Blank) }
{
    for i in 0..count {
        out.push(Stroke::Blank)?;
    }
    Ok(())
}

impl Cell {
    /// Does to the cell what a column of a caption does. Takes no memory.
    pub(crate) fn strike(&mut self, alloc: Global, stroke: Stroke)
        ensures { self.new ≡ struck (Some stroke) self.old }
    {
        match stroke {
            Stroke::Symbol(other, style) => {
                self.set_style(style);
                self.set_symbol_of(other);
            }
            Stroke::Blank => *self = Cell::blank(alloc),
        }
    }
}
