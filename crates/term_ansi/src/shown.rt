// The cells of a row that are shown.
ghost use Rattle.std.specs.Prelude.{◌≡◌, ◌∷◌, [], ◌≤◌, ◌<◌};
ghost use Rattle.std.specs.Iterator.{YieldsFirstBy, item_count};
ghost use Rattle.term_core.specs.Visited.{visited};
ghost use Rattle.term_text.specs.Graph.{width_of};
ghost use Rattle.term_ansi.specs.Printable.{is_printable};

use term_core::Cell;
use unicode_width::UnicodeWidthStr;

/// The visited cells of a row, as `VisitedCells` of `term_core` gives them; a printable ASCII symbol is not looked up.
#[derive(Drop)]
pub(crate) struct Shown<'t> {
    cells: &'t [Cell],
    place: usize,
}

impl<'t> Shown<'t> {
    ghost use Rattle.term_ansi.specs.ShownIter.{shown_left};

    pub(crate) fn new(row: &'t [Cell]) -> Shown<'t>
        ensures { shown_left result ≡ visited row.now }
    {
        Shown {
            cells: row,
            place: 0,
        }
    }
}

impl<'t> Iterator for Shown<'t> {
    ghost use Rattle.term_ansi.specs.ShownIter.{shown_left};

    type Item = &'t Cell;

    ghost next_gives = { YieldsFirstBy (λ cell. cell.now) shown_left };

    ghost remaining = { item_count shown_left };

    fn next(&mut self) -> Option<&'t Cell> {
        let cells = self.cells;
        if self.place >= cells.len() {
            return None;
        }
        let cell = &cells[self.place];
        let columns = columns(cell.symbol()).max(1);
        self.place = self.place.saturating_add(columns);
        Some(cell)
    }

    fn size_hint(&self) -> (usize, Option<usize>) {
        (0, None)
    }
}

/// The columns of a symbol.
fn columns(symbol: &str) -> usize
    ensures { result ≡ width_of symbol.now }
{
    if is_printable(symbol.as_bytes()) {
        1
    } else {
        symbol.width()
    }
}

/// Whether the bytes are one byte of printable ASCII.
fn is_printable(bytes: &[u8]) -> bool
    ensures { result ≡ is_printable bytes.now }
{
    bytes.len() == 1 && b' ' <= bytes[0] && bytes[0] <= b'~'
}
