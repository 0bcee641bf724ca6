// The cells of a row that are shown.
ghost use Rattle.std.specs.Prelude.{◌≡◌};
ghost use Rattle.std.specs.Iterator.{YieldsFirstBy, item_count};
ghost use Rattle.term_core.specs.Visited.{visited};

use crate::cell::Cell;
use unicode_width::UnicodeWidthStr;

/// An iterator over the cells of a row that are shown: from the left each cell, then skipping
/// as many as its symbol's width exceeds 1.
#[derive(Drop)]
pub struct VisitedCells<'t> {
    cells: &'t [Cell],
    place: usize,
}

impl<'t> VisitedCells<'t> {
    ghost use Rattle.term_core.specs.VisitedIter.{visited_left};

    /// The visited cells of a row.
    pub fn new(row: &'t [Cell]) -> VisitedCells<'t>
        ensures { visited_left result ≡ visited row.now }
    {
        VisitedCells {
            cells: row,
            place: 0,
        }
    }
}

impl<'t> Iterator for VisitedCells<'t> {
    ghost use Rattle.term_core.specs.VisitedIter.{visited_left};

    type Item = &'t Cell;

    ghost next_gives = { YieldsFirstBy (λ cell. cell.now) visited_left };

    ghost remaining = { item_count visited_left };

    fn next(&mut self) -> Option<&'t Cell> {
        let cells = self.cells;
        if self.place >= cells.len() {
            return None;
        }
        let cell = &cells[self.place];
        let columns = cell.symbol().width().max(1);
        self.place = self.place.saturating_add(columns);
        Some(cell)
    }

    fn size_hint(&self) -> (usize, Option<usize>) {
        (0, None)
    }
}
