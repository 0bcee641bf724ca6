// The rows of a buffer.
ghost use Rattle.std.specs.Prelude.{◌≡◌, ◌+◌, ◌*◌, length};
ghost use Rattle.std.specs.Iterator.{YieldsFirstBy, item_count};
ghost use Rattle.term_core.specs.BufferRows.{cell_rows};

use crate::cell::Cell;

/// An iterator over the rows of a buffer, from the top, each with its cells from the left.
#[derive(Drop)]
pub struct BufferRows<'t> {
    cells: &'t [Cell],
    place: usize,
    width: usize,
    left: usize,
    ghost full: { place + left * width ≡ length cells.now },
}

impl<'t> BufferRows<'t> {
    ghost use Rattle.term_core.specs.BufferRowsIter.{buffer_rows_left};

    pub(crate) fn new(cells: &'t [Cell], width: usize, height: usize) -> BufferRows<'t>
        requires { length cells.now ≡ height * width }
        ensures { buffer_rows_left result ≡ cell_rows width height cells.now }
    {
        BufferRows {
            cells,
            place: 0,
            width,
            left: height,
        }
    }
}

impl<'t> Iterator for BufferRows<'t> {
    ghost use Rattle.term_core.specs.BufferRowsIter.{buffer_rows_left};

    type Item = &'t [Cell];

    ghost next_gives = { YieldsFirstBy (λ row. row.now) buffer_rows_left };

    ghost remaining = { item_count buffer_rows_left };

    fn next(&mut self) -> Option<&'t [Cell]> {
        if self.left == 0 {
            return None;
        }
        let cells = self.cells;
        let end = self.place + self.width;
        let row = &cells[self.place..end];
        self.place = end;
        self.left -= 1;
        Some(row)
    }

    fn size_hint(&self) -> (usize, Option<usize>) {
        (0, None)
    }
}
