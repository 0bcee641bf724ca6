// The line that has a row.
ghost use Rattle.std.specs.Prelude.{◌≡◌, ◌<◌, ◌≤◌, length};
ghost use Rattle.std.specs.List.{sum};
ghost use Rattle.term_widgets.specs.Cuts.{IsHalving};
ghost use Rattle.term_widgets.specs.RowPlace.{line_of, rows_above};

use term_core::{Ledger, RowIndex, Steps};

/// Where a row stands: its line, and how many rows of the line are above it.
#[derive(Drop)]
pub(crate) struct RowPlace {
    pub line: usize,
    pub above: usize,
}

impl RowPlace {
    /// Where a row stands, found by halving the lines; past the last row the place behind the last line, without a probe.
    pub(crate) fn find<L: Ledger>(index: &RowIndex, row: usize, probes: &mut Steps<L>) -> RowPlace
        ensures line { result.line ≡ line_of index.now row }
        ensures above { result.above ≡ rows_above index.now row }
        ensures probes { row < sum index.now → IsHalving L.noted (length index.now) probes.old probes.new }
        ensures unprobed { sum index.now ≤ row → probes.new ≡ probes.old }
    {
        let mut end = index.lines();
        if row >= index.total() {
            return RowPlace {
                line: end,
                above: 0,
            };
        }
        let mut line = 0;
        let mut start = 0;
        // The row is one of those of the lines from `line` to before `end`.
        'halves: while end - line > 1 {
            let middle = line + (end - line) / 2;
            let rows = index.before(middle, probes);
            if rows <= row {
                line = middle;
                start = rows;
            } else {
                end = middle;
            }
        }
        RowPlace {
            line,
            above: row - start,
        }
    }
}
