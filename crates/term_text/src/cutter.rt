// Lines cut into rows.
ghost use Rattle.std.specs.Prelude.{◌≡◌, ◌≤◌, is_some, if◌then◌else◌};
ghost use Rattle.std.specs.Iterator.{YieldsFirstBy, item_count};
ghost use Rattle.std.specs.List.{All};
ghost use Rattle.term_text.specs.Graph.{graphs};
ghost use Rattle.term_text.specs.LineIter.{line_left};
ghost use Rattle.term_text.specs.Wrap.{wrap, NoneWider};

use crate::grapheme::Graph;
use crate::line_graphs::LineGraphemes;
use crate::steps::{Ledger, Steps};
use crate::text::Line;
use crate::walk::cut_at;

/// Cuts a line into rows of a width: a row that can't take all that is left ends before the last blank that it has or that
/// comes next, else where no more fits, and the blanks that would begin the next row go.
#[derive(Drop)]
pub struct Cutter<'t, 'a> {
    graphs: LineGraphemes<'t, 'a>,
    width: usize,
    is_done: bool,
    ghost none_wider: { All (λ g. g.width ≤ width) (line_left graphs) },
}

impl<'t, 'a> Cutter<'t, 'a> {
    ghost use Rattle.term_text.specs.Rows.{rows_left, row_graphs};

    /// The rows of the line, of at most so many columns. Each visible grapheme must fit a row ([`Line::fits`]).
    pub fn new(line: &'t Line<'a>, width: usize) -> Cutter<'t, 'a>
        requires { NoneWider width (graphs line.now) }
        ensures { rows_left result ≡ wrap width (graphs line.now) }
    {
        Cutter {
            graphs: LineGraphemes::new(line),
            width,
            is_done: false,
        }
    }

    /// The next row, with one step noted; `None` exactly after the last, with none noted. A line has one row at least.
    pub fn next_row<L: Ledger>(&mut self, steps: &mut Steps<L>) -> Option<Row<'t, 'a>>
        ensures row { YieldsFirstBy row_graphs rows_left self.old result self.new }
        ensures ticks { L.noted (if is_some result then 1 else 0) steps.old steps.new }
    {
        if self.is_done {
            return None;
        }
        steps.tick();
        let graphs = self.graphs.copy();
        let (len, is_last) = cut_at(&self.graphs, self.width);
        if is_last {
            self.is_done = true;
            return Some(Row { graphs, len });
        }
        self.graphs.pass(len);
        self.graphs.pass_blanks();
        self.is_done = self.graphs.is_empty();
        Some(Row { graphs, len })
    }
}

/// A row of a line, a stretch of its visible graphemes.
#[derive(Drop)]
pub struct Row<'t, 'a> {
    graphs: LineGraphemes<'t, 'a>,
    len: usize,
}

impl<'t, 'a> Row<'t, 'a> {
    ghost use Rattle.term_text.specs.Rows.{row_graphs, row_left};

    /// The graphemes of the row, each in its span's style over the line's.
    pub fn graphemes(&self) -> RowGraphemes<'t, 'a>
        ensures { row_left result ≡ row_graphs self.now }
    {
        RowGraphemes {
            graphs: self.graphs.copy(),
            len: self.len,
        }
    }
}

/// An iterator over the graphemes of a row.
#[derive(Drop)]
pub struct RowGraphemes<'t, 'a> {
    graphs: LineGraphemes<'t, 'a>,
    len: usize,
}

impl<'t, 'a> Iterator for RowGraphemes<'t, 'a> {
    ghost use Rattle.term_text.specs.Iter.{grapheme};
    ghost use Rattle.term_text.specs.Rows.{row_left};

    type Item = Graph<'t>;

    ghost next_gives = { YieldsFirstBy grapheme row_left };

    ghost remaining = { item_count row_left };

    fn next(&mut self) -> Option<Graph<'t>> {
        if self.len == 0 {
            return None;
        }
        match self.graphs.next() {
            Some(graph) => {
                self.len -= 1;
                Some(graph)
            }
            None => None,
        }
    }

    fn size_hint(&self) -> (usize, Option<usize>) {
        (0, None)
    }
}
