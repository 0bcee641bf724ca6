// The rows of several lines, one after another.
ghost use Rattle.std.specs.Prelude.{◌≡◌, ◌+◌, ◌<◌, ◌++◌, length, min, drop, is_some, if◌then◌else◌};
ghost use Rattle.std.specs.Iterator.{YieldsFirstBy};
ghost use Rattle.term_core.specs.Rows.{row_graphs};
ghost use Rattle.term_widgets.specs.Page.{AllFit, rows_of};

use term_core::{Cutter, Ledger, Line, Row, Steps};

/// Cuts lines into rows, one line after another.
#[derive(Drop)]
pub(crate) struct PageRows<'t, 'a> {
    lines: &'t [Line<'a>],
    // The first line that is not cut yet.
    place: usize,
    width: usize,
    cutter: Option<Cutter<'t, 'a>>,
    ghost all_fit: { AllFit width (drop place lines.now) },
}

impl<'t, 'a> PageRows<'t, 'a> {
    ghost use Rattle.term_widgets.specs.PageRows.{line_rows, later_rows, page_left};

    /// The rows of lines that fit the page, from the line at a place on.
    pub(crate) fn new(lines: &'t [Line<'a>], place: usize, width: usize) -> PageRows<'t, 'a>
        requires { AllFit width lines.now }
        ensures { page_left result ≡ rows_of width (drop place lines.now) }
    {
        PageRows {
            lines,
            place,
            width,
            cutter: None,
        }
    }

    /// The next row of the line that is being cut, with one step noted.
    fn next_of_line<L: Ledger>(&mut self, steps: &mut Steps<L>) -> Option<Row<'t, 'a>>
        ensures row { YieldsFirstBy row_graphs line_rows self.old result self.new }
        ensures ticks { L.noted (if is_some result then 1 else 0) steps.old steps.new }
        ensures later { later_rows self.new ≡ later_rows self.old }
        ensures place { self.new.place ≡ self.old.place }
        ensures lines { self.new.lines.now ≡ self.old.lines.now }
    {
        let mut cutter = self.cutter.take()?;
        let row = cutter.next_row(steps);
        self.cutter = Some(cutter);
        row
    }

    /// Begins with the next line.
    fn open_line(&mut self)
        requires { self.old.place < length self.old.lines.now }
        ensures rows { line_rows self.new ++ later_rows self.new ≡ later_rows self.old }
        ensures place { self.new.place ≡ self.old.place + 1 }
        ensures lines { self.new.lines.now ≡ self.old.lines.now }
    {
        let lines = self.lines;
        let cutter = Cutter::new(&lines[self.place], self.width);
        self.place += 1;
        self.cutter = Some(cutter);
    }

    /// The next row, with one step noted, or `None` after the last.
    pub(crate) fn next_row<L: Ledger>(&mut self, steps: &mut Steps<L>) -> Option<Row<'t, 'a>>
        ensures row { YieldsFirstBy row_graphs page_left self.old result self.new }
        ensures ticks { L.noted (if is_some result then 1 else 0) steps.old steps.new }
    {
        'lines: loop {
            if let Some(row) = self.next_of_line(steps) {
                return Some(row);
            }
            if self.place >= self.lines.len() {
                return None;
            }
            self.open_line();
        }
    }

    /// Passes over n rows, or all that are left.
    pub(crate) fn pass<L: Ledger>(&mut self, n: usize, steps: &mut Steps<L>)
        ensures rest { page_left self.new ≡ drop n (page_left self.old) }
        ensures ticks { L.noted (min n (length (page_left self.old))) steps.old steps.new }
    {
        for i in 0..n {
            let Some(_row) = self.next_row(steps) else {
                return;
            };
        }
    }
}
