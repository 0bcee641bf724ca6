// Pages of rows.
ghost use Rattle.std.specs.Prelude.{◌≡◌, ℕ, ◌+◌, ◌*◌, ◌^◌, ◌<◌, ◌≤◌, [], length, min, slice_get, true, false};
ghost use Rattle.std.specs.Prelude.{IsTrue, IsErrOf, IsOk, OnOk, OnErr, IfOk, IfSome};
ghost use Rattle.std.specs.Option.{option_copied};
ghost use Rattle.term_core.specs.BufferRows.{area_rows};
ghost use Rattle.term_core.specs.Buffers.{BufferView, cell_at, cell_put};
ghost use Rattle.term_core.specs.Cells.{view};
ghost use Rattle.term_core.specs.Graph.{graphs};
ghost use Rattle.term_core.specs.Lists.{joined};
ghost use Rattle.term_core.specs.Rect.{intersection, is_empty};
ghost use Rattle.term_core.specs.Wrap.{NoneWider};
ghost use Rattle.term_widgets.specs.Page.{PageView, AllFit, any_wider, page_rows, first_row, FitsPage};
ghost use Rattle.term_widgets.specs.Cuts.{IsHalving, IsNotedUpTo, rows_cut, rows_cut_on, shows_row};

use crate::cells::push_row_or_blanks;
use crate::lines::count_rows;
use crate::page_rows::PageRows;
use crate::row_place::RowPlace;
use std::alloc::{AllocError, Global};
use std::marker::Model;
use term_core::{Buffer, Cell, Ledger, Line, NoSteps, Rect, RowIndex, Steps, Text, WidgetError};

/// A text wrapped at a width. Its rows are the wraps of its lines, in order.
///
/// It keeps the text and how many rows each line has, and no row. Rows are counted while it is made, and cut while it is
/// drawn: those that are shown, and those above them in the line that the first stands in.
#[derive(Drop)]
pub struct Page<'a> {
    alloc: Global,
    text: Text<'a>,
    width: u16,
    index: RowIndex,
}

impl<'a> Model for Page<'a> {
    ghost use Rattle.std.specs.Prelude.{◌≡◌};
    ghost use Rattle.term_widgets.specs.Page.{PageView, AllFit, row_counts};

    ghost Value = { PageView };

    ghost view = { λ p. record { width = p.width; lines = p.text } };

    ghost invariant = { λ p. AllFit p.width p.text × (p.index ≡ row_counts p.width p.text) };
}

impl<'a> Page<'a> {
    /// The page of the text at `width` columns.
    ///
    /// `TooNarrow` comes exactly where a visible grapheme of the text is wider than `width`, and
    /// `Memory`, which may come in place of every answer, where there is no memory or where
    /// `usize` does not count the rows.
    pub fn new(alloc: Global, text: Text<'a>, width: u16) -> Result<Page<'a>, WidgetError>
        ensures ok { IfOk result (λ p. p ≡ record { width = width; lines = text.entry }) }
        ensures fits { OnOk result (AllFit width text.entry) }
        ensures narrow { IsErrOf result WidgetError.TooNarrow → IsTrue (any_wider width text.entry) }
    {
        let index = count_rows(alloc, text.lines(), width)?;
        Ok(Page {
            alloc,
            text,
            width,
            index,
        })
    }

    /// The page without lines, of width 0. Takes no memory.
    pub fn empty(alloc: Global) -> Page<'a>
        ensures { result ≡ record { width = 0; lines = [] } }
    {
        Page {
            alloc,
            text: Text::new(alloc),
            width: 0,
            index: RowIndex::new(alloc),
        }
    }

    /// The number of rows.
    pub fn len(&self) -> usize
        ensures { result ≡ length (page_rows self.now) }
    {
        self.index.total()
    }

    /// The number of lines.
    pub fn lines(&self) -> usize
        ensures { result ≡ length self.now.lines }
    {
        self.text.lines().len()
    }

    /// The number of columns.
    ///
    /// No visible grapheme of the page's lines is wider.
    pub fn width(&self) -> u16
        ensures value { result ≡ self.now.width }
        ensures fits { AllFit self.now.width self.now.lines }
    {
        self.width
    }

    /// The line at an index from 0, or `None` from the number of lines on.
    ///
    /// No visible grapheme of the line is wider than the page. Takes no memory.
    pub fn line(&self, index: usize) -> Option<&Line<'a>>
        ensures line { option_copied result ≡ slice_get self.now.lines index }
        ensures fits { IfSome result (λ line. NoneWider self.now.width (graphs line.now)) }
    {
        self.text.lines().get(index)
    }

    /// The number of the row that a line begins with, from 0: how many rows the earlier lines have. For the number of lines
    /// it is the number of rows. Takes no memory.
    pub fn first_row(&self, index: usize) -> usize
        requires { index ≤ length self.now.lines }
        ensures { result ≡ first_row self.now index }
    {
        self.index.before(index, &mut Steps::new(NoSteps))
    }

    /// Makes it the page of the same lines at another width.
    ///
    /// `TooNarrow` comes exactly where a visible grapheme of a line is wider than `width`, and `Memory`, which may come in
    /// place of every answer, where there is no memory or where `usize` does not count the rows. After a refusal the page is
    /// as before.
    pub fn rewrap(&mut self, width: u16) -> Result<(), WidgetError>
        ensures ok { OnOk result (self.new ≡ record self.old { width = width }) }
        ensures fits { OnOk result (AllFit width self.old.lines) }
        ensures narrow { IsErrOf result WidgetError.TooNarrow → IsTrue (any_wider width self.old.lines) }
        ensures err { OnErr result (self.new ≡ self.old) }
    {
        let index = count_rows(self.alloc, self.text.lines(), width)?;
        self.width = width;
        self.index = index;
        Ok(())
    }

    /// The cells of `height` rows from the row `scroll` on, row by row.
    fn cells<L: Ledger>(
        &self,
        alloc: Global,
        height: usize,
        scroll: usize,
        probes: &mut Steps<L>,
        cuts: &mut Steps<L>,
    ) -> Result<Vec<Cell>, AllocError>
        requires { height < 2 ^ 16 }
        ensures items { IfOk result (λ v. v.items ≡ joined (view (page_rows self.now) self.now.width height scroll)) }
        ensures len { IfOk result (λ v. length v.items ≡ height * self.now.width) }
        ensures fits { AllFit self.now.width self.now.lines }
        ensures probes { scroll < length (page_rows self.now) → IsHalving L.noted (length self.now.lines) probes.old probes.new }
        ensures unprobed { length (page_rows self.now) ≤ scroll → probes.new ≡ probes.old }
        ensures ticks { OnOk result (L.noted (rows_cut self.now height scroll) cuts.old cuts.new) }
        ensures most { OnErr result (IsNotedUpTo L.noted (rows_cut self.now height scroll) cuts.old cuts.new) }
    {
        let width = self.width as usize;
        let place = RowPlace::find(&self.index, scroll, probes);
        let mut rest = PageRows::new(self.text.lines(), place.line, width);
        rest.pass(place.above, cuts);
        let mut out = Vec::with_capacity(alloc, height * width)?;
        'rows: for i in 0..height {
            let row = rest.next_row(cuts);
            push_row_or_blanks(alloc, &mut out, row, width)?;
        }
        Ok(out)
    }

    /// Draws the rows from the row `scroll` on into the area, as far as the buffer has it.
    ///
    /// The area cut to the buffer has to be empty or as wide as the page. Its cells become those
    /// of the rows, blank after the last row, and no other cell changes. All cells are made before
    /// one is written, so the buffer is as before where there is no memory. On an empty area nothing is drawn, and
    /// the draw is not refused.
    ///
    /// Where no row is shown, no step is noted. Else the first line is found by halving: it takes `p` steps of `probes`, where
    /// 2 to the power of `p` is at most twice the number of lines and 1; and each row that is shown, and each above them in the
    /// first line, is a step of `cuts`.
    pub fn draw<L: Ledger>(
        &self,
        alloc: Global,
        area: Rect,
        scroll: usize,
        buf: &mut Buffer,
        probes: &mut Steps<L>,
        cuts: &mut Steps<L>,
    ) -> Result<(), AllocError>
        requires { FitsPage (intersection area buf.old.area) self.now }
        ensures area { buf.new.area ≡ buf.old.area }
        ensures ok { OnOk result ((x y : ℕ) → let cut = intersection area buf.old.area in cell_at buf.new x y
            ≡ cell_put cut (joined (view (page_rows self.now) cut.width cut.height scroll)) buf.old x y) }
        ensures rows { let cut = intersection area buf.old.area in is_empty cut ≡ false
            → OnOk result (area_rows buf.new cut ≡ view (page_rows self.now) cut.width cut.height scroll) }
        ensures err { OnErr result (buf.new ≡ buf.old) }
        ensures empty { is_empty (intersection area buf.old.area) ≡ true → IsOk result }
        ensures untouched { is_empty (intersection area buf.old.area) ≡ true → buf.new ≡ buf.old }
        ensures probes { shows_row (intersection area buf.old.area) self.now scroll ≡ true
            → IsHalving L.noted (length self.now.lines) probes.old probes.new }
        ensures unprobed { shows_row (intersection area buf.old.area) self.now scroll ≡ false → probes.new ≡ probes.old }
        ensures cuts { let count = rows_cut_on (intersection area buf.old.area) self.now scroll in
            OnOk result (L.noted count cuts.old cuts.new) }
        ensures most { let count = rows_cut_on (intersection area buf.old.area) self.now scroll in
            OnErr result (IsNotedUpTo L.noted count cuts.old cuts.new) }
    {
        let cut = area.intersection(buf.area());
        if cut.is_empty() {
            return Ok(());
        }
        let made = self.cells(alloc, cut.height() as usize, scroll, probes, cuts)?;
        buf.put(cut, made);
        Ok(())
    }
}
