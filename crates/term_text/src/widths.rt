// The columns of spans and lines.
ghost use Rattle.std.specs.Prelude.{◌≡◌, ◌↔◌, ◌-◌, ◌^◌, min, IsTrue};
ghost use Rattle.term_text.specs.Graph.{graphs, visible, pieces_of, columns, widest};
ghost use Rattle.term_text.specs.Wrap.{NoneWider};

use crate::text::{Line, Span};

/// What graphemes ask of a row: the columns of them all, or the greatest `usize` where they are more, and the columns of the
/// widest.
#[derive(Clone, Copy, Debug, PartialEq, Eq)]
pub struct Extent {
    pub columns: usize,
    pub widest: usize,
}

impl<'a> Span<'a> {
    /// The columns of the visible graphemes and of the widest of them, which are known of printable ASCII without a walk. No
    /// columns are for no graphemes.
    pub fn extent(&self) -> Extent
        ensures columns { result.columns ≡ min (columns (visible self.now.style (pieces_of self.now))) (2 ^ 64 - 1) }
        ensures widest { result.widest ≡ widest (visible self.now.style (pieces_of self.now)) }
    {
        if self.is_printable() && !self.is_glyph() {
            let columns = self.text().len();
            return Extent {
                columns,
                widest: columns.min(1),
            };
        }
        let mut rest = self.graphemes();
        let mut extent = Extent {
            columns: 0,
            widest: 0,
        };
        'graphs: while let Some(graph) = rest.next() {
            extent.columns = extent.columns.saturating_add(graph.width);
            extent.widest = extent.widest.max(graph.width);
        }
        extent
    }

    /// The columns of the visible graphemes, or the greatest `usize` where they are more.
    pub fn width(&self) -> usize
        ensures { result ≡ min (columns (visible self.now.style (pieces_of self.now))) (2 ^ 64 - 1) }
    {
        self.extent().columns
    }
}

impl<'a> Line<'a> {
    /// The columns of the visible graphemes and of the widest of them: those of all spans. No columns are for no graphemes.
    pub fn extent(&self) -> Extent
        ensures columns { result.columns ≡ min (columns (graphs self.now)) (2 ^ 64 - 1) }
        ensures widest { result.widest ≡ widest (graphs self.now) }
    {
        let mut extent = Extent {
            columns: 0,
            widest: 0,
        };
        for span in self.spans() {
            let more = span.extent();
            extent.columns = extent.columns.saturating_add(more.columns);
            extent.widest = extent.widest.max(more.widest);
        }
        extent
    }

    /// The columns of the visible graphemes, or the greatest `usize` where they are more.
    pub fn width(&self) -> usize
        ensures { result ≡ min (columns (graphs self.now)) (2 ^ 64 - 1) }
    {
        self.extent().columns
    }

    /// Whether each visible grapheme is at most so many columns wide, as a cutter needs it.
    pub fn fits(&self, width: usize) -> bool
        ensures { IsTrue result ↔ NoneWider width (graphs self.now) }
    {
        self.extent().widest <= width
    }
}
