// The visible graphemes of a line.
ghost use Rattle.std.specs.Prelude.{⊤, [], ◌≡◌, ◌==◌, ◌≤◌, ◌<◌, ◌+◌, true, false, length, drop};
ghost use Rattle.std.specs.Iterator.{YieldsFirstBy, item_count};
ghost use Rattle.term_text.specs.Graph.{graphs, spans_graphs};
ghost use Rattle.term_text.specs.Iter.{grapheme, stretch_left, graphs_left};
ghost use Rattle.term_text.specs.LineIter.{line_left};
ghost use Rattle.term_text.specs.Solid.{AreSolid};
ghost use Rattle.term_text.specs.Wrap.{skip_blanks};

use crate::grapheme::Graph;
use crate::graphs::Graphemes;
use crate::printable::leading_spaces;
use crate::style::Style;
use crate::text::{Line, Span};
use std::alloc::AllocError;

/// An iterator over the visible graphemes of a line, in their styles.
#[derive(Drop)]
pub struct LineGraphemes<'t, 'a> {
    spans: &'t [Span<'a>],
    place: usize,
    under: Style,
    current: Graphemes<'t>,
}

impl<'t, 'a> LineGraphemes<'t, 'a> {
    pub(crate) fn new(line: &'t Line<'a>) -> LineGraphemes<'t, 'a>
        ensures { line_left result ≡ graphs line.now }
    {
        let under = line.style();
        let mut graphemes = LineGraphemes {
            spans: line.spans(),
            place: 0,
            under,
            current: Graphemes::none(under),
        };
        graphemes.refill();
        graphemes
    }

    /// Goes on to the next span.
    fn enter(&mut self)
        requires some { self.old.place < length self.old.spans.now }
        requires passed { graphs_left self.old.current ≡ [] }
        ensures left { line_left self.new ≡ line_left self.old }
        ensures place { self.new.place ≡ self.old.place + 1 }
        ensures spans { self.new.spans ≡ self.old.spans }
    {
        let spans = self.spans;
        let span = &spans[self.place];
        self.current = Graphemes::new(span, self.under.patch(span.style()));
        self.place += 1;
    }

    /// Goes on to the next span that is not known to be passed, if there is one.
    fn refill(&mut self)
        ensures { line_left self.new ≡ line_left self.old }
    {
        while self.current.is_passed() && self.place < self.spans.len() {
            self.enter();
        }
    }

    /// The same graphemes again.
    pub(crate) fn copy(&self) -> LineGraphemes<'t, 'a>
        ensures { line_left result ≡ line_left self.now }
    {
        LineGraphemes {
            spans: self.spans,
            place: self.place,
            under: self.under,
            current: self.current.copy(),
        }
    }

    /// The printable bytes in front, each a grapheme.
    pub(crate) fn stretch(&self) -> &'t [u8]
        ensures { result.now ≡ stretch_left self.now.current }
    {
        self.current.stretch()
    }

    /// Passes over n of the printable bytes in front.
    pub(crate) fn pass_stretch(&mut self, n: usize)
        requires { n ≤ length (stretch_left self.old.current) }
        ensures { line_left self.new ≡ drop n (line_left self.old) }
    {
        self.current.pass_stretch(n);
        self.refill();
    }

    /// Passes over the plain characters of one column in front, at most so many and up to a space, and tells how many.
    pub(crate) fn pass_solid(&mut self, most: usize) -> usize
        requires { stretch_left self.old.current ≡ [] }
        ensures solid { AreSolid result (line_left self.old) (line_left self.new) }
        ensures none { result ≡ 0 → line_left self.new ≡ line_left self.old }
        ensures within { result ≤ most }
    {
        let count = self.current.pass_solid(most);
        self.refill();
        count
    }

    /// Passes over n graphemes.
    pub(crate) fn pass(&mut self, n: usize)
        ensures { line_left self.new ≡ drop n (line_left self.old) }
    {
        let mut more = n;
        while more > 0 {
            more -= self.pass_some(more);
        }
    }

    /// Passes over some of n graphemes, at once where they are printable bytes, and says how many.
    fn pass_some(&mut self, n: usize) -> usize
        requires { 0 < n }
        ensures left { line_left self.new ≡ drop result (line_left self.old) }
        ensures some { 0 < result }
        ensures within { result ≤ n }
    {
        let stretch = self.stretch().len();
        if stretch > 0 {
            let some = stretch.min(n);
            self.pass_stretch(some);
            return some;
        }
        let Some(_) = self.next() else {
            return n;
        };
        1
    }

    /// Passes over the blanks in front.
    pub(crate) fn pass_blanks(&mut self)
        ensures { line_left self.new ≡ skip_blanks (line_left self.old) }
    {
        'blanks: while self.pass_some_blanks() {}
    }

    /// Passes over some of the blanks in front, if one is there.
    fn pass_some_blanks(&mut self) -> bool
        ensures skipped { skip_blanks (line_left self.new) ≡ skip_blanks (line_left self.old) }
        ensures stopped { result ≡ false → line_left self.new ≡ skip_blanks (line_left self.old) }
        ensures shorter { result ≡ true → length (line_left self.new) < length (line_left self.old) }
    {
        let stretch = self.stretch();
        if stretch.len() > 0 {
            let blanks = leading_spaces(stretch);
            self.pass_stretch(blanks);
            return blanks > 0;
        }
        let mut ahead = self.copy();
        let Some(graph) = ahead.next() else {
            return false;
        };
        if !graph.blank {
            return false;
        }
        *self = ahead;
        true
    }

    /// Whether no grapheme is left.
    pub(crate) fn is_empty(&self) -> bool
        ensures { result ≡ (length (line_left self.now) == 0) }
    {
        if self.stretch().len() > 0 {
            return false;
        }
        let mut ahead = self.copy();
        match ahead.next() {
            Some(_) => false,
            None => true,
        }
    }
}

impl<'t, 'a> Clone for LineGraphemes<'t, 'a> {
    ghost is_clone = { λ s r. line_left r ≡ line_left s };

    ghost is_infallible = { λ _. ⊤ };

    fn clone(&self) -> Result<LineGraphemes<'t, 'a>, AllocError> {
        Ok(self.copy())
    }
}

impl<'t, 'a> Iterator for LineGraphemes<'t, 'a> {
    type Item = Graph<'t>;

    ghost next_gives = { YieldsFirstBy grapheme line_left };

    ghost remaining = { item_count line_left };

    fn next(&mut self) -> Option<Graph<'t>> {
        'spans: loop {
            if let Some(graph) = self.current.next() {
                return Some(graph);
            }
            if self.place >= self.spans.len() {
                return None;
            }
            self.enter();
        }
    }

    fn size_hint(&self) -> (usize, Option<usize>) {
        (0, None)
    }
}

impl<'a> Line<'a> {
    /// The visible graphemes of its spans, each in its span's style over the line's.
    pub fn graphemes(&self) -> LineGraphemes<'_, 'a>
        ensures { line_left result ≡ graphs self.now }
    {
        LineGraphemes::new(self)
    }
}
