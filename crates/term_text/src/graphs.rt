// The visible graphemes of a span.
ghost use Rattle.std.specs.Prelude.{⊤, MatchOption, ◌≡◌, ◌≤◌, ◌<◌, ◌-◌, [], ◌∷◌, true, false, drop, length};
ghost use Rattle.std.specs.Iterator.{YieldsFirstBy, item_count};
ghost use Rattle.std.specs.List.{list_all};
ghost use Rattle.unicode_segmentation.specs.Grapheme.{graphemes};
ghost use Rattle.term_text.specs.Graph.{visible, pieces_of};
ghost use Rattle.term_text.specs.Plain.{IsPlain, is_printable};
ghost use Rattle.term_text.specs.Solid.{AreSolid};

use crate::grapheme::Graph;
use crate::pieces::{copied, graph_of};
use crate::plain::{first_char, plain_width, solid_front};
use crate::style::Style;
use crate::text::Span;
use std::alloc::AllocError;
use unicode_segmentation::UnicodeSegmentation;

/// An iterator over the visible graphemes of a span.
#[derive(Drop)]
pub struct Graphemes<'a> {
    // A text of printable ASCII, whose bytes come first, and how many of them are passed.
    stretch: &'a str,
    passed: usize,
    // Characters that are each a grapheme of one or two columns, which come next.
    plain: &'a str,
    glyph: Option<&'a str>,
    // The clusters of any other text.
    pieces: Option<unicode_segmentation::Graphemes<'a>>,
    style: Style,
    ghost printable: { list_all is_printable stretch.now ≡ true },
    ghost within: { passed ≤ length stretch.now },
}

impl<'a> Graphemes<'a> {
    ghost use Rattle.term_text.specs.Iter.{grapheme, pieces_left, plain_left, stretch_left, graphs_left};

    /// The graphemes of the span, in the style.
    pub(crate) fn new(span: &'a Span<'_>, style: Style) -> Graphemes<'a>
        ensures { graphs_left result ≡ visible style (pieces_of span.now) }
    {
        let text = span.text();
        if span.is_glyph() {
            return Graphemes::of_glyph(text, style);
        }
        if span.is_printable() {
            return Graphemes::of_stretch(text, style);
        }
        if span.is_plain() {
            return Graphemes::of_plain(text, style);
        }
        Graphemes::of_text(text, style)
    }

    /// No graphemes.
    pub(crate) fn none(style: Style) -> Graphemes<'a>
        ensures { graphs_left result ≡ [] }
    {
        Graphemes {
            stretch: "",
            passed: 0,
            plain: "",
            glyph: None,
            pieces: None,
            style,
        }
    }

    fn of_glyph(text: &'a str, style: Style) -> Graphemes<'a>
        ensures { graphs_left result ≡ visible style (text.now ∷ []) }
    {
        Graphemes {
            stretch: "",
            passed: 0,
            plain: "",
            glyph: Some(text),
            pieces: None,
            style,
        }
    }

    fn of_stretch(text: &'a str, style: Style) -> Graphemes<'a>
        requires { list_all is_printable text.now ≡ true }
        ensures { graphs_left result ≡ visible style (graphemes true text.now) }
    {
        Graphemes {
            stretch: text,
            passed: 0,
            plain: "",
            glyph: None,
            pieces: None,
            style,
        }
    }

    fn of_plain(text: &'a str, style: Style) -> Graphemes<'a>
        requires { IsPlain text.now }
        ensures { graphs_left result ≡ visible style (graphemes true text.now) }
    {
        Graphemes {
            stretch: "",
            passed: 0,
            plain: text,
            glyph: None,
            pieces: None,
            style,
        }
    }

    fn of_text(text: &'a str, style: Style) -> Graphemes<'a>
        ensures { graphs_left result ≡ visible style (graphemes true text.now) }
    {
        Graphemes {
            stretch: "",
            passed: 0,
            plain: "",
            glyph: None,
            pieces: Some(text.graphemes(true)),
            style,
        }
    }

    /// The same graphemes again.
    pub(crate) fn copy(&self) -> Graphemes<'a>
        ensures { graphs_left result ≡ graphs_left self.now }
    {
        Graphemes {
            stretch: self.stretch,
            passed: self.passed,
            plain: self.plain,
            glyph: self.glyph,
            pieces: copied(&self.pieces),
            style: self.style,
        }
    }

    /// Whether it is known that no grapheme is left.
    pub(crate) fn is_passed(&self) -> bool
        ensures { result ≡ true → graphs_left self.now ≡ [] }
    {
        if self.passed < self.stretch.len() || !self.plain.is_empty() {
            return false;
        }
        self.glyph.is_none() && self.pieces.is_none()
    }

    /// The printable bytes in front, each a grapheme.
    pub(crate) fn stretch(&self) -> &'a [u8]
        ensures { result.now ≡ stretch_left self.now }
    {
        &self.stretch.as_bytes()[self.passed..]
    }

    /// Passes over n of the printable bytes in front.
    pub(crate) fn pass_stretch(&mut self, n: usize)
        requires { n ≤ length (stretch_left self.old) }
        ensures { graphs_left self.new ≡ drop n (graphs_left self.old) }
    {
        prove!(n <= self.stretch.len());
        self.passed += n;
    }

    /// The first of the printable bytes in front.
    fn next_byte(&mut self) -> Graph<'a>
        requires { 0 < length (stretch_left self.old) }
        ensures { graphs_left self.old ≡ grapheme result ∷ graphs_left self.new }
    {
        let at = self.passed;
        let blank = self.stretch.as_bytes()[at] == b' ';
        self.passed = at + 1;
        let stretch = self.stretch;
        Graph {
            symbol: &stretch[at..at + 1],
            style: self.style,
            width: 1,
            blank,
        }
    }

    /// Passes over the plain characters of one column in front, at most so many and up to a space, and tells how many.
    pub(crate) fn pass_solid(&mut self, most: usize) -> usize
        requires { stretch_left self.old ≡ [] }
        ensures solid { AreSolid result (graphs_left self.old) (graphs_left self.new) }
        ensures none { result ≡ 0 → graphs_left self.new ≡ graphs_left self.old }
        ensures within { result ≤ most }
    {
        let (count, rest) = solid_front(self.plain, most);
        self.plain = rest;
        count
    }

    /// The first of the plain characters, behind the printable bytes.
    fn next_plain(&mut self) -> Option<Graph<'a>>
        requires { stretch_left self.old ≡ [] }
        ensures { MatchOption result ((plain_left self.old ≡ []) × (self.new ≡ self.old))
            (λ graph. graphs_left self.old ≡ grapheme graph ∷ graphs_left self.new) }
    {
        match first_char(self.plain) {
            None => None,
            Some((c, symbol, rest)) => {
                self.plain = rest;
                Some(Graph {
                    symbol,
                    style: self.style,
                    width: plain_width(c),
                    blank: c == ' ',
                })
            }
        }
    }

    /// The first visible piece, behind the printable bytes and the plain characters.
    fn next_shown(&mut self) -> Option<Graph<'a>>
        requires stretch { stretch_left self.old ≡ [] }
        requires plain { plain_left self.old ≡ [] }
        ensures { YieldsFirstBy grapheme graphs_left self.old result self.new }
    {
        while let Some(piece) = self.next_piece() {
            if let Some(graph) = graph_of(piece, self.style) {
                return Some(graph);
            }
        }
        None
    }

    fn next_piece(&mut self) -> Option<&'a str>
        ensures piece { YieldsFirstBy (λ piece. piece.now) pieces_left self.old result self.new }
        ensures style { self.new.style ≡ self.old.style }
        ensures stretch { stretch_left self.new ≡ stretch_left self.old }
        ensures plain { plain_left self.new ≡ plain_left self.old }
    {
        if let Some(text) = self.glyph.take() {
            return Some(text);
        }
        match &mut self.pieces {
            Some(pieces) => pieces.next(),
            None => None,
        }
    }
}

impl<'a> Clone for Graphemes<'a> {
    ghost use Rattle.term_text.specs.Iter.{graphs_left};

    ghost is_clone = { λ s r. graphs_left r ≡ graphs_left s };

    ghost is_infallible = { λ _. ⊤ };

    fn clone(&self) -> Result<Graphemes<'a>, AllocError> {
        Ok(self.copy())
    }
}

impl<'a> Iterator for Graphemes<'a> {
    ghost use Rattle.term_text.specs.Iter.{grapheme, graphs_left};

    type Item = Graph<'a>;

    ghost next_gives = { YieldsFirstBy grapheme graphs_left };

    ghost remaining = { item_count graphs_left };

    fn next(&mut self) -> Option<Graph<'a>> {
        if self.passed < self.stretch.len() {
            return Some(self.next_byte());
        }
        if let Some(graph) = self.next_plain() {
            return Some(graph);
        }
        self.next_shown()
    }

    fn size_hint(&self) -> (usize, Option<usize>) {
        (0, None)
    }
}

impl<'a> Span<'a> {
    ghost use Rattle.term_text.specs.Iter.{graphs_left};

    /// The visible graphemes: a glyph is one, and else the text is cut into extended grapheme clusters (UAX #29), of which
    /// those are visible that have no control character and at least one column.
    pub fn graphemes(&self) -> Graphemes<'_>
        ensures { graphs_left result ≡ visible self.now.style (pieces_of self.now) }
    {
        Graphemes::new(self, self.style())
    }
}
