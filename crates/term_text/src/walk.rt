// The end of a line's first row.
ghost use Rattle.std.specs.Prelude.{◌≡◌, ◌≤◌, ◌<◌, ◌+◌, ◌^◌, true, false, nat_le, length, MatchOption, if◌then◌else◌};
ghost use Rattle.term_text.specs.Cut.{len_of};
ghost use Rattle.term_text.specs.Graph.{columns};
ghost use Rattle.term_text.specs.Iter.{stretch_left};
ghost use Rattle.term_text.specs.LineIter.{line_left};
ghost use Rattle.term_text.specs.Wrap.{cut_of};

use crate::line_graphs::LineGraphemes;
use crate::printable::{mark_after, mark_of};

/// How many graphemes the first row has, and whether they are all.
pub(crate) fn cut_at(graphs: &LineGraphemes, width: usize) -> (usize, bool)
    ensures { result ≡ (if nat_le (columns (line_left graphs.now)) width then (length (line_left graphs.now), true)
        else (cut_of width (line_left graphs.now), false)) }
{
    let mut walk = Walk {
        ahead: graphs.copy(),
        room: width,
        count: 0,
        mark: 0,
    };
    'row: loop {
        if let Some(answer) = walk.step() {
            return answer;
        }
    }
}

/// A walk along a row: the columns that are left, the graphemes that are passed, and the last place among them at which
/// the row may be cut, or 0.
#[derive(Drop)]
struct Walk<'t, 'a> {
    ahead: LineGraphemes<'t, 'a>,
    room: usize,
    count: usize,
    mark: usize,
    ghost fits: { count + room < 2 ^ 64 },
}

impl<'t, 'a> Walk<'t, 'a> {
    ghost use Rattle.term_text.specs.Walk.{cut_left};

    /// Passes over a grapheme, or over all the printable bytes or plain characters in front, or answers.
    fn step(&mut self) -> Option<(usize, bool)>
        ensures { MatchOption result
            ((cut_left self.new ≡ cut_left self.old) × (length (line_left self.new.ahead) < length (line_left self.old.ahead)))
            (λ answer. answer ≡ cut_left self.old) }
    {
        if self.ahead.stretch().len() > 0 {
            return self.pass_stretch();
        }
        let solid = self.ahead.pass_solid(self.room);
        if solid > 0 {
            self.room -= solid;
            self.count += solid;
            return None;
        }
        let Some(graph) = self.ahead.next() else {
            return Some((self.count, true));
        };
        let mark = mark_of(graph.blank, self.count, self.mark);
        if graph.width > self.room {
            return Some((len_of(mark, self.count), false));
        }
        self.mark = mark;
        self.room -= graph.width;
        self.count += 1;
        None
    }

    /// Passes over the printable bytes in front, or answers where they do not fit.
    fn pass_stretch(&mut self) -> Option<(usize, bool)>
        requires { 0 < length (stretch_left self.old.ahead.current) }
        ensures { MatchOption result
            ((cut_left self.new ≡ cut_left self.old) × (length (line_left self.new.ahead) < length (line_left self.old.ahead)))
            (λ answer. answer ≡ cut_left self.old) }
    {
        let stretch = self.ahead.stretch();
        if stretch.len() > self.room {
            let mark = mark_after(&stretch[..self.room + 1], self.count, self.mark);
            return Some((len_of(mark, self.count + self.room), false));
        }
        self.mark = mark_after(stretch, self.count, self.mark);
        self.ahead.pass_stretch(stretch.len());
        self.room -= stretch.len();
        self.count += stretch.len();
        None
    }
}

/// The length of a row that cannot go on: up to the mark, if there is one.
fn len_of(mark: usize, count: usize) -> usize
    ensures { result ≡ len_of mark count }
{
    if 0 < mark { mark } else { count }
}
