// A feed of ANSI text.
ghost use Rattle.std.specs.Prelude.{ℕ, ◌≡◌, ◌≤◌, ◌<◌, List, [], ◌∷◌, ◌++◌, length, slice_get, option_copied, true, false, IfOk, OnOk, OnErr, IfErr, MatchResult};
ghost use Rattle.std.specs.Vec.{vec_capacity};
ghost use Rattle.term_text.specs.Style.{no_style};
ghost use Rattle.ansi_text.specs.Ansi.{ansi, is_text};
ghost use Rattle.ansi_feed.specs.Feed.{Stands, last_of, feed_of, finished, finished_feed, lines_at_finish, lines_from, lines_in, pushed};
ghost use Rattle.ansi_feed.specs.declared.error.FeedError.TheVariants.{Utf8Error};

use crate::cut::{added, cr_behind, ended_length};
use crate::error::FeedError;
use crate::lines::{keep_items, read_lines};
use crate::pending::{Place, are_text, is_text_behind, pass};
use std::alloc::{AllocError, Global};
use std::collections::VecDeque;
use std::marker::Model;
use term_text::{Line, Style, next_line_of_bytes};

/// The last lines of ANSI text that comes in pieces.
#[derive(Drop)]
pub struct Feed {
    alloc: Global,
    bound: usize,
    lines: VecDeque<Line<'static>>,
    // What follows the last line end, and the style there.
    unfinished: Vec<u8>,
    style: Style,
    // Whether the input ends with CR, so that an LF would belong to that end.
    after_cr: bool,
    // How many unfinished bytes were looked at for being text, and what stands open there. The model does not show it.
    place: Place,
}

impl Model for Feed {
    ghost use Rattle.ansi_feed.specs.Feed.{FeedView};

    ghost Value = { FeedView };

    ghost view = { λ s. record { bound = s.bound; lines = s.lines.items; unfinished = s.unfinished.items; style = s.style; after_cr = s.after_cr } };

    ghost use Rattle.std.specs.Prelude.{◌≡◌, ◌≤◌, length, true};
    ghost use Rattle.term_text.specs.LineEnds.{is_one_line};
    ghost use Rattle.ansi_feed.specs.Pending.{PassesBytes};
    ghost use Rattle.ansi_feed.specs.declared.pending.Pending.TheVariants.{Stretch};

    ghost invariant = { λ s. (length s.lines.items ≤ s.bound) × (is_one_line s.unfinished.items ≡ true) × PassesBytes Stretch s.unfinished.items s.place };
}

/// The bytes in place of those that are there. There is room for them.
fn replace(bytes: &mut Vec<u8>, tail: &[u8])
    requires { length tail.now ≤ vec_capacity bytes.old }
    ensures { bytes.new.items ≡ tail.now }
{
    bytes.clear();
    match bytes.extend_from_slice(tail) {
        Ok(()) => {}
        Err(_) => unreachable!(),
    }
}

impl Feed {
    /// A feed of no input, which keeps at most so many lines. It takes no memory.
    pub fn new(alloc: Global, bound: usize) -> Feed
        ensures stands { Stands result [] }
        ensures bound { result.bound ≡ bound }
    {
        Feed {
            alloc,
            bound,
            lines: VecDeque::new(alloc),
            unfinished: Vec::new(alloc),
            style: Style::new(),
            after_cr: false,
            place: Place::start(),
        }
    }

    /// Appends a piece of input.
    ///
    /// `Utf8Error` comes exactly where a line that ends in the piece has a stretch that is not UTF-8, and `Memory` where there
    /// is none. After a refusal the feed is as before, as if the piece had not come.
    pub fn push(&mut self, piece: &[u8]) -> Result<(), FeedError>
        ensures ok { OnOk result (self.new ≡ pushed self.old piece.now) }
        ensures refused { OnErr result (self.new ≡ self.old) }
        ensures text { OnOk result (is_text (lines_in self.old piece.now) ≡ true) }
        ensures not_text { IfErr result (λ e. e ≡ Utf8Error → is_text (lines_in self.old piece.now) ≡ false) }
        ensures stands { (u : List ℕ) → Stands self.old u → MatchResult result (λ _. Stands self.new (u ++ piece.now)) (λ _. Stands self.new u) }
    {
        if !self.may_be_text(piece)? {
            return Err(FeedError::Utf8Error);
        }
        self.append(piece)
    }

    /// Looks at the unfinished bytes that were not looked at yet.
    fn look_on(&mut self)
        ensures { self.new ≡ self.old }
    {
        let next = pass(self.place.pending, &self.unfinished[self.place.count..]);
        self.place = Place {
            pending: next.pending,
            count: self.place.count + next.count,
        };
    }

    /// Whether the lines are text that end in bytes behind the unfinished ones, of which none is looked at twice.
    fn is_text_with(&mut self, ended: &[u8]) -> Result<bool, AllocError>
        requires { 0 < length ended.now }
        ensures same { self.new ≡ self.old }
        ensures text { IfOk result (λ v. is_text (lines_from self.old.style (self.old.unfinished ++ ended.now)) ≡ v) }
    {
        self.look_on();
        let (first, after) = next_line_of_bytes(ended);
        let left = &self.unfinished[self.place.count..];
        Ok(is_text_behind(self.alloc, self.place.pending, left, first)? && are_text(after))
    }

    /// Whether the lines that end in a piece may be text. Where no more bytes are unfinished than the piece has, it does not
    /// look, since reading them costs no more than the piece.
    fn may_be_text(&mut self, piece: &[u8]) -> Result<bool, AllocError>
        ensures same { self.new ≡ self.old }
        ensures not_text { IfOk result (λ v. v ≡ false → is_text (lines_in self.old piece.now) ≡ false) }
    {
        if self.unfinished.len() <= piece.len() {
            return Ok(true);
        }
        let added = added(self.after_cr, piece);
        let end = ended_length(added);
        if end == 0 {
            return Ok(true);
        }
        self.is_text_with(&added[..end])
    }

    /// Appends a piece of input, as `push` says.
    fn append(&mut self, piece: &[u8]) -> Result<(), FeedError>
        ensures ok { OnOk result (self.new ≡ pushed self.old piece.now) }
        ensures refused { OnErr result (self.new ≡ self.old) }
        ensures text { OnOk result (is_text (lines_in self.old piece.now) ≡ true) }
        ensures not_text { IfErr result (λ e. e ≡ Utf8Error → is_text (lines_in self.old piece.now) ≡ false) }
        ensures stands { (u : List ℕ) → Stands self.old u → MatchResult result (λ _. Stands self.new (u ++ piece.now)) (λ _. Stands self.new u) }
    {
        let bytes = added(self.after_cr, piece);
        let after_cr = cr_behind(self.after_cr, piece);
        let end = ended_length(bytes);
        if end == 0 {
            self.unfinished.extend_from_slice(bytes)?;
            self.after_cr = after_cr;
            return Ok(());
        }
        let (ended, tail) = (&bytes[..end], &bytes[end..]);
        let fresh = read_lines(
            self.alloc,
            self.bound,
            self.style,
            self.unfinished.as_slice(),
            ended,
        )?;
        self.unfinished.reserve(tail.len())?;
        self.lines.reserve(fresh.lines.len())?;
        // From here on nothing can fail.
        keep_items(&mut self.lines, self.bound, fresh.lines);
        replace(&mut self.unfinished, tail);
        self.place = Place::start();
        self.style = fresh.style;
        self.after_cr = after_cr;
        Ok(())
    }

    /// Ends the line that is not ended yet, as an LF would, if bytes follow the last line end.
    ///
    /// The errors are those of `push`, and after one the feed is as before.
    pub fn finish(&mut self) -> Result<(), FeedError>
        ensures ok { OnOk result (self.new ≡ finished_feed self.old) }
        ensures refused { OnErr result (self.new ≡ self.old) }
        ensures text { OnOk result (is_text (lines_at_finish self.old) ≡ true) }
        ensures not_text { IfErr result (λ e. e ≡ Utf8Error → is_text (lines_at_finish self.old) ≡ false) }
        ensures stands { (u : List ℕ) → Stands self.old u → MatchResult result (λ _. Stands self.new (finished u)) (λ _. Stands self.new u) }
        ensures whole { (u : List ℕ) → 0 < length u → Stands self.old u → OnOk result (self.new.lines ≡ last_of self.new.bound (ansi u)) }
    {
        if self.unfinished.is_empty() {
            return Ok(());
        }
        self.push(b"\n")
    }

    /// How many lines are kept.
    pub fn len(&self) -> usize
        ensures { result ≡ length self.now.lines }
    {
        self.lines.len()
    }

    /// The kept line with this number, from 0 for the oldest one on.
    pub fn line(&self, index: usize) -> Option<&Line<'static>>
        ensures { option_copied result ≡ slice_get self.now.lines index }
    {
        self.lines.get(index)
    }

    /// How many lines are kept at most.
    pub fn bound(&self) -> usize
        ensures { result ≡ self.now.bound }
    {
        self.bound
    }
}
