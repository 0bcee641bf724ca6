// Runs that pair.
ghost use Rattle.std.specs.Prelude.{◌≡◌, ◌++◌, ◌<◌, ◌≤◌, IfOk, OnOk, length, drop};
ghost use Rattle.md_runs.specs.Pairs.{size, same_mark, has_style, is_script, size_fits, is_closing, ends_search, part_ends_search, search, is_taken, cost, pair_of, first_pair, left_over, between};
ghost use Rattle.md_runs.specs.Partners.{AreGone, IsGone, none_gone};

use crate::part::Part;
use crate::source::Source;
use md_leaves::{Kind, Leaf, Mark};
use std::alloc::{AllocError, Global};

/// A pair of runs: the character, how many of it are taken at either side, and how many parts stand between the two.
#[derive(Clone, Copy)]
pub struct Pair {
    pub mark: Mark,
    pub size: usize,
    pub more: usize,
}

/// The sizes of runs of a character that are known to find no partner further on.
#[derive(Clone, Copy)]
pub struct Sizes {
    pub one: bool,
    pub two: bool,
    pub three: bool,
}

/// The runs that are known to find no partner further on, so that a search that fails is made once for each.
#[derive(Clone, Copy)]
pub struct Gone {
    pub star: Sizes,
    pub underscore: Sizes,
    pub tilde: Sizes,
    pub caret: Sizes,
}

/// How many bytes a leaf has.
fn size(leaf: &Leaf) -> usize
    ensures { result ≡ size leaf.now }
{
    leaf.to.saturating_sub(leaf.from)
}

fn same_mark(a: Mark, b: Mark) -> bool
    ensures { result ≡ same_mark a b }
{
    match (a, b) {
        (Mark::Star, Mark::Star) => true,
        (Mark::Underscore, Mark::Underscore) => true,
        (Mark::Tilde, Mark::Tilde) => true,
        (Mark::Caret, Mark::Caret) => true,
        _ => false,
    }
}

/// Whether a run of so many of a character may be the first of a pair.
fn has_style(mark: Mark, count: usize) -> bool
    ensures { result ≡ has_style mark count }
{
    match mark {
        Mark::Star | Mark::Underscore => 0 < count && count < 4,
        Mark::Tilde => count == 1 || count == 2,
        Mark::Caret => count == 1,
    }
}

/// Whether a run of so many of a character makes a subscript or a superscript.
fn is_script(mark: Mark, count: usize) -> bool
    ensures { result ≡ is_script mark count }
{
    match mark {
        Mark::Star | Mark::Underscore => false,
        Mark::Tilde | Mark::Caret => count == 1,
    }
}

/// Whether a run of so many of a character pairs with a run of so many others.
fn size_fits(mark: Mark, count: usize, others: usize) -> bool
    ensures { result ≡ size_fits mark count others }
{
    match mark {
        Mark::Star | Mark::Underscore => others == count || others == 3 && count < 3,
        Mark::Tilde | Mark::Caret => others == count,
    }
}

/// Whether a leaf is a run that may close a pair.
fn is_closing(kind: Kind) -> bool
    ensures { result ≡ is_closing kind }
{
    match kind {
        Kind::Run { closes, .. } => closes,
        _ => false,
    }
}

/// Whether the search of a run of `count` for its partner ends at a leaf of this kind and size.
fn ends_search(mark: Mark, count: usize, kind: Kind, size: usize) -> bool
    ensures { result ≡ ends_search mark count kind size }
{
    match kind {
        Kind::Run {
            mark: other,
            closes,
            ..
        } => {
            same_mark(mark, other)
                && size_fits(mark, count, size)
                && (closes || is_script(mark, count))
        }
        _ => false,
    }
}

/// Whether the search of a run of `count` for its partner ends at a part.
fn part_ends_search(mark: Mark, count: usize, part: &Part) -> bool
    ensures { result ≡ part_ends_search mark count part.now }
{
    match part.group {
        None => ends_search(mark, count, part.leaf.kind, size(&part.leaf)),
        Some(_) => false,
    }
}

/// How many parts stand before the first at which the search of a run of `count` ends.
fn search(mark: Mark, count: usize, parts: &[Part]) -> Option<usize>
    ensures { result ≡ search mark count parts.now }
{
    parts
        .iter()
        .position(|part| part_ends_search(mark, count, part))
}

/// How many levels a pair has.
pub fn cost(count: usize) -> usize
    ensures { result ≡ cost count }
{
    if count == 3 { 2 } else { 1 }
}

impl Sizes {
    /// The search of a run for its partner; one that fails is not made again.
    fn search(&mut self, mark: Mark, count: usize, parts: &[Part]) -> Option<usize>
        requires gone { AreGone mark self.old parts.now }
        ensures value { result ≡ search mark count parts.now }
        ensures gone { AreGone mark self.new parts.now }
    {
        if count == 1 {
            if self.one {
                return None;
            }
            let found = search(mark, 1, parts);
            self.one = found.is_none();
            found
        } else if count == 2 {
            if self.two {
                return None;
            }
            let found = search(mark, 2, parts);
            self.two = found.is_none();
            found
        } else if count == 3 {
            if self.three {
                return None;
            }
            let found = search(mark, 3, parts);
            self.three = found.is_none();
            found
        } else {
            search(mark, count, parts)
        }
    }
}

impl Gone {
    /// No run is known to find no partner.
    pub fn new() -> Gone
        ensures { result ≡ none_gone }
    {
        let none = Sizes {
            one: false,
            two: false,
            three: false,
        };
        Gone {
            star: none,
            underscore: none,
            tilde: none,
            caret: none,
        }
    }

    /// The search of a run for its partner; one that fails is not made again.
    fn search(&mut self, mark: Mark, count: usize, parts: &[Part]) -> Option<usize>
        requires gone { IsGone self.old parts.now }
        ensures value { result ≡ search mark count parts.now }
        ensures gone { IsGone self.new parts.now }
    {
        match mark {
            Mark::Star => self.star.search(mark, count, parts),
            Mark::Underscore => self.underscore.search(mark, count, parts),
            Mark::Tilde => self.tilde.search(mark, count, parts),
            Mark::Caret => self.caret.search(mark, count, parts),
        }
    }
}

/// Whether the run behind so many parts is taken as the partner of a run that ends at a place.
fn is_taken(
    source: &Source,
    mark: Mark,
    count: usize,
    from: usize,
    parts: &[Part],
    more: usize,
) -> bool
    ensures { result ≡ is_taken source.now.text mark count from (drop more parts.now) }
{
    if more >= parts.len() {
        return false;
    }
    let part = &parts[more];
    match part.group {
        None => {
            !is_script(mark, count)
                || is_closing(part.leaf.kind) && source.is_solid(from, part.leaf.from)
        }
        Some(_) => false,
    }
}

/// The pair that a leaf begins, which other parts follow, where so many levels are left.
fn pair_of(
    source: &Source,
    levels: usize,
    leaf: &Leaf,
    later: &[Part],
    gone: &mut Gone,
) -> Option<Pair>
    requires gone { IsGone gone.old later.now }
    ensures value { result ≡ pair_of source.now.text levels leaf.now.kind (size leaf.now) leaf.now.to later.now }
    ensures gone { IsGone gone.new later.now }
{
    let count = size(leaf);
    match leaf.kind {
        Kind::Run { mark, opens, .. } => {
            if !(opens && has_style(mark, count) && cost(count) <= levels) {
                return None;
            }
            let more = gone.search(mark, count, later)?;
            if is_taken(source, mark, count, leaf.to, later, more) {
                Some(Pair {
                    mark,
                    size: count,
                    more,
                })
            } else {
                None
            }
        }
        _ => None,
    }
}

/// The pair that the first of the parts begins, where so many levels are left.
pub fn first_pair(source: &Source, levels: usize, parts: &[Part], gone: &mut Gone) -> Option<Pair>
    requires some { 0 < length parts.now }
    requires gone { IsGone gone.old (drop 1 parts.now) }
    ensures value { result ≡ first_pair source.now.text levels parts.now }
    ensures gone { IsGone gone.new (drop 1 parts.now) }
{
    let part = &parts[0];
    match part.group {
        None => pair_of(source, levels, &part.leaf, &parts[1..], gone),
        Some(_) => None,
    }
}

/// The inside of a pair: the parts before the closer, and what is left of it.
pub fn between<'l>(
    alloc: Global,
    count: usize,
    more: usize,
    parts: &[Part<'l>],
) -> Result<Vec<Part<'l>>, AllocError>
    requires { more ≤ length parts.now }
    ensures { IfOk result (λ v. v.items ≡ between count more parts.now) }
{
    let mut inside = copied(alloc, &parts[..more])?;
    push_left_over(count, parts, more, &mut inside)?;
    Ok(inside)
}

/// The same parts.
fn copied<'l>(alloc: Global, parts: &[Part<'l>]) -> Result<Vec<Part<'l>>, AllocError>
    ensures { IfOk result (λ v. v.items ≡ parts.now) }
{
    let mut same = Vec::new(alloc);
    let mut at = 0;
    while at < parts.len() {
        same.push(parts[at].again())?;
        at += 1;
    }
    Ok(same)
}

/// Appends what is left of the closer behind so many parts, if so many of its characters are taken.
fn push_left_over<'l>(
    count: usize,
    parts: &[Part<'l>],
    more: usize,
    inside: &mut Vec<Part<'l>>,
) -> Result<(), AllocError>
    ensures { OnOk result (inside.new.items ≡ inside.old.items ++ left_over count (drop more parts.now)) }
{
    if more >= parts.len() {
        return Ok(());
    }
    let part = &parts[more];
    if part.group.is_none() && size(&part.leaf) != count {
        inside.push(Part::single(Leaf {
            kind: part.leaf.kind,
            from: part.leaf.from,
            to: part.leaf.to.saturating_sub(count),
        }))?;
    }
    Ok(())
}
