// Leaves written as inlines: links, images and pairs of runs, one in another.
ghost use Rattle.std.specs.Prelude.{◌≡◌, ◌++◌, ◌-◌, ◌||◌, List, Some, IfOk, OnOk, drop, not};
ghost use Rattle.md_tree.specs.Tree.{events};
ghost use Rattle.md_leaves.specs.Cuts.{IsText, AreLeaves};
ghost use Rattle.md_runs.specs.Brackets.{Grouped};
ghost use Rattle.md_runs.specs.Nest.{Empty, inner, nest, pairs, parts_of, styled, unpaired};
ghost use Rattle.md_runs.specs.Pairs.{between, cost, first_pair};
ghost use Rattle.md_runs.specs.Texts.{inlines_of};
ghost use Rattle.md_runs.specs.Marks.{Step, joined, steps};
ghost use Rattle.md_runs.specs.Facts.{AreParts, IsPart, IsPen};

use crate::alone::{has_beginning, write_alone, write_plain};
use crate::element::{close, close_group, open, open_group};
use crate::pair::{Gone, Pair, between, cost, first_pair};
use crate::part::{Group, Part, has_opener, parts, singles};
use crate::pen::{Pen, flush};
use crate::source::Source;
use md_leaves::Leaf;
use md_tree::Event;
use std::alloc::{AllocError, Global};

/// Where leaves stand: how many links and images deep these may still nest, how many levels are left for pairs, and
/// whether a link is around.
#[derive(Clone, Copy)]
pub struct Level {
    pub depth: usize,
    pub levels: usize,
    pub in_link: bool,
}

impl Level {
    /// The level inside a link or an image.
    fn inside(self, is_image: bool) -> Level
        ensures depth { result.depth ≡ self.depth - 1 }
        ensures levels { result.levels ≡ self.levels - 1 }
        ensures in_link { result.in_link ≡ (self.in_link || not is_image) }
    {
        Level {
            depth: self.depth.saturating_sub(1),
            levels: self.levels.saturating_sub(1),
            in_link: self.in_link || !is_image,
        }
    }
}

/// Appends the events of the leaves of a source; the texts borrow from its lines.
pub fn write_leaves<'a>(
    alloc: Global,
    source: &Source<'a, '_>,
    leaves: &[Leaf],
    out: &mut Vec<Event<'a>>,
) -> Result<(), AllocError>
    requires { AreLeaves source.now.text leaves.now }
    ensures { OnOk result (out.new.items ≡ out.old.items ++ events (inlines_of source.now.text leaves.now)) }
{
    let mut pen = Pen::new();
    let level = Level {
        depth: 32,
        levels: 32,
        in_link: false,
    };
    write_nest(alloc, source, leaves, level, &mut pen, out)?;
    flush(source, &mut pen, out)?;
    Ok(())
}

/// Writes the leaves of a level.
#[cycle(nest)]
fn write_nest<'a>(
    alloc: Global,
    source: &Source<'a, '_>,
    leaves: &[Leaf],
    level: Level,
    pen: &mut Pen,
    out: &mut Vec<Event<'a>>,
) -> Result<(), AllocError>
    requires leaves { AreLeaves source.now.text leaves.now }
    requires pen { IsPen source.now pen.old }
    ensures written { OnOk result ((ss : List Step) → out.new.items ++ joined source.now.text pen.new.pending ss ≡ out.old.items ++ joined source.now.text pen.old.pending (steps (nest source.now.text level.depth level.levels level.in_link leaves.now) ++ ss)) }
    ensures pen { OnOk result (IsPen source.now pen.new) }
{
    if !has_beginning(leaves) {
        write_plain(alloc, source, leaves, level.in_link, pen, out)?;
        return Ok(());
    }
    let parts = parts_of(alloc, leaves, level)?;
    write_parts(alloc, source, parts.as_slice(), level, pen, out)?;
    Ok(())
}

/// Writes the parts of a level.
#[cycle(nest)]
fn write_parts<'a>(
    alloc: Global,
    source: &Source<'a, '_>,
    parts: &[Part],
    level: Level,
    pen: &mut Pen,
    out: &mut Vec<Event<'a>>,
) -> Result<(), AllocError>
    requires parts { AreParts source.now.text parts.now }
    requires pen { IsPen source.now pen.old }
    ensures written { OnOk result ((ss : List Step) → out.new.items ++ joined source.now.text pen.new.pending ss ≡ out.old.items ++ joined source.now.text pen.old.pending (steps (pairs source.now.text level.in_link (inner source.now.text level.depth level.in_link) level.levels parts.now) ++ ss)) }
    ensures pen { OnOk result (IsPen source.now pen.new) }
{
    let mut gone = Gone::new();
    let mut at = 0;
    while at < parts.len() {
        let later = &parts[at..];
        match first_pair(source, level.levels, later, &mut gone) {
            Some(pair) => {
                write_pair(alloc, source, pair, later, level, pen, out)?;
                at += pair.more + 2;
            }
            None => {
                write_part(alloc, source, &parts[at], level, pen, out)?;
                at += 1;
            }
        }
    }
    Ok(())
}

/// Writes the pair that the first of the parts begins.
#[cycle(nest)]
fn write_pair<'a>(
    alloc: Global,
    source: &Source<'a, '_>,
    pair: Pair,
    parts: &[Part],
    level: Level,
    pen: &mut Pen,
    out: &mut Vec<Event<'a>>,
) -> Result<(), AllocError>
    requires pair { first_pair source.now.text level.levels parts.now ≡ Some pair }
    requires parts { AreParts source.now.text parts.now }
    requires pen { IsPen source.now pen.old }
    ensures written { OnOk result ((ss : List Step) → out.new.items ++ joined source.now.text pen.new.pending ss ≡ out.old.items ++ joined source.now.text pen.old.pending (steps (styled pair.mark pair.size (pairs source.now.text level.in_link (inner source.now.text level.depth level.in_link) (level.levels - cost pair.size) (between pair.size pair.more (drop 1 parts.now))) Empty) ++ ss)) }
    ensures pen { OnOk result (IsPen source.now pen.new) }
{
    let inside = between(alloc, pair.size, pair.more, &parts[1..])?;
    let level = Level {
        levels: level.levels - cost(pair.size),
        ..level
    };
    open(source, pair, pen, out)?;
    write_parts(alloc, source, inside.as_slice(), level, pen, out)?;
    close(source, pair, pen, out)?;
    Ok(())
}

/// Writes a part that is in no pair.
#[cycle(nest)]
fn write_part<'a>(
    alloc: Global,
    source: &Source<'a, '_>,
    part: &Part,
    level: Level,
    pen: &mut Pen,
    out: &mut Vec<Event<'a>>,
) -> Result<(), AllocError>
    requires part { IsPart source.now.text part.now }
    requires pen { IsPen source.now pen.old }
    ensures written { OnOk result ((ss : List Step) → out.new.items ++ joined source.now.text pen.new.pending ss ≡ out.old.items ++ joined source.now.text pen.old.pending (steps (unpaired source.now.text level.in_link (inner source.now.text level.depth level.in_link (level.levels - 1)) part.now Empty) ++ ss)) }
    ensures pen { OnOk result (IsPen source.now pen.new) }
{
    match part.group {
        None => write_alone(alloc, source, part.leaf, level.in_link, pen, out)?,
        Some(group) => write_group(
            alloc,
            source,
            part.leaf.from,
            group,
            part.inside,
            level,
            pen,
            out,
        )?,
    }
    Ok(())
}

/// Writes a link or an image of leaves, with its opener at a place.
#[cycle(nest)]
fn write_group<'a>(
    alloc: Global,
    source: &Source<'a, '_>,
    opener: usize,
    group: Group,
    leaves: &[Leaf],
    level: Level,
    pen: &mut Pen,
    out: &mut Vec<Event<'a>>,
) -> Result<(), AllocError>
    requires target { IsText source.now.text group.target.from group.target.to }
    requires leaves { AreLeaves source.now.text leaves.now }
    requires pen { IsPen source.now pen.old }
    ensures written { OnOk result ((ss : List Step) → out.new.items ++ joined source.now.text pen.new.pending ss ≡ out.old.items ++ joined source.now.text pen.old.pending (steps (unpaired source.now.text level.in_link (inner source.now.text level.depth level.in_link (level.levels - 1)) (Grouped group.is_image group.target leaves.now) Empty) ++ ss)) }
    ensures pen { OnOk result (IsPen source.now pen.new) }
{
    open_group(source, opener, group.is_image, group.target, pen, out)?;
    write_inside(alloc, source, leaves, level, group.is_image, pen, out)?;
    close_group(source, group.is_image, pen, out)?;
    Ok(())
}

/// Writes the leaves inside a link or an image.
#[cycle(nest)]
fn write_inside<'a>(
    alloc: Global,
    source: &Source<'a, '_>,
    leaves: &[Leaf],
    level: Level,
    is_image: bool,
    pen: &mut Pen,
    out: &mut Vec<Event<'a>>,
) -> Result<(), AllocError>
    requires leaves { AreLeaves source.now.text leaves.now }
    requires pen { IsPen source.now pen.old }
    ensures written { OnOk result ((ss : List Step) → out.new.items ++ joined source.now.text pen.new.pending ss ≡ out.old.items ++ joined source.now.text pen.old.pending (steps (inner source.now.text level.depth level.in_link (level.levels - 1) is_image leaves.now) ++ ss)) }
    ensures pen { OnOk result (IsPen source.now pen.new) }
{
    if level.depth == 0 {
        return Ok(());
    }
    write_nest(alloc, source, leaves, level.inside(is_image), pen, out)?;
    Ok(())
}

/// The parts of leaves: where no link or image may stand or begins, each leaf by itself.
fn parts_of<'l>(
    alloc: Global,
    leaves: &'l [Leaf],
    level: Level,
) -> Result<Vec<Part<'l>>, AllocError>
    ensures { IfOk result (λ v. v.items ≡ parts_of level.depth level.in_link leaves.now) }
{
    if level.depth == 0 {
        return singles(alloc, leaves);
    }
    if has_opener(leaves) {
        return parts(alloc, level.in_link, leaves);
    }
    let singles = singles(alloc, leaves)?;
    Ok(singles)
}
