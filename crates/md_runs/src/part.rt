// The parts of a level: leaves, and links and images of leaves.
ghost use Rattle.std.specs.Prelude.{◌≡◌, ◌<◌, IfOk, length, take, drop};
ghost use Rattle.std.specs.List.{list_any};
ghost use Rattle.md_runs.specs.Brackets.{Single, balance, target_of, first_target, group_of, parts, parts_after, singles};
ghost use Rattle.md_runs.specs.Partners.{balances};
ghost use Rattle.md_runs.specs.Plain.{leaf_is_opener};

use crate::partners::balances;
use md_leaves::{Kind, Leaf, Target};
use std::alloc::{AllocError, Global};
use std::marker::Model;

/// A link or an image that an opener makes of the leaves behind it.
#[derive(Clone, Copy)]
pub struct Group {
    pub is_image: bool,
    pub target: Target,
    /// How many leaves stand between the opener and its closer.
    pub more: usize,
}

/// A part of a level: a leaf by itself, or a link or an image with the leaves inside it, which are borrowed.
#[derive(Drop)]
pub struct Part<'l> {
    pub leaf: Leaf,
    pub group: Option<Group>,
    pub inside: &'l [Leaf],
}

impl<'l> Model for Part<'l> {
    ghost use Rattle.md_runs.specs.Brackets.{Part};
    ghost use Rattle.md_runs.specs.Seen.{part_of};

    ghost Value = { Part };

    ghost view = { λ p. part_of p.leaf p.group p.inside.now };
}

impl<'l> Part<'l> {
    /// A leaf by itself.
    pub fn single(leaf: Leaf) -> Part<'l>
        ensures { result ≡ Single leaf }
    {
        Part {
            leaf,
            group: None,
            inside: &[],
        }
    }

    /// The same part, which borrows the same leaves.
    pub fn again(&self) -> Part<'l>
        ensures { result ≡ self.now }
    {
        Part {
            leaf: self.leaf,
            group: self.group,
            inside: self.inside,
        }
    }
}

/// The parts of a level, where links may stand or not; the leaves inside a link or an image are borrowed.
#[tactic(auto, unfolding(crate::specs::Brackets::parts_after))]
pub fn parts<'l>(
    alloc: Global,
    in_link: bool,
    leaves: &'l [Leaf],
) -> Result<Vec<Part<'l>>, AllocError>
    ensures { IfOk result (λ v. v.items ≡ parts in_link leaves.now) }
{
    let found = balances(alloc, leaves)?;
    let closers = found.as_slice();
    let mut parts = Vec::new(alloc);
    let mut at = 0;
    while at < leaves.len() {
        let leaf = leaves[at];
        let later = &leaves[at + 1..];
        match group_of(in_link, leaf.kind, closers[at], later) {
            Some(group) => {
                parts.push(Part {
                    leaf,
                    group: Some(group),
                    inside: &later[..group.more],
                })?;
                at += group.more + 2;
            }
            None => {
                parts.push(Part::single(leaf))?;
                at += 1;
            }
        }
    }
    Ok(parts)
}

/// Each leaf as a part.
pub fn singles<'l>(alloc: Global, leaves: &'l [Leaf]) -> Result<Vec<Part<'l>>, AllocError>
    ensures { IfOk result (λ v. v.items ≡ singles leaves.now) }
{
    let mut parts = Vec::new(alloc);
    let mut at = 0;
    while at < leaves.len() {
        parts.push(Part::single(leaves[at]))?;
        at += 1;
    }
    Ok(parts)
}

/// What an opener makes of the leaves behind it, if its balancing closer stands behind so many of them.
fn group_of(in_link: bool, kind: Kind, closer: Option<usize>, later: &[Leaf]) -> Option<Group>
    ensures { result ≡ group_of in_link kind closer later.now }
{
    match (kind, closer) {
        (Kind::Opener { is_image }, Some(more)) => {
            if in_link && !is_image {
                return None;
            }
            let target = target_at(later, more)?;
            Some(Group {
                is_image,
                target,
                more,
            })
        }
        _ => None,
    }
}

/// The destination of the closer behind so many leaves, where it has one.
fn target_at(leaves: &[Leaf], more: usize) -> Option<Target>
    ensures { result ≡ first_target (drop more leaves.now) }
{
    match leaves.get(more) {
        Some(leaf) => match leaf.kind {
            Kind::Closer { target } => target,
            _ => None,
        },
        None => None,
    }
}

/// Whether a link or an image may begin at one of the leaves.
pub fn has_opener(leaves: &[Leaf]) -> bool
    ensures { result ≡ list_any leaf_is_opener leaves.now }
{
    leaves.iter().any(|leaf| leaf_is_opener(leaf))
}

fn leaf_is_opener(leaf: &Leaf) -> bool
    ensures { result ≡ leaf_is_opener leaf.now }
{
    matches!(leaf.kind, Kind::Opener { .. })
}
