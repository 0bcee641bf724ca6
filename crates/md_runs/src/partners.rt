// The closers that balance openers.
ghost use Rattle.std.specs.Prelude.{◌≡◌, IfOk, OnOk};
ghost use Rattle.md_runs.specs.Partners.{balances, distance, noted};

use md_leaves::{Kind, Leaf};
use std::alloc::{AllocError, Global};

/// For each leaf how many leaves stand before the closer that balances an opener there; one pass, from the right.
pub fn balances(alloc: Global, leaves: &[Leaf]) -> Result<Vec<Option<usize>>, AllocError>
    ensures { IfOk result (λ v. v.items ≡ balances leaves.now) }
{
    let mut unmatched = Vec::new(alloc);
    let mut found = Vec::new(alloc);
    let mut at = leaves.len();
    while at > 0 {
        found.push(distance(at, unmatched.as_slice().last().copied()))?;
        at -= 1;
        note(leaves[at].kind, at, &mut unmatched)?;
    }
    found.reverse();
    Ok(found)
}

/// How far a place stands behind another.
fn distance(at: usize, place: Option<usize>) -> Option<usize>
    ensures { result ≡ distance at place }
{
    match place {
        Some(place) => Some(place.saturating_sub(at)),
        None => None,
    }
}

/// An opener closes with the last of the closers, and a closer becomes the last.
fn note(kind: Kind, at: usize, closers: &mut Vec<usize>) -> Result<(), AllocError>
    ensures { OnOk result (closers.new.items ≡ noted kind at closers.old.items) }
{
    match kind {
        Kind::Opener { .. } => {
            let _ = closers.pop();
        }
        Kind::Closer { .. } => closers.push(at)?,
        _ => {}
    }
    Ok(())
}
