// The last run of backticks of each length, so that no run is looked for in vain.
ghost use Rattle.std.specs.Prelude.{◌≡◌, ◌<◌, ◌==◌, ℕ, [], false, true, IfOk, OnOk, if◌then◌else◌};
ghost use Rattle.std.specs.List.{slice_index};
ghost use Rattle.md_leaves.specs.Ahead.{AreLastEnds, IsLastEnd, KnowsRuns};

use crate::bytes::{Class, rest_of, stretch};
use std::alloc::{AllocError, Global};

/// The runs of backticks of a source, which is read once a run was looked for in vain.
#[derive(Drop)]
pub struct TickRuns {
    /// For each length, an offset from which on no run of that length stands.
    pub ends: Vec<usize>,
    pub is_known: bool,
}

impl TickRuns {
    pub fn new(alloc: Global) -> TickRuns
        ensures { result.is_known ≡ false }
    {
        TickRuns {
            ends: Vec::new(alloc),
            is_known: false,
        }
    }

    /// Reads the source if it was not read before.
    pub fn learn(&mut self, source: &[u8]) -> Result<(), AllocError>
        requires { KnowsRuns source.now self.old }
        ensures { KnowsRuns source.now self.new }
    {
        if self.is_known {
            return Ok(());
        }
        self.ends.clear();
        last_ends(source, &mut self.ends)?;
        self.is_known = true;
        Ok(())
    }

    /// An offset from which on no maximal run of so many backticks stands; the end while the source was not read.
    pub fn last_end(&self, source: &[u8], n: usize) -> usize
        requires some { 0 < n }
        requires known { KnowsRuns source.now self.now }
        ensures { IsLastEnd source.now n result }
    {
        if self.is_known {
            number_at(self.ends.as_slice(), n)
        } else {
            source.len()
        }
    }
}

/// The number at an index; 0 past the end.
fn number_at(numbers: &[usize], index: usize) -> usize
    ensures { result ≡ slice_index numbers.now index }
{
    if index < numbers.len() {
        numbers[index]
    } else {
        0
    }
}

/// Puts a number at an index, behind as many 0 as it takes.
fn put(numbers: &mut Vec<usize>, index: usize, number: usize) -> Result<(), AllocError>
    ensures { OnOk result ((k : ℕ) → slice_index numbers.new.items k ≡ (if k == index then number else slice_index numbers.old.items k)) }
{
    while numbers.len() <= index {
        numbers.push(0)?;
    }
    numbers[index] = number;
    Ok(())
}

/// Puts down for each length the offset behind the last maximal run of so many backticks; 0 where there is none.
fn last_ends(source: &[u8], ends: &mut Vec<usize>) -> Result<(), AllocError>
    requires { ends.old.items ≡ [] }
    ensures { OnOk result (AreLastEnds source.now ends.new.items) }
{
    let mut at = 0;
    while at < source.len() {
        if source[at] == b'`' {
            let n = stretch(rest_of(source, at), Class::Byte { of: b'`' });
            at += n;
            put(ends, n, at)?;
        } else {
            at += 1;
        }
    }
    Ok(())
}
