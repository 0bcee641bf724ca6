// How many rows lines have.
ghost use Rattle.std.specs.Prelude.{◌≡◌, ◌+◌, ◌^◌, ◌<◌, ◌≤◌, [], ◌∷◌, ◌++◌, length, take, IfOk, OnOk, OnErr};
ghost use Rattle.std.specs.List.{sum};

use crate::steps::{Ledger, Steps};
use std::alloc::{AllocError, Global};
use std::marker::Model;

/// How many rows each of some lines has. It tells at once how many rows are before a line, and keeps a number a line.
#[derive(Drop)]
pub struct RowIndex {
    // The rows up to the end of each line.
    ends: Vec<usize>,
}

impl Model for RowIndex {
    ghost use Rattle.std.specs.Prelude.{◌≡◌, ℕ, List, true};
    ghost use Rattle.term_text.specs.RowIndex.{counts_after, rises};

    ghost Value = { List ℕ };

    ghost view = { λ s. counts_after 0 s.ends.items };

    ghost invariant = { λ s. rises 0 s.ends.items ≡ true };
}

impl RowIndex {
    /// No lines. Takes no memory.
    pub fn new(alloc: Global) -> RowIndex
        ensures { result ≡ [] }
    {
        RowIndex {
            ends: Vec::new(alloc),
        }
    }

    /// No lines, with room for so many and no more; or want of memory.
    pub fn with_capacity(alloc: Global, lines: usize) -> Result<RowIndex, AllocError>
        ensures { IfOk result (λ index. index ≡ []) }
    {
        Ok(RowIndex {
            ends: Vec::with_capacity(alloc, lines)?,
        })
    }

    /// Adds a line of so many rows at the end. `usize` has to count all rows. After want of memory the index is as before.
    pub fn push(&mut self, rows: usize) -> Result<(), AllocError>
        requires { sum self.old + rows < 2 ^ 64 }
        ensures ok { OnOk result (self.new ≡ self.old ++ rows ∷ []) }
        ensures err { OnErr result (self.new ≡ self.old) }
    {
        let end = self.total() + rows;
        self.ends.push(end)?;
        Ok(())
    }

    /// The number of lines.
    pub fn lines(&self) -> usize
        ensures { result ≡ length self.now }
    {
        self.ends.len()
    }

    /// The number of all rows.
    pub fn total(&self) -> usize
        ensures { result ≡ sum self.now }
    {
        self.rows_before(self.ends.len())
    }

    /// The number of the rows before a line, or of all rows for the number of lines, with one step noted.
    pub fn before<L: Ledger>(&self, line: usize, steps: &mut Steps<L>) -> usize
        requires { line ≤ length self.now }
        ensures rows { result ≡ sum (take line self.now) }
        ensures ticks { L.noted 1 steps.old steps.new }
    {
        steps.tick();
        self.rows_before(line)
    }

    /// The number of the rows before a line.
    fn rows_before(&self, line: usize) -> usize
        requires { line ≤ length self.now }
        ensures { result ≡ sum (take line self.now) }
    {
        if line == 0 {
            return 0;
        }
        self.ends[line - 1]
    }
}
