// Text that is being written.
ghost use Rattle.std.specs.Prelude.{◌≡◌, ◌<◌, ◌≤◌, ◌+◌, ◌∷◌, ◌++◌, [], length, take, IfOk, OnOk};
ghost use Rattle.term_ansi.specs.Printed.{change};
ghost use Rattle.term_ansi.specs.Sgr.{sequence_text};

use crate::look::Look;
use crate::sequence::{put, put_sequence};
use std::alloc::{AllocError, Global};
use std::marker::Model;

/// How many bytes are collected before they go out together.
const PART: usize = 4096;

/// The room that is kept for a sequence.
const ROOM: usize = 64;

/// Text that is being written: what went out, and the front of a part that collects sequences and short symbols.
#[derive(Drop)]
pub(crate) struct Pen {
    out: Vec<u8>,
    part: Vec<u8>,
    len: usize,
}

impl Model for Pen {
    ghost use Rattle.std.specs.Prelude.{ℕ, ◌≡◌, ◌≤◌, ◌+◌, ◌++◌, List, length, take};

    ghost Value = { List ℕ };

    ghost view = { λ p. p.out.items ++ take p.len p.part.items };

    ghost invariant = { λ p. (length p.part.items ≡ 4096) × (p.len + 64 ≤ 4096) };
}

impl Pen {
    /// No text.
    pub(crate) fn new(alloc: Global) -> Result<Pen, AllocError>
        ensures { IfOk result (λ p. p ≡ []) }
    {
        let part = vec![in alloc; 0u8; PART]?;
        Ok(Pen {
            out: Vec::new(alloc),
            part,
            len: 0,
        })
    }

    /// Adds the sequence of the second look, where it differs from the first.
    pub(crate) fn push_change(&mut self, last: Look, look: Look) -> Result<(), AllocError>
        ensures { OnOk result (self.new ≡ self.old ++ change last look) }
    {
        if last.is(look) {
            return Ok(());
        }
        self.push_sequence(look)
    }

    /// Adds the sequence of a look.
    fn push_sequence(&mut self, look: Look) -> Result<(), AllocError>
        ensures { OnOk result (self.new ≡ self.old ++ sequence_text look) }
    {
        let len = put_sequence(self.part.as_mut_slice(), self.len, look);
        if len + ROOM > PART {
            self.out.extend_from_slice(&self.part[..len])?;
            self.len = 0;
        } else {
            self.len = len;
        }
        Ok(())
    }

    /// Adds a symbol.
    pub(crate) fn push_symbol(&mut self, symbol: &str) -> Result<(), AllocError>
        ensures { OnOk result (self.new ≡ self.old ++ symbol.now) }
    {
        let bytes = symbol.as_bytes();
        if bytes.len() == 1 {
            return self.push_byte(bytes[0]);
        }
        self.out.extend_from_slice(&self.part[..self.len])?;
        self.len = 0;
        self.out.extend_from_slice(bytes)
    }

    /// Adds a byte.
    pub(crate) fn push_byte(&mut self, byte: u8) -> Result<(), AllocError>
        ensures { OnOk result (self.new ≡ self.old ++ byte ∷ []) }
    {
        let len = put(self.part.as_mut_slice(), self.len, byte);
        if len + ROOM > PART {
            self.out.extend_from_slice(&self.part[..len])?;
            self.len = 0;
        } else {
            self.len = len;
        }
        Ok(())
    }

    /// All of the text.
    pub(crate) fn finish(self) -> Result<Vec<u8>, AllocError>
        ensures { IfOk result (λ v. v.items ≡ self) }
    {
        let mut out = self.out;
        out.extend_from_slice(&self.part[..self.len])?;
        Ok(out)
    }
}
