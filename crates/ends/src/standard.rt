// Adapters of std's readers and writers. They tell no content: what the real input and output held is not proved.
ghost use Rattle.std.specs.Prelude.{◌≡◌, None};

use crate::traits::{Failed, Sink, Source};
use std::io::{Read, Write};
use std::marker::Model;

/// A reader as a source, with a count of its faults. A read that is interrupted counts as a fault.
///
/// A contract sees the count alone.
#[derive(Drop)]
pub struct StdSource<I: Read + Drop> {
    input: I,
    faults: u64,
}

impl<I: Read + Drop> Model for StdSource<I> {
    ghost use Rattle.std.specs.Prelude.{ℕ};

    ghost Value = { ℕ };

    ghost view = { λ s. s.faults };
}

impl<I: Read + Drop> StdSource<I> {
    /// The source of a reader, without faults so far. Takes no memory.
    pub fn new(input: I) -> StdSource<I>
        ensures { result ≡ 0 }
    {
        StdSource { input, faults: 0 }
    }
}

impl<I: Read + Drop> Source for StdSource<I> {
    ghost left = { λ _. None };

    ghost faults = { λ s. s };

    fn read(&mut self, into: &mut [u8]) -> Result<usize, Failed> {
        match self.input.read(into) {
            Ok(count) => Ok(count),
            Err(_) => {
                self.faults = self.faults.saturating_add(1);
                Err(Failed)
            }
        }
    }
}

/// A writer as a sink, with a count of its faults. A write that takes nothing of some bytes, or is interrupted,
/// counts as a fault. A contract sees the count alone.
#[derive(Drop)]
pub struct StdSink<O: Write + Drop> {
    output: O,
    faults: u64,
}

impl<O: Write + Drop> Model for StdSink<O> {
    ghost use Rattle.std.specs.Prelude.{ℕ};

    ghost Value = { ℕ };

    ghost view = { λ s. s.faults };
}

impl<O: Write + Drop> StdSink<O> {
    /// The sink of a writer, without faults so far. Takes no memory.
    pub fn new(output: O) -> StdSink<O>
        ensures { result ≡ 0 }
    {
        StdSink { output, faults: 0 }
    }
}

impl<O: Write + Drop> Sink for StdSink<O> {
    ghost written = { λ _. None };

    ghost faults = { λ s. s };

    fn write(&mut self, from: &[u8]) -> Result<usize, Failed> {
        match self.output.write(from) {
            Ok(count) if count > 0 || from.is_empty() => Ok(count),
            _ => {
                self.faults = self.faults.saturating_add(1);
                Err(Failed)
            }
        }
    }
}
