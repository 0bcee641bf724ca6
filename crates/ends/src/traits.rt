// Where bytes come from and where they go.
ghost use Rattle.std.specs.Prelude.{◌≡◌, ℕ, List, Option};
ghost use Rattle.std.specs.Io.{ReadsAtMost, WritesAtMost};
ghost use Rattle.std.specs.Io.KnownBytes.{ReadConsumes, WriteAppends};
ghost use Rattle.ends.specs.Causes.{HasCause, TakesSome};

/// A read or a write that failed. It took or appended no byte.
#[derive(Clone, Copy, Debug, PartialEq, Eq)]
pub struct Failed;

/// Where bytes are read from.
pub trait Source {
    /// What is left, where the source tells it.
    ghost left: { Self → Option (List ℕ) };

    /// How many reads have failed; it stays at the last `u64`.
    ghost faults: { Self → ℕ };

    /// Takes the next bytes into the front of the slice and answers how many these are, at most the slice's length.
    /// 0 for a slice that is not empty is the end of the input. `Failed` comes only where the count of faults rose
    /// in this call, or stands at its last value, and takes nothing; after `Ok` the count is as it was.
    fn read(&mut self, into: &mut [u8]) -> Result<usize, Failed>
        ensures bound { ReadsAtMost result into.new }
        ensures bytes { ReadConsumes (left self.old) (left self.new) result into.new }
        ensures cause { HasCause (faults self.old) (faults self.new) result };
}

/// Where bytes are written to.
pub trait Sink {
    /// What was written, where the sink tells it.
    ghost written: { Self → Option (List ℕ) };

    /// How many writes have failed; it stays at the last `u64`.
    ghost faults: { Self → ℕ };

    /// Appends the first bytes of the slice and answers how many these are, at least one of a slice that is not
    /// empty. `Failed` comes only where the count of faults rose in this call, or stands at its last value, and
    /// appends nothing; after `Ok` the count is as it was.
    fn write(&mut self, from: &[u8]) -> Result<usize, Failed>
        ensures bound { WritesAtMost result from.now }
        ensures some { TakesSome result from.now }
        ensures bytes { WriteAppends (written self.old) (written self.new) result from.now }
        ensures cause { HasCause (faults self.old) (faults self.new) result };
}
