// A source and a sink in memory.
ghost use Rattle.std.specs.Prelude.{◌≡◌, ℕ, ◌+◌, ◌-◌, ◌≤◌, List, [], min, length, Option, Some};
ghost use Rattle.std.specs.Prelude.{IfOk, OnErr, is_err, vec_capacity, drop};
ghost use Rattle.std.specs.Io.{ReadsAtMost, WritesAtMost};
ghost use Rattle.std.specs.Io.KnownBytes.{ReadConsumes, WriteAppends};
ghost use Rattle.ends.specs.Causes.{HasCause, TakesSome};
ghost use Rattle.ends.specs.Memory.{SourceState, read_fails, after_read, after_failed_read};
ghost use Rattle.ends.specs.Memory.{SinkState, write_fails, after_write, after_failed_write};

use crate::traits::{Failed, Sink, Source};
use std::alloc::{AllocError, Global};
use std::marker::Model;

/// Bytes in memory. A call gives at most `most` of them; the calls whose numbers, from 1, `fails` lists fail.
#[derive(Drop)]
pub struct MemorySource {
    bytes: Vec<u8>,
    at: usize,
    most: usize,
    fails: Vec<u64>,
    calls: u64,
    faults: u64,
}

impl Model for MemorySource {
    ghost Value = { SourceState };

    ghost view = { λ s. record {
      left = drop s.at s.bytes.items;
      most = s.most;
      fails = s.fails.items;
      calls = s.calls;
      faults = s.faults;
    } };

    ghost invariant = { λ s. (s.at ≤ length s.bytes.items) × (1 ≤ s.most) };
}

impl MemorySource {
    /// A source of these bytes, before its first call. Takes no memory.
    pub fn new(bytes: Vec<u8>, most: usize, fails: Vec<u64>) -> MemorySource
        requires { 1 ≤ most }
        ensures { result ≡ record { left = bytes.items; most = most; fails = fails.items; calls = 0; faults = 0 } }
    {
        MemorySource {
            bytes,
            at: 0,
            most,
            fails,
            calls: 0,
            faults: 0,
        }
    }
}

impl Source for MemorySource {
    ghost left = { λ s. Some s.left };

    ghost faults = { λ s. s.faults };

    fn read(&mut self, into: &mut [u8]) -> Result<usize, Failed>
        ensures bound { ReadsAtMost result into.new }
        ensures bytes { ReadConsumes (Some self.old.left) (Some self.new.left) result into.new }
        ensures cause { HasCause self.old.faults self.new.faults result }
        ensures failed { is_err result ≡ read_fails self.old }
        ensures count { IfOk result (λ n. n ≡ min (length into.old) (min self.old.most (length self.old.left))) }
        ensures after { IfOk result (λ n. self.new ≡ after_read self.old n) }
        ensures after_failed { OnErr result (self.new ≡ after_failed_read self.old) }
    {
        self.calls = self.calls.saturating_add(1);
        if self.fails.contains(&self.calls) {
            self.faults = self.faults.saturating_add(1);
            return Err(Failed);
        }
        let count = into.len().min(self.most).min(self.bytes.len() - self.at);
        into[..count].copy_from_slice(&self.bytes[self.at..self.at + count]);
        self.at += count;
        Ok(count)
    }
}

/// Room in memory. A call takes at most `most` bytes; the calls whose numbers, from 1, `fails` lists fail, and so
/// does a call with bytes once the room is used up.
#[derive(Drop)]
pub struct MemorySink {
    bytes: Vec<u8>,
    room: usize,
    most: usize,
    fails: Vec<u64>,
    calls: u64,
    faults: u64,
}

impl Model for MemorySink {
    ghost Value = { SinkState };

    ghost view = { λ s. record {
      written = s.bytes.items;
      room = s.room;
      most = s.most;
      fails = s.fails.items;
      calls = s.calls;
      faults = s.faults;
    } };

    ghost invariant = { λ s. (length s.bytes.items + s.room ≤ vec_capacity s.bytes) × (1 ≤ s.most) };
}

impl MemorySink {
    /// A sink with room for so many bytes, which it takes here; its writes take no memory.
    pub fn new(
        alloc: Global,
        room: usize,
        most: usize,
        fails: Vec<u64>,
    ) -> Result<MemorySink, AllocError>
        requires { 1 ≤ most }
        ensures { IfOk result (λ s.
            s ≡ record { written = []; room = room; most = most; fails = fails.items; calls = 0; faults = 0 }) }
    {
        let bytes = Vec::with_capacity(alloc, room)?;
        Ok(MemorySink {
            bytes,
            room,
            most,
            fails,
            calls: 0,
            faults: 0,
        })
    }

    /// What was written.
    pub fn written(&self) -> &[u8]
        ensures { result.now ≡ self.now.written }
    {
        &self.bytes
    }
}

impl Sink for MemorySink {
    ghost written = { λ s. Some s.written };

    ghost faults = { λ s. s.faults };

    fn write(&mut self, from: &[u8]) -> Result<usize, Failed>
        ensures bound { WritesAtMost result from.now }
        ensures some { TakesSome result from.now }
        ensures bytes { WriteAppends (Some self.old.written) (Some self.new.written) result from.now }
        ensures cause { HasCause self.old.faults self.new.faults result }
        ensures failed { is_err result ≡ write_fails self.old from.now }
        ensures count { IfOk result (λ n. n ≡ min (length from.now) (min self.old.most self.old.room)) }
        ensures after { IfOk result (λ n. self.new ≡ after_write self.old from.now n) }
        ensures after_failed { OnErr result (self.new ≡ after_failed_write self.old) }
    {
        self.calls = self.calls.saturating_add(1);
        if self.fails.contains(&self.calls) || (!from.is_empty() && self.room == 0) {
            self.faults = self.faults.saturating_add(1);
            return Err(Failed);
        }
        let count = from.len().min(self.most).min(self.room);
        match self.bytes.extend_from_slice(&from[..count]) {
            Ok(()) => {}
            Err(_) => unreachable!(),
        }
        self.room -= count;
        Ok(count)
    }
}
