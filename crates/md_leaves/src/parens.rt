// The parentheses that no other closes, so that no destination is read in vain.
ghost use Rattle.std.specs.Prelude.{◌≡◌, ◌≤◌, ◌<◌, [], drop, false, true, length, IfOk, OnOk};
ghost use Rattle.std.specs.List.{All};
ghost use Rattle.md_leaves.specs.Ahead.{IsStop, KnowsStops, closers_before};
ghost use Rattle.md_leaves.specs.Closers.{at_bar, begins_control};

use crate::bytes::byte_at;
use md_lines::is_blank;
use std::alloc::{AllocError, Global};

/// Whether a control character begins with these bytes.
fn begins_control(b: u8, next: u8) -> bool
    ensures { result ≡ begins_control b next }
{
    b < 32 || b == 127 || b == 194 && 128 <= next && next <= 159
}

/// Whether a blank or a control character stands at an offset.
pub fn at_bar(bytes: &[u8], at: usize) -> bool
    requires { at < length bytes.now }
    ensures { result ≡ at_bar (drop at bytes.now) }
{
    let first = bytes[at];
    // Most bytes are told by these two.
    if first > b' ' && first < 127 {
        return false;
    }
    is_blank(first) || begins_control(first, byte_at(bytes, at + 1))
}

/// The `(` of a source that no `)` closes before the next blank or control character. The source is read once a
/// destination met one of them.
#[derive(Drop)]
pub struct Parens {
    /// Their offsets, the last one first; those of places that were passed are taken off.
    pub stops: Vec<usize>,
    pub is_known: bool,
}

impl Parens {
    pub fn new(alloc: Global) -> Parens
        ensures { result.is_known ≡ false }
    {
        Parens {
            stops: Vec::new(alloc),
            is_known: false,
        }
    }

    /// Reads the source if it was not read before.
    pub fn learn(&mut self, source: &[u8]) -> Result<(), AllocError>
        requires { KnowsStops source.now self.old }
        ensures { KnowsStops source.now self.new }
    {
        if self.is_known {
            return Ok(());
        }
        self.stops.clear();
        unclosed(source, &mut self.stops)?;
        self.is_known = true;
        Ok(())
    }

    /// An offset, from this one on, that no destination goes over: the next `(` that is known to stay open, or the end.
    pub fn next_stop(&mut self, source: &[u8], at: usize) -> usize
        requires within { at ≤ length source.now }
        requires known { KnowsStops source.now self.old }
        ensures kept { KnowsStops source.now self.new }
        ensures from { at ≤ result }
        ensures stop { IsStop source.now result }
    {
        if !self.is_known {
            return source.len();
        }
        while let Some(next) = self.stops.as_slice().last().copied() {
            if next >= at {
                return next;
            }
            let _ = self.stops.pop();
        }
        source.len()
    }
}

/// How many `)` are left for the `(` before one more byte; nothing if that is a `(` and none is left.
fn closers_before(closers: usize, b: u8) -> Option<usize>
    requires { closers < usize.MAX }
    ensures { result ≡ closers_before closers b }
{
    match b {
        b'(' if closers == 0 => None,
        b'(' => Some(closers - 1),
        b')' => Some(closers + 1),
        _ => Some(closers),
    }
}

/// Puts down the offsets of the `(` that no `)` closes before the next blank or control character, the last one first.
fn unclosed(source: &[u8], stops: &mut Vec<usize>) -> Result<(), AllocError>
    requires { stops.old.items ≡ [] }
    ensures { OnOk result (All (λ at. IsStop source.now at) stops.new.items) }
{
    let mut closers = 0;
    let mut at = source.len();
    while at > 0 {
        at -= 1;
        if at_bar(source, at) {
            closers = 0;
            continue;
        }
        match closers_before(closers, source[at]) {
            Some(next) => closers = next,
            None => stops.push(at)?,
        }
    }
    Ok(())
}
