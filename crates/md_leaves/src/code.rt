// Code between backticks.
ghost use Rattle.std.specs.Prelude.{◌≡◌, ◌+◌, ◌<◌, ◌≤◌, drop, false, length, IfOk, IfSome};
ghost use Rattle.std.specs.List.{slice_index};
ghost use Rattle.md_leaves.specs.Ahead.{IsLastEnd, KnowsRuns};
ghost use Rattle.md_leaves.specs.Code.{code, code_or_text, is_tick, run_end};

use crate::bytes::{Class, rest_of, stretch};
use crate::cut::Cut;
use crate::leaf::{Kind, Lone};
use crate::ticks::TickRuns;
use std::alloc::AllocError;

/// How many bytes stand before the end of the first maximal run of so many backticks.
#[tactic(auto, unfolding(crate::specs::Code::run_end))]
fn run_end(bytes: &[u8], n: usize) -> Option<usize>
    ensures value { result ≡ run_end n 0 bytes.now }
    ensures within { IfSome result (λ k. k ≤ length bytes.now) }
{
    let mut before = 0;
    let mut at = 0;
    while at < bytes.len() {
        if bytes[at] == b'`' {
            before += 1;
        } else if before == n {
            return Some(at);
        } else {
            before = 0;
        }
        at += 1;
    }
    if before == n { Some(at) } else { None }
}

/// How many bytes stand before the end of the next run of so many backticks, where no such run ends behind `last`.
fn next_end(source: &[u8], at: usize, n: usize, last: usize) -> Option<usize>
    requires within { at ≤ length source.now }
    requires last { IsLastEnd source.now n last }
    requires behind { is_tick (slice_index source.now at) ≡ false }
    ensures value { result ≡ run_end n 0 (drop at source.now) }
    ensures within { IfSome result (λ k. at + k ≤ length source.now) }
{
    if last > at {
        run_end(rest_of(source, at), n)
    } else {
        None
    }
}

/// A run of so many backticks with what stands up to the end of the next one, or alone.
fn code_or_text(n: usize, end: Option<usize>) -> Cut
    requires some { 0 < n }
    requires room { IfSome end (λ k. n + k ≤ usize.MAX) }
    ensures { result ≡ code_or_text n end }
{
    match end {
        Some(k) => Cut {
            kind: Kind::Lone(Lone::Code { ticks: n }),
            more: n - 1 + k,
        },
        None => Cut {
            kind: Kind::Lone(Lone::Text),
            more: n - 1,
        },
    }
}

/// The code at a place, or the backticks alone if no such run follows.
pub fn code(source: &[u8], at: usize, runs: &mut TickRuns) -> Result<Option<Cut>, AllocError>
    requires within { at ≤ length source.now }
    requires known { KnowsRuns source.now runs.old }
    ensures kept { KnowsRuns source.now runs.new }
    ensures value { IfOk result (λ cut. cut ≡ code (drop at source.now)) }
    ensures within { IfOk result (λ found. IfSome found (λ cut. at + cut.more < length source.now)) }
{
    let n = stretch(rest_of(source, at), Class::Byte { of: b'`' });
    if n == 0 {
        return Ok(None);
    }
    let last = runs.last_end(source, n);
    let end = next_end(source, at + n, n, last);
    if end.is_none() {
        // No run is looked for in vain twice.
        runs.learn(source)?;
    }
    Ok(Some(code_or_text(n, end)))
}
