// Closers: `]`, with a destination if one follows.
ghost use Rattle.std.specs.Prelude.{◌≡◌, ◌+◌, ◌≤◌, ◌<◌, drop, length, unwrap_or, IfOk, IfSome, IsTrue};
ghost use Rattle.std.specs.List.{slice_index};
ghost use Rattle.md_leaves.specs.Ahead.{IsStop, KnowsStops};
ghost use Rattle.md_leaves.specs.Closers.{angled, closer, closer_to, closer_with, closing, destination, ending, is_quote, level_after, plain_length, then_closing, title};

use crate::bytes::{Class, byte_at, rest_of, stretch};
use crate::cut::Cut;
use crate::leaf::{Kind, Target};
use crate::parens::{Parens, at_bar};
use std::alloc::AllocError;

/// A destination in front of bytes: its place, and how many bytes its form has in all.
#[derive(Clone, Copy)]
pub struct Form {
    pub from: usize,
    pub to: usize,
    pub all: usize,
}

/// How many parentheses are open after one more byte; nothing if it closes one that was not opened.
fn level_after(level: usize, b: u8) -> Option<usize>
    requires { level < usize.MAX }
    ensures { result ≡ level_after level b }
{
    match b {
        b'(' => Some(level + 1),
        b')' if level == 0 => None,
        b')' => Some(level - 1),
        _ => Some(level),
    }
}

/// How long the longest front without blanks and control characters is whose parentheses are balanced; none goes over
/// `stop`.
fn plain_length(bytes: &[u8], stop: usize) -> usize
    requires { IsStop bytes.now stop }
    ensures value { result ≡ plain_length bytes.now }
    ensures within { result ≤ length bytes.now }
{
    let mut level = 0;
    let mut end = 0;
    let mut at = 0;
    while at < bytes.len() && at != stop && !at_bar(bytes, at) {
        match level_after(level, bytes[at]) {
            Some(next) => level = next,
            None => break,
        }
        at += 1;
        if level == 0 {
            end = at;
        }
    }
    end
}

/// A destination in angle brackets.
pub fn angled(bytes: &[u8]) -> Option<Form>
    ensures value { result ≡ angled bytes.now }
    ensures order { IfSome result (λ form. (form.from ≤ form.to) × (form.to ≤ form.all)) }
    ensures within { IfSome result (λ form. form.all ≤ length bytes.now) }
{
    if byte_at(bytes, 0) != b'<' {
        return None;
    }
    let n = stretch(rest_of(bytes, 1), Class::InAngles);
    if byte_at(bytes, n + 1) == b'>' {
        Some(Form {
            from: 1,
            to: n + 1,
            all: n + 2,
        })
    } else {
        None
    }
}

/// The destination at a place: in angle brackets, or else as far as its parentheses are balanced.
fn destination(source: &[u8], at: usize, parens: &mut Parens) -> Result<Form, AllocError>
    requires within { at ≤ length source.now }
    requires known { KnowsStops source.now parens.old }
    ensures kept { KnowsStops source.now parens.new }
    ensures value { IfOk result (λ form. form ≡ destination (drop at source.now)) }
    ensures order { IfOk result (λ form. (form.from ≤ form.to) × (form.to ≤ form.all)) }
    ensures within { IfOk result (λ form. at + form.all ≤ length source.now) }
{
    let bytes = rest_of(source, at);
    if let Some(form) = angled(bytes) {
        return Ok(form);
    }
    let stop = parens.next_stop(source, at);
    let n = plain_length(bytes, stop - at);
    if byte_at(bytes, n) == b'(' {
        // It stays open: no other such one is gone over twice.
        parens.learn(source)?;
    }
    Ok(Form {
        from: 0,
        to: n,
        all: n,
    })
}

/// How many bytes blanks and then `)` are.
fn closing(bytes: &[u8]) -> Option<usize>
    ensures value { result ≡ closing bytes.now }
    ensures within { IfSome result (λ n. n ≤ length bytes.now) }
{
    let n = stretch(bytes, Class::Blank);
    if byte_at(bytes, n) == b')' {
        Some(n + 1)
    } else {
        None
    }
}

/// Whether a byte is a double or a single quote.
fn is_quote(b: u8) -> bool
    ensures { result ≡ is_quote b }
{
    b == b'"' || b == b'\''
}

/// How many bytes a title in front is, which begins with its quote.
fn title(bytes: &[u8]) -> Option<usize>
    requires { IsTrue (is_quote (slice_index bytes.now 0)) }
    ensures value { result ≡ title bytes.now }
    ensures within { IfSome result (λ n. n ≤ length bytes.now) }
{
    let quote = byte_at(bytes, 0);
    let n = stretch(rest_of(bytes, 1), Class::InTitle { quote });
    if byte_at(bytes, n + 1) == quote {
        Some(n + 2)
    } else {
        None
    }
}

/// How many bytes a title in front is, with the blanks and `)` behind it.
fn title_then_closing(bytes: &[u8]) -> Option<usize>
    requires { IsTrue (is_quote (slice_index bytes.now 0)) }
    ensures value { result ≡ then_closing (title bytes.now) bytes.now }
    ensures within { IfSome result (λ n. n ≤ length bytes.now) }
{
    match title(bytes) {
        Some(n) => match closing(rest_of(bytes, n)) {
            Some(k) => Some(n + k),
            None => None,
        },
        None => None,
    }
}

/// How many bytes stand behind a destination: maybe a title with a blank before it, then blanks and `)`.
fn ending(bytes: &[u8]) -> Option<usize>
    ensures value { result ≡ ending bytes.now }
    ensures within { IfSome result (λ n. n ≤ length bytes.now) }
{
    let n = stretch(bytes, Class::Blank);
    if n > 0 && is_quote(byte_at(bytes, n)) {
        match title_then_closing(rest_of(bytes, n)) {
            Some(k) => Some(n + k),
            None => None,
        }
    } else {
        closing(bytes)
    }
}

/// A closer with so many bytes between `]` and a destination, if its end was found.
fn closer_to(at: usize, before: usize, form: Form, end: Option<usize>) -> Cut
    requires order { (form.from ≤ form.to) × (form.to ≤ form.all) }
    requires room { at + 1 + before + form.all + unwrap_or end 0 ≤ usize.MAX }
    ensures { result ≡ closer_to at before form end }
{
    match end {
        Some(n) => {
            let start = at + 1 + before;
            let target = Target {
                from: start + form.from,
                to: start + form.to,
            };
            Cut {
                kind: Kind::Closer {
                    target: Some(target),
                },
                more: before + form.all + n,
            }
        }
        None => Cut {
            kind: Kind::Closer { target: None },
            more: 0,
        },
    }
}

/// The closer at a place with so many bytes between `]` and a destination.
fn closer_with(
    source: &[u8],
    at: usize,
    before: usize,
    parens: &mut Parens,
) -> Result<Cut, AllocError>
    requires within { at + 1 + before ≤ length source.now }
    requires known { KnowsStops source.now parens.old }
    ensures kept { KnowsStops source.now parens.new }
    ensures value { IfOk result (λ cut. cut ≡ closer_with at before (drop (at + 1 + before) source.now)) }
    ensures within { IfOk result (λ cut. at + cut.more < length source.now) }
{
    let start = at + 1 + before;
    let form = destination(source, start, parens)?;
    let end = ending(rest_of(source, start + form.all));
    Ok(closer_to(at, before, form, end))
}

/// The closer at a place: `]`, with what belongs to its destination if one follows.
pub fn closer(source: &[u8], at: usize, parens: &mut Parens) -> Result<Option<Cut>, AllocError>
    requires within { at ≤ length source.now }
    requires known { KnowsStops source.now parens.old }
    ensures kept { KnowsStops source.now parens.new }
    ensures value { IfOk result (λ cut. cut ≡ closer at (drop at source.now)) }
    ensures within { IfOk result (λ found. IfSome found (λ cut. at + cut.more < length source.now)) }
{
    let bytes = rest_of(source, at);
    if byte_at(bytes, 0) != b']' {
        return Ok(None);
    }
    if byte_at(bytes, 1) != b'(' {
        return Ok(Some(Cut {
            kind: Kind::Closer { target: None },
            more: 0,
        }));
    }
    let before = 1 + stretch(rest_of(bytes, 2), Class::Blank);
    Ok(Some(closer_with(source, at, before, parens)?))
}
