// Runs of one of `* _ ~ ^`, and their neighbours.
ghost use Rattle.std.specs.Prelude.{◌≡◌, ◌+◌, ◌<◌, drop, length, IfSome};
ghost use Rattle.md_leaves.specs.Runs.{char_after, char_before, is_free, is_gap, is_word, mark_of, run, run_between};

use crate::bytes::{Class, rest_of, stretch};
use crate::cut::Cut;
use crate::leaf::{Kind, Mark};

fn mark_of(b: u8) -> Option<Mark>
    ensures { result ≡ mark_of b }
{
    match b {
        b'*' => Some(Mark::Star),
        b'_' => Some(Mark::Underscore),
        b'~' => Some(Mark::Tilde),
        b'^' => Some(Mark::Caret),
        _ => None,
    }
}

/// The first character; a line end where there is none.
fn char_after(text: &str) -> char
    ensures { result ≡ char_after text.now }
{
    match text.chars().next() {
        Some(c) => c,
        None => '\n',
    }
}

/// The last character; a line end where there is none.
fn char_before(text: &str) -> char
    ensures { result ≡ char_before text.now }
{
    match text.chars().next_back() {
        Some(c) => c,
        None => '\n',
    }
}

/// Whether a character is a blank, as a line's start and its end count.
fn is_gap(c: char) -> bool
    ensures { result ≡ is_gap c }
{
    c == ' ' || c == '\t' || c == '\n' || c == '\r'
}

/// Whether a character is an ASCII letter or digit, or past ASCII and no whitespace.
fn is_word(c: char) -> bool
    ensures { result ≡ is_word c }
{
    c.is_ascii_alphanumeric() || !c.is_ascii() && !c.is_whitespace()
}

/// Whether a run may pair with this character beyond it: beyond `_` no word character may stand.
fn is_free(mark: Mark, beyond: char) -> bool
    ensures { result ≡ is_free mark beyond }
{
    match mark {
        Mark::Underscore => !is_word(beyond),
        _ => true,
    }
}

/// A run of so many marks between two characters.
fn run_between(mark: Mark, n: usize, before: char, after: char) -> Cut
    requires { 0 < n }
    ensures { result ≡ run_between mark n before after }
{
    let opens = !is_gap(after) && is_free(mark, before);
    let closes = !is_gap(before) && is_free(mark, after);
    Cut {
        kind: Kind::Run {
            mark,
            opens,
            closes,
        },
        more: n - 1,
    }
}

/// The maximal run at a place.
pub fn run(source: &str, at: usize) -> Option<Cut>
    requires { at < length source.now }
    ensures value { result ≡ run source.now at (drop at source.now) }
    ensures within { IfSome result (λ cut. at + cut.more < length source.now) }
{
    let bytes = source.as_bytes();
    let first = bytes[at];
    match mark_of(first) {
        Some(mark) => {
            let n = stretch(rest_of(bytes, at), Class::Byte { of: first });
            let before = char_before(&source[..at]);
            let after = char_after(&source[at + n..]);
            Some(run_between(mark, n, before, after))
        }
        None => None,
    }
}
