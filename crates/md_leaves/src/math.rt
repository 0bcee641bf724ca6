// Math between dollars.
ghost use Rattle.std.specs.Prelude.{◌≡◌, ◌+◌, ◌<◌, ◌≤◌, length, IfSome};
ghost use Rattle.md_leaves.specs.Math.{display_or_text, inline_or_text, math, pair_before};

use crate::bytes::{Class, byte_at, rest_of, stretch};
use crate::cut::Cut;
use crate::leaf::{Kind, Lone};
use md_lines::is_blank;

/// How many bytes stand before the first `$$`.
#[tactic(auto, unfolding(crate::specs::Math::pair_before))]
fn pair_before(bytes: &[u8]) -> Option<usize>
    ensures value { result ≡ pair_before bytes.now }
    ensures within { IfSome result (λ k. k + 2 ≤ length bytes.now) }
{
    let mut at = 0;
    while at < bytes.len() {
        if bytes[at] == b'$' && byte_at(bytes, at + 1) == b'$' {
            return Some(at);
        }
        at += 1;
    }
    None
}

/// `$$` with what stands up to the end of the next `$$`, or alone.
fn display_or_text(before: Option<usize>) -> Cut
    requires { IfSome before (λ k. k + 3 ≤ usize.MAX) }
    ensures { result ≡ display_or_text before }
{
    match before {
        Some(k) if k > 0 => Cut {
            kind: Kind::Lone(Lone::DisplayMath),
            more: k + 3,
        },
        _ => Cut {
            kind: Kind::Lone(Lone::Text),
            more: 1,
        },
    }
}

/// `$` with what stands behind it, these bytes, up to the next `$`, or alone.
fn inline_or_text(bytes: &[u8]) -> Cut
    ensures value { result ≡ inline_or_text bytes.now }
    ensures within { result.more ≤ length bytes.now }
{
    let n = stretch(bytes, Class::InMath);
    if n > 0
        && byte_at(bytes, n) == b'$'
        && !is_blank(byte_at(bytes, 0))
        && !is_blank(byte_at(bytes, n - 1))
    {
        Cut {
            kind: Kind::Lone(Lone::InlineMath),
            more: n + 1,
        }
    } else {
        Cut {
            kind: Kind::Lone(Lone::Text),
            more: 0,
        }
    }
}

/// The math in front, or its dollars alone.
///
/// A pair of dollars is looked for in vain once at most: behind that place no other stands.
pub fn math(bytes: &[u8]) -> Option<Cut>
    ensures value { result ≡ math bytes.now }
    ensures within { IfSome result (λ cut. cut.more < length bytes.now) }
{
    if byte_at(bytes, 0) != b'$' {
        return None;
    }
    if byte_at(bytes, 1) == b'$' {
        return Some(display_or_text(pair_before(rest_of(bytes, 2))));
    }
    Some(inline_or_text(rest_of(bytes, 1)))
}
