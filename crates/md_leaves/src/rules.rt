// The rules of leaves that need no search: escapes, line ends and openers.
ghost use Rattle.std.specs.Prelude.{◌≡◌, ◌<◌, length, IfSome};
ghost use Rattle.md_leaves.specs.Leaves.{break_of, escape, line_end, opener, reference};

use crate::bytes::{Class, byte_at, ends_line, rest_of, stretch};
use crate::cut::Cut;
use crate::leaf::{Kind, Lone};

/// A backslash and ASCII punctuation, or a backslash and a line end.
pub fn escape(bytes: &[u8]) -> Option<Cut>
    ensures value { result ≡ escape bytes.now }
    ensures within { IfSome result (λ cut. cut.more < length bytes.now) }
{
    if byte_at(bytes, 0) != b'\\' {
        return None;
    }
    let next = byte_at(bytes, 1);
    if next.is_ascii_punctuation() {
        Some(Cut {
            kind: Kind::Lone(Lone::Escape),
            more: 1,
        })
    } else if ends_line(next) {
        Some(Cut {
            kind: Kind::Lone(Lone::HardBreak),
            more: 1,
        })
    } else {
        None
    }
}

/// The break at the end of a line with so many blanks there.
fn break_of(blanks: usize) -> Kind
    ensures { result ≡ break_of blanks }
{
    if blanks >= 2 {
        Kind::Lone(Lone::HardBreak)
    } else {
        Kind::Lone(Lone::SoftBreak)
    }
}

/// A line end with the blanks before it.
pub fn line_end(bytes: &[u8]) -> Option<Cut>
    ensures value { result ≡ line_end bytes.now }
    ensures within { IfSome result (λ cut. cut.more < length bytes.now) }
{
    let blanks = stretch(bytes, Class::Blank);
    if ends_line(byte_at(bytes, blanks)) {
        Some(Cut {
            kind: break_of(blanks),
            more: blanks,
        })
    } else {
        None
    }
}

/// `[^label]`.
pub fn reference(bytes: &[u8]) -> Option<Cut>
    ensures value { result ≡ reference bytes.now }
    ensures within { IfSome result (λ cut. cut.more < length bytes.now) }
{
    if byte_at(bytes, 0) != b'[' || byte_at(bytes, 1) != b'^' {
        return None;
    }
    let n = stretch(rest_of(bytes, 2), Class::InLabel);
    if n > 0 && byte_at(bytes, n + 2) == b']' {
        Some(Cut {
            kind: Kind::Lone(Lone::FootnoteReference),
            more: n + 2,
        })
    } else {
        None
    }
}

/// `![` or `[`.
pub fn opener(bytes: &[u8]) -> Option<Cut>
    ensures value { result ≡ opener bytes.now }
    ensures within { IfSome result (λ cut. cut.more < length bytes.now) }
{
    let first = byte_at(bytes, 0);
    if first == b'!' && byte_at(bytes, 1) == b'[' {
        Some(Cut {
            kind: Kind::Opener { is_image: true },
            more: 1,
        })
    } else if first == b'[' {
        Some(Cut {
            kind: Kind::Opener { is_image: false },
            more: 0,
        })
    } else {
        None
    }
}
