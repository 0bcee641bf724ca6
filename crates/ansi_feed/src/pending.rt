// What stands open at the end of a line that is not ended yet.
ghost use Rattle.std.specs.Prelude.{◌≡◌, ◌<◌, ◌≤◌, ◌++◌, length, drop, true, false, IfOk, if◌then◌else◌};
ghost use Rattle.std.specs.Str.{is_utf8};
ghost use Rattle.ansi_text.specs.Ansi.{is_text};
ghost use Rattle.ansi_text.specs.Pieces.{first_escape};
ghost use Rattle.term_text.specs.declared.style.Style.{Style};
ghost use Rattle.ansi_feed.specs.Feed.{lines_from};
ghost use Rattle.ansi_feed.specs.Pending.{PassesBytes, pending_text};

use memchr::memchr;
use std::alloc::{AllocError, Global};
use term_text::next_line_of_bytes;

/// What stands open behind bytes of a line, which is all that tells whether the line is text as it goes on.
#[derive(Clone, Copy)]
pub(crate) enum Pending {
    /// A stretch whose characters so far are whole, or none.
    Stretch,
    /// An escape byte.
    Escape,
    /// What is dropped behind `[` up to a letter; a sequence ends there too.
    Bracket,
    /// What is dropped behind `]` up to BEL.
    Title,
    /// A stretch that is not UTF-8, whatever follows.
    Lost,
}

/// What stands open behind so many bytes.
#[derive(Clone, Copy)]
pub(crate) struct Place {
    pub(crate) pending: Pending,
    pub(crate) count: usize,
}

impl Place {
    /// No byte, and an empty stretch behind it.
    pub(crate) fn start() -> Place
        ensures { result ≡ record { pending = Pending.Stretch; count = 0 } }
    {
        Place {
            pending: Pending::Stretch,
            count: 0,
        }
    }
}

/// How many bytes stand before the first escape byte.
fn first_escape(bytes: &[u8]) -> usize
    ensures value { result ≡ first_escape bytes.now }
    ensures within { result ≤ length bytes.now }
{
    match memchr(27, bytes) {
        Some(place) => place,
        None => bytes.len(),
    }
}

/// Whether the bytes are UTF-8.
fn is_utf8(bytes: &[u8]) -> bool
    ensures { result ≡ is_utf8 bytes.now }
{
    match std::str::from_utf8(bytes) {
        Ok(_) => true,
        Err(_) => false,
    }
}

/// Passes the whole characters of a stretch that no escape byte ends.
///
/// Where four bytes at its end are no whole character, nor begin with one, nothing that follows makes it text.
fn pass_open_stretch(bytes: &[u8]) -> Place
    requires { first_escape bytes.now ≡ length bytes.now }
    ensures passes { PassesBytes Pending.Stretch bytes.now result }
    ensures left { result.count < length bytes.now → pending_text result.pending (drop result.count bytes.now) ≡ false }
{
    match std::str::from_utf8(bytes) {
        Ok(_) => Place {
            pending: Pending::Stretch,
            count: bytes.len(),
        },
        Err(error) => {
            let whole = error.valid_up_to();
            if bytes.len() - whole >= 4 {
                Place {
                    pending: Pending::Lost,
                    count: bytes.len(),
                }
            } else {
                Place {
                    pending: Pending::Stretch,
                    count: whole,
                }
            }
        }
    }
}

/// Passes a stretch and the escape byte behind it, or the whole characters of one that none ends.
fn pass_stretch(bytes: &[u8]) -> Place
    ensures passes { PassesBytes Pending.Stretch bytes.now result }
    ensures left { result.count ≡ 0 → 0 < length bytes.now → pending_text result.pending bytes.now ≡ false }
{
    let end = first_escape(bytes);
    if end == bytes.len() {
        return pass_open_stretch(bytes);
    }
    let pending = if is_utf8(&bytes[..end]) {
        Pending::Escape
    } else {
        Pending::Lost
    };
    Place {
        pending,
        count: end + 1,
    }
}

/// Passes what an escape byte drops behind it, or what follows where it drops nothing.
fn pass_escape(bytes: &[u8]) -> Place
    requires { 0 < length bytes.now }
    ensures passes { PassesBytes Pending.Escape bytes.now result }
    ensures left { result.count ≡ 0 → pending_text result.pending bytes.now ≡ false }
{
    let pending = match bytes[0] {
        b'[' => Pending::Bracket,
        b']' => Pending::Title,
        _ => return pass_stretch(bytes),
    };
    Place { pending, count: 1 }
}

/// What stands open behind a byte that `[` or `]` drops, which the last such byte closes.
fn dropped(pending: Pending, is_last: bool) -> Place
    ensures { result ≡ record { pending = if is_last then Pending.Stretch else pending; count = 1 } }
{
    let pending = if is_last { Pending::Stretch } else { pending };
    Place { pending, count: 1 }
}

/// Passes some bytes behind what stands open; none where they are a part of a character.
fn pass_some(pending: Pending, bytes: &[u8]) -> Place
    requires { 0 < length bytes.now }
    ensures passes { PassesBytes pending bytes.now result }
    ensures left { result.count ≡ 0 → pending_text result.pending bytes.now ≡ false }
{
    match pending {
        Pending::Stretch => pass_stretch(bytes),
        Pending::Escape => pass_escape(bytes),
        Pending::Bracket => dropped(pending, bytes[0].is_ascii_alphabetic()),
        Pending::Title => dropped(pending, bytes[0] == 7),
        Pending::Lost => Place {
            pending,
            count: bytes.len(),
        },
    }
}

/// Passes the bytes behind what stands open, all but a part of a character at their end.
pub(crate) fn pass(pending: Pending, bytes: &[u8]) -> Place
    ensures passes { PassesBytes pending bytes.now result }
    ensures left { result.count < length bytes.now → pending_text result.pending (drop result.count bytes.now) ≡ false }
{
    let mut place = Place { pending, count: 0 };
    'bytes: while place.count < bytes.len() {
        let next = pass_some(place.pending, &bytes[place.count..]);
        let count = place.count + next.count;
        place = Place {
            pending: next.pending,
            count,
        };
        if next.count == 0 {
            return place;
        }
    }
    place
}

/// Whether a line is text that ends with the bytes behind what stands open.
pub(crate) fn is_open_text(pending: Pending, bytes: &[u8]) -> bool
    ensures { result ≡ pending_text pending bytes.now }
{
    let place = pass(pending, bytes);
    match place.pending {
        Pending::Lost => false,
        _ => place.count == bytes.len(),
    }
}

/// Whether a line is text that ends with bytes behind those that are left behind what stands open.
pub(crate) fn is_text_behind(
    alloc: Global,
    pending: Pending,
    left: &[u8],
    bytes: &[u8],
) -> Result<bool, AllocError>
    ensures { IfOk result (λ v. v ≡ pending_text pending (left.now ++ bytes.now)) }
{
    if left.is_empty() {
        return Ok(is_open_text(pending, bytes));
    }
    let mut line = Vec::from_slice(alloc, left)?;
    line.extend_from_slice(bytes)?;
    Ok(is_open_text(pending, line.as_slice()))
}

/// Whether all lines of the bytes are text.
pub(crate) fn are_text(bytes: &[u8]) -> bool
    ensures { (style : Style) → is_text (lines_from style bytes.now) ≡ result }
{
    let mut rest = bytes;
    while !rest.is_empty() {
        let (line, after) = next_line_of_bytes(rest);
        if !is_open_text(Pending::Stretch, line) {
            return false;
        }
        rest = after;
    }
    true
}
