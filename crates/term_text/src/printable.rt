// Texts of printable ASCII, whose bytes are their graphemes.
ghost use Rattle.std.specs.Prelude.{◌≡◌, ◌+◌, ◌≤◌, ◌<◌, ◌^◌, length};
ghost use Rattle.std.specs.List.{list_all};
ghost use Rattle.term_text.specs.Cut.{leading_spaces, mark_after, mark_of};
ghost use Rattle.term_text.specs.Plain.{is_printable};

use memchr::memrchr;

/// Whether each byte is printable ASCII. It looks at all bytes, with no way out between, so that they can be tested in bulk.
pub(crate) fn all_printable(bytes: &[u8]) -> bool
    ensures { result ≡ list_all is_printable bytes.now }
{
    let mut all = true;
    for byte in bytes {
        all = all & is_printable(*byte);
    }
    all
}

fn is_printable(byte: u8) -> bool
    ensures { result ≡ is_printable byte }
{
    (0x20 <= byte) & (byte <= 0x7E)
}

/// How many spaces stand in front.
pub(crate) fn leading_spaces(bytes: &[u8]) -> usize
    ensures value { result ≡ leading_spaces bytes.now }
    ensures within { result ≤ length bytes.now }
{
    let mut at = 0;
    while at < bytes.len() && bytes[at] == b' ' {
        at += 1;
    }
    at
}

/// The last place of a space, at `count` and on, which is not 0; else the mark.
pub(crate) fn mark_after(bytes: &[u8], count: usize, mark: usize) -> usize
    requires { count + length bytes.now ≤ 2 ^ 64 }
    ensures { result ≡ mark_after bytes.now count mark }
{
    match memrchr(b' ', bytes) {
        Some(place) => mark_of(true, count + place, mark),
        None => mark,
    }
}

/// The place of a grapheme as the mark, if it is blank and not the first of the row.
pub(crate) fn mark_of(blank: bool, count: usize, mark: usize) -> usize
    ensures { result ≡ mark_of blank count mark }
{
    if 0 < count && blank { count } else { mark }
}
