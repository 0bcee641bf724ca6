// Texts cut into lines at LF, CRLF and CR.
ghost use Rattle.std.specs.Prelude.{◌≡◌, ◌≢◌, ◌+◌, ◌≤◌, ◌<◌, ◌∷◌, length};
ghost use Rattle.std.specs.Str.{IsCharBoundary};
ghost use Rattle.term_text.specs.LineEnds.{AtEnd, after_end, end_length, first_end, raw_lines};

use memchr::memchr2;

/// How many bytes stand before the first line end, LF or CR, or before the end of the text.
pub fn first_end(bytes: &[u8]) -> usize
    ensures value { result ≡ first_end bytes.now }
    ensures within { result ≤ length bytes.now }
{
    match memchr2(b'\n', b'\r', bytes) {
        Some(place) => place,
        None => bytes.len(),
    }
}

/// How many bytes the line end has that stands in front: two for CRLF, one for LF or CR, and none where nothing is left.
pub fn end_length(rest: &[u8]) -> usize
    requires { AtEnd rest.now }
    ensures value { result ≡ end_length rest.now }
    ensures within { result ≤ length rest.now }
{
    if rest.len() < 2 {
        rest.len()
    } else if rest[0] == b'\r' && rest[1] == b'\n' {
        2
    } else {
        1
    }
}

/// The first line of the bytes, and what stands after its end. An end that closes the bytes leaves nothing.
pub fn next_line_of_bytes<'a>(bytes: &'a [u8]) -> (&'a [u8], &'a [u8])
    requires { 0 < length bytes.now }
    ensures lines { raw_lines bytes.now ≡ result.0.now ∷ raw_lines result.1.now }
    ensures shorter { length result.1.now < length bytes.now }
{
    let end = first_end(bytes);
    let line = &bytes[..end];
    let rest = &bytes[end..];
    (line, &rest[end_length(rest)..])
}

/// The first line of the text, and what stands after its end. An end that closes the text leaves nothing.
pub fn next_line<'a>(text: &'a str) -> (&'a str, &'a str)
    requires { 0 < length text.now }
    ensures lines { raw_lines text.now ≡ result.0.now ∷ raw_lines result.1.now }
    ensures shorter { length result.1.now < length text.now }
{
    let end = text_end(text);
    let line = &text[..end];
    let rest = &text[end..];
    (line, after_end(rest))
}

/// How many bytes of the text stand before its first line end, where it may be cut.
fn text_end(text: &str) -> usize
    ensures value { result ≡ first_end text.now }
    ensures boundary { IsCharBoundary text.now result }
{
    first_end(text.as_bytes())
}

/// The text after the line end that it begins with.
fn after_end<'a>(rest: &'a str) -> &'a str
    requires { AtEnd rest.now }
    ensures { result.now ≡ after_end rest.now }
{
    &rest[end_length(rest.as_bytes())..]
}
