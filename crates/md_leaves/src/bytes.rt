// Bytes in front of others.
ghost use Rattle.std.specs.Prelude.{◌≡◌, ◌≤◌, ◌<◌, drop, length};
ghost use Rattle.std.specs.List.{prefix_len, slice_index};
ghost use Rattle.term_text.specs.LineEnds.{ends_line};
ghost use Rattle.md_leaves.specs.Angles.{is_name_byte};
ghost use Rattle.md_leaves.specs.Bytes.{holds};
ghost use Rattle.md_leaves.specs.Closers.{is_in_angles, is_in_title};
ghost use Rattle.md_leaves.specs.Leaves.{is_in_label};
ghost use Rattle.md_leaves.specs.Math.{is_in_math};
ghost use Rattle.md_leaves.specs.Steps.{is_letter};

use md_lines::is_blank;

/// Bytes that may follow one another in a part of a leaf.
#[derive(Clone, Copy)]
pub enum Class {
    Blank,
    /// One byte again and again.
    Byte { of: u8 },
    InAngles,
    InTitle { quote: u8 },
    /// Between two dollars.
    InMath,
    /// In the name of a tag.
    InName,
    /// In the label of a footnote.
    InLabel,
    /// A letter or another byte that is text wherever it stands.
    Letter,
}

impl Class {
    fn holds(self, b: u8) -> bool
        ensures { result ≡ holds self b }
    {
        match self {
            Class::Blank => is_blank(b),
            Class::Byte { of } => b == of,
            Class::InAngles => is_in_angles(b),
            Class::InTitle { quote } => is_in_title(quote, b),
            Class::InMath => is_in_math(b),
            Class::InName => is_name_byte(b),
            Class::InLabel => is_in_label(b),
            Class::Letter => is_letter(b),
        }
    }
}

fn is_letter(b: u8) -> bool
    ensures { result ≡ is_letter b }
{
    b > b'`' && b != b'~'
}

fn is_in_angles(b: u8) -> bool
    ensures { result ≡ is_in_angles b }
{
    !(b == b'<' || b == b'>' || ends_line(b))
}

fn is_in_title(quote: u8, b: u8) -> bool
    ensures { result ≡ is_in_title quote b }
{
    !(b == quote || ends_line(b))
}

fn is_in_math(b: u8) -> bool
    ensures { result ≡ is_in_math b }
{
    !(b == b'$' || ends_line(b))
}

fn is_name_byte(b: u8) -> bool
    ensures { result ≡ is_name_byte b }
{
    b.is_ascii_alphanumeric() || b == b'-'
}

fn is_in_label(b: u8) -> bool
    ensures { result ≡ is_in_label b }
{
    !(b == b'[' || b == b']' || is_blank(b) || ends_line(b))
}

/// Whether a byte is LF or CR.
pub fn ends_line(b: u8) -> bool
    ensures { result ≡ ends_line b }
{
    b == b'\n' || b == b'\r'
}

/// The byte at an offset; 0 past the end.
pub fn byte_at(bytes: &[u8], at: usize) -> u8
    ensures { result ≡ slice_index bytes.now at }
{
    if at < bytes.len() { bytes[at] } else { 0 }
}

/// The bytes from an offset on.
pub fn rest_of(bytes: &[u8], at: usize) -> &[u8]
    requires { at ≤ length bytes.now }
    ensures { result.now ≡ drop at bytes.now }
{
    &bytes[at..]
}

/// How many bytes of a class stand in front.
pub fn stretch(bytes: &[u8], class: Class) -> usize
    ensures value { result ≡ prefix_len (λ b. holds class b) bytes.now }
    ensures within { result ≤ length bytes.now }
{
    let mut at = 0;
    while at < bytes.len() && class.holds(bytes[at]) {
        at += 1;
    }
    at
}
