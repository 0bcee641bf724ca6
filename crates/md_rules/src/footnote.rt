// Footnote definitions.
ghost use Rattle.std.specs.Prelude.{◌≡◌, ◌≤◌, Some, IfOk, length};
ghost use Rattle.md_rules.specs.Footnotes.{closed_label, closes_label, ends_label, footnote_label, footnote_line, footnote_lines, label_in, label_length, opens_label};

use crate::hung::hung;
use crate::shallow::is_shallow;
use crate::texts::begins_with;
use md_lines::{Line, is_blank, line_of};
use std::alloc::{AllocError, Global};
use term_text::CowStr;

/// Whether `[^` stands in front.
fn opens_label(bytes: &[u8]) -> bool
    ensures { result ≡ opens_label bytes.now }
{
    !bytes.is_empty() && bytes[0] == b'[' && begins_with(b'^', &bytes[1..])
}

/// Whether `]:` stands in front.
fn closes_label(bytes: &[u8]) -> bool
    ensures { result ≡ closes_label bytes.now }
{
    !bytes.is_empty() && bytes[0] == b']' && begins_with(b':', &bytes[1..])
}

/// Whether the byte, a bracket or a blank, is of no label.
fn ends_label(b: u8) -> bool
    ensures { result ≡ ends_label b }
{
    b == b'[' || b == b']' || is_blank(b)
}

/// How many bytes the label has that stands in front.
fn label_length(bytes: &[u8]) -> usize
    ensures value { result ≡ label_length bytes.now }
    ensures within { result ≤ length bytes.now }
{
    bytes.iter().take_while(|b| !ends_label(**b)).count()
}

/// The label in front, if it has a character and `]:` stands behind it.
fn closed_label<'a>(text: &'a str) -> Option<CowStr<'a>>
    ensures { result ≡ closed_label text.now }
{
    let bytes = text.as_bytes();
    let length = label_length(bytes);
    if length > 0 && closes_label(&bytes[length..]) {
        Some(CowStr::borrowed(&text[..length]))
    } else {
        None
    }
}

/// The label between `[^` and `]:`.
fn label_in<'a>(body: &'a str) -> Option<CowStr<'a>>
    ensures { result ≡ label_in body.now }
{
    if opens_label(body.as_bytes()) {
        closed_label(&body[2..])
    } else {
        None
    }
}

/// The label of the footnote definition that begins at the line, or `None` where none does.
pub fn footnote_label<'a>(line: &Line<'a>) -> Option<CowStr<'a>>
    ensures { result ≡ footnote_label line.now }
{
    if !is_shallow(line) {
        return None;
    }
    label_in(line.body)
}

/// What stands behind the colon of the definition of this label, without its indent.
fn footnote_line<'a>(label: &CowStr<'a>, line: &Line<'a>) -> Line<'a>
    requires { footnote_label line.now ≡ Some label.now }
    ensures { result ≡ footnote_line label.now line.now }
{
    let rest = line_of(&line.body[label.as_str().len() + 4..]);
    Line {
        indent: 0,
        body: rest.body,
    }
}

/// The lines of the definition of this label, which begins at the line and has these further lines.
pub fn footnote_lines<'a>(
    alloc: Global,
    label: &CowStr<'a>,
    line: &Line<'a>,
    own: &[Line<'a>],
) -> Result<Vec<Line<'a>>, AllocError>
    requires { footnote_label line.now ≡ Some label.now }
    ensures { IfOk result (λ v. v.items ≡ footnote_lines label.now line.now own.now) }
{
    hung(alloc, 4, footnote_line(label, line), own)
}
