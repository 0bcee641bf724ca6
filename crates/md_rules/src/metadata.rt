// Metadata: the lines between two lines of dashes at a document's start.
ghost use Rattle.std.specs.Prelude.{◌≡◌, ◌≤◌, ◌+◌, IfSome, length};
ghost use Rattle.md_rules.specs.Metadata.{before_dashes, has_content, is_dashes, metadata_in};

use crate::quote::is_same;
use crate::texts::trimmed;
use md_lines::Line;

/// Whether the line has indent 0 and nothing but `---`.
fn is_dashes(line: &Line) -> bool
    ensures { result ≡ is_dashes line.now }
{
    line.indent == 0 && is_same(trimmed(line.body).as_bytes(), b"---")
}

/// How many lines stand before the first of dashes.
fn before_dashes(lines: &[Line]) -> usize
    ensures { result ≡ before_dashes lines.now }
{
    lines.iter().take_while(|line| !is_dashes(line)).count()
}

/// Whether the next line is there and not empty, and one of the lines has dashes.
fn has_content(lines: &[Line]) -> bool
    ensures { result ≡ has_content lines.now }
{
    !lines.is_empty() && !lines[0].is_empty() && before_dashes(lines) < lines.len()
}

/// How many lines stand between the dashes, or `None` where the lines of a document do not begin with metadata.
pub fn metadata_in(lines: &[Line]) -> Option<usize>
    ensures value { result ≡ metadata_in lines.now }
    ensures within { IfSome result (λ n. n + 2 ≤ length lines.now) }
{
    let (line, later) = lines.split_first()?;
    if is_dashes(line) && has_content(later) {
        Some(before_dashes(later))
    } else {
        None
    }
}
