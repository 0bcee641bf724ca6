// Thematic breaks: lines across the page.
ghost use Rattle.std.specs.Prelude.{◌≡◌, ◌==◌, ◌||◌, count_by};
ghost use Rattle.std.specs.List.{list_all};
ghost use Rattle.md_lines.specs.Blanks.{is_blank};
ghost use Rattle.md_rules.specs.ThematicBreaks.{is_thematic_break, is_thematic_break_of};

use crate::shallow::is_shallow;
use md_lines::{Line, is_blank};

/// Whether the body is at least three of this mark, with any blanks between and after.
fn is_thematic_break_of(mark: u8, body: &[u8]) -> bool
    ensures { result ≡ is_thematic_break_of mark body.now }
{
    are_marks(mark, body) && marks(mark, body) >= 3
}

fn are_marks(mark: u8, body: &[u8]) -> bool
    ensures { result ≡ list_all (λ b. b == mark || is_blank b) body.now }
{
    body.iter().all(|b| *b == mark || is_blank(*b))
}

fn marks(mark: u8, body: &[u8]) -> usize
    ensures { result ≡ count_by (λ b. b == mark) body.now }
{
    body.iter().filter(|b| **b == mark).count()
}

/// Whether the line is a thematic break of `-`, `*` or `_`.
pub fn is_thematic_break(line: &Line) -> bool
    ensures { result ≡ is_thematic_break line.now }
{
    let body = line.body.as_bytes();
    is_shallow(line)
        && (is_thematic_break_of(b'-', body)
            || is_thematic_break_of(b'*', body)
            || is_thematic_break_of(b'_', body))
}
