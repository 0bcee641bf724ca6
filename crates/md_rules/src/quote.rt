// Quotes and alerts.
ghost use Rattle.std.specs.Prelude.{◌≡◌, IfOk, IsTrue};
ghost use Rattle.md_rules.specs.Quotes.{alert_of, first_alert, is_same, kind_of, less, quoted, quotes, unquoted, without_kind};

use crate::shallow::is_shallow;
use crate::texts::{after_first, begins_with, trimmed};
use md_lines::{Line, line_of};
use md_tree::BlockQuoteKind;
use std::alloc::{AllocError, Global};

/// Whether a quote begins or goes on at the line.
pub fn quotes(line: &Line) -> bool
    ensures { result ≡ quotes line.now }
{
    is_shallow(line) && begins_with(b'>', line.body.as_bytes())
}

/// The line with so many columns taken off.
pub(crate) fn less<'a>(columns: u128, line: &Line<'a>) -> Line<'a>
    ensures { result ≡ less columns line.now }
{
    Line {
        indent: line.indent.saturating_sub(columns),
        body: line.body,
    }
}

/// A line of a quote without its mark.
fn unquoted<'a>(line: &Line<'a>) -> Line<'a>
    requires { IsTrue (quotes line.now) }
    ensures { result ≡ unquoted line.now }
{
    less(1, &line_of(after_first(line.body)))
}

/// The run of a quote's lines in front, without their marks.
#[tactic(auto, unfolding(crate::specs::Quotes::quoted))]
pub fn quoted<'a>(alloc: Global, lines: &[Line<'a>]) -> Result<Vec<Line<'a>>, AllocError>
    ensures { IfOk result (λ v. v.items ≡ quoted lines.now) }
{
    let mut inside = Vec::new(alloc);
    let mut at = 0;
    while at < lines.len() {
        let line = &lines[at];
        if !quotes(line) {
            break;
        }
        inside.push(unquoted(line))?;
        at += 1;
    }
    Ok(inside)
}

/// Whether two texts are the same, ASCII case aside.
pub(crate) fn is_same(text: &[u8], other: &[u8]) -> bool
    ensures { result ≡ is_same text.now other.now }
{
    text.eq_ignore_ascii_case(other)
}

/// The kind of alert that a text names.
fn kind_of(text: &[u8]) -> Option<BlockQuoteKind>
    ensures { result ≡ kind_of text.now }
{
    if is_same(text, b"[!NOTE]") {
        Some(BlockQuoteKind::Note)
    } else if is_same(text, b"[!TIP]") {
        Some(BlockQuoteKind::Tip)
    } else if is_same(text, b"[!IMPORTANT]") {
        Some(BlockQuoteKind::Important)
    } else if is_same(text, b"[!WARNING]") {
        Some(BlockQuoteKind::Warning)
    } else if is_same(text, b"[!CAUTION]") {
        Some(BlockQuoteKind::Caution)
    } else {
        None
    }
}

/// The kind of the alert whose first line, without its mark, this is, or `None` where it names none.
fn alert_of(line: &Line) -> Option<BlockQuoteKind>
    ensures { result ≡ alert_of line.now }
{
    if !is_shallow(line) {
        return None;
    }
    kind_of(trimmed(line.body).as_bytes())
}

/// The kind of alert that the lines of a quote, without their marks, begin with, or `None` where they begin with none.
pub fn first_alert(lines: &[Line]) -> Option<BlockQuoteKind>
    ensures { result ≡ first_alert lines.now }
{
    if lines.is_empty() {
        None
    } else {
        alert_of(&lines[0])
    }
}

/// The lines of a quote without the one that names the kind of an alert.
pub fn without_kind<'b, 'a>(kind: Option<BlockQuoteKind>, lines: &'b [Line<'a>]) -> &'b [Line<'a>]
    ensures { result.now ≡ without_kind kind lines.now }
{
    if kind.is_some() && lines.len() > 0 {
        &lines[1..]
    } else {
        lines
    }
}
