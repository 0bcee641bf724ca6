// The markers of items.
ghost use Rattle.std.specs.Prelude.{◌≡◌, ◌-◌, ◌++◌, IfOk, codes, length, string_bytes, replicate};
ghost use Rattle.std.specs.Fmt.{decimal};
ghost use Rattle.md_text.specs.Markers.{marker_text, marker, marker_width, number_after};

use md_table::StyleSheet;
use std::alloc::{AllocError, Global};
use term_text::{CowStr, Span};

/// The marker of an item in a list at this depth, with this number if it has one.
pub fn marker<S: StyleSheet>(
    alloc: Global,
    sheet: &S,
    depth: usize,
    number: Option<u64>,
) -> Result<Span<'static>, AllocError>
    ensures { IfOk result (λ span. span ≡ marker (S.sheet sheet.now) depth number) }
{
    let text = CowStr::owned(marker_text(alloc, depth, number)?);
    match number {
        None => Ok(Span::raw(text)),
        Some(_) => Ok(Span::styled(text, sheet.list_marker())),
    }
}

/// The number of columns of that marker.
pub fn marker_width(alloc: Global, depth: usize, number: Option<u64>) -> Result<usize, AllocError>
    ensures { IfOk result (λ width. width ≡ marker_width depth number) }
{
    let text = marker_text(alloc, depth, number)?;
    Ok(text.len())
}

/// The number of the next item.
pub fn number_after(number: Option<u64>) -> Option<u64>
    ensures { result ≡ number_after number }
{
    match number {
        None => None,
        Some(number) => Some(number.saturating_add(1)),
    }
}

fn marker_text(alloc: Global, depth: usize, number: Option<u64>) -> Result<String, AllocError>
    ensures { IfOk result (λ text. string_bytes text ≡ marker_text depth number) }
{
    let Some(columns) = depth.checked_mul(4) else {
        return Err(AllocError);
    };
    match number {
        None => {
            let mut text = blanks(alloc, columns.saturating_sub(4))?;
            text.push_str("- ")?;
            Ok(text)
        }
        Some(number) => numbered(alloc, columns.saturating_sub(3), number),
    }
}

/// The number right-aligned in so many columns, and a dot and a blank.
fn numbered(alloc: Global, columns: usize, number: u64) -> Result<String, AllocError>
    ensures { IfOk result (λ text. string_bytes text
        ≡ replicate (columns - length (decimal number)) 32 ++ (decimal number ++ codes ". ")) }
{
    let digits = format!(in alloc; "{number}")?;
    let mut text = blanks(alloc, columns.saturating_sub(digits.len()))?;
    text.push_str(digits.as_str())?;
    text.push_str(". ")?;
    Ok(text)
}

/// So many blanks.
pub fn blanks(alloc: Global, count: usize) -> Result<String, AllocError>
    ensures { IfOk result (λ text. string_bytes text ≡ replicate count 32) }
{
    let mut text = String::new(alloc);
    for _ in 0..count {
        text.push_str(" ")?;
    }
    Ok(text)
}
