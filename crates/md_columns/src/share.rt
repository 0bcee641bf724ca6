// The widths of columns that share a budget.
ghost use Rattle.std.specs.Prelude.{◌≡◌, ◌-◌, ◌<◌, ◌≤◌, IfOk, map};
ghost use Rattle.md_columns.specs.declared.bounds.Choice.TheVariants.{Least, Most, At};
ghost use Rattle.md_columns.specs.Fair.{fair, grown, left_over, level, total, widest, width_of};

use crate::bounds::{Bounds, Choice};
use std::alloc::{AllocError, Global};

/// The widths of columns that share a budget of so many columns of cells.
///
/// They are all that the columns need if that fits, the least if nothing more fits, and else those at the greatest
/// level that fits, where what is left goes to the first columns that would be wider at the next level.
pub fn fair(alloc: Global, budget: usize, columns: &[Bounds]) -> Result<Vec<usize>, AllocError>
    ensures { IfOk result (λ widths. widths.items ≡ fair budget columns.now) }
{
    if left_over(Choice::Most, budget, columns).is_some() {
        return chosen(alloc, Choice::Most, columns);
    }
    match left_over(Choice::Least, budget, columns) {
        None | Some(0) => chosen(alloc, Choice::Least, columns),
        Some(_) => leveled(alloc, budget, columns),
    }
}

/// What is left of the budget behind the widths that are chosen, if it suffices.
fn left_over(choice: Choice, budget: usize, columns: &[Bounds]) -> Option<usize>
    ensures { result ≡ left_over (total choice columns.now) budget }
{
    let mut left = budget;
    for column in columns {
        let width = choice.width_of(*column);
        if width > left {
            return None;
        }
        left -= width;
    }
    Some(left)
}

/// The widths that are chosen.
fn chosen(alloc: Global, choice: Choice, columns: &[Bounds]) -> Result<Vec<usize>, AllocError>
    ensures { IfOk result (λ widths. widths.items ≡ map (λ column. width_of choice column) columns.now) }
{
    let mut widths = Vec::with_capacity(alloc, columns.len())?;
    for column in columns {
        widths.push(choice.width_of(*column))?;
    }
    Ok(widths)
}

/// The widths at the greatest level that fits, and what is left.
fn leveled(alloc: Global, budget: usize, columns: &[Bounds]) -> Result<Vec<usize>, AllocError>
    requires fits { total Least columns.now ≤ budget }
    requires more { budget < total Most columns.now }
    ensures { IfOk result (λ widths. widths.items ≡ grown (level budget columns.now) (budget - total (At (level budget columns.now)) columns.now) columns.now) }
{
    let level = level(budget, columns);
    let spare = left_over(Choice::At(level), budget, columns).unwrap_or(0);
    grown(alloc, level, spare, columns)
}

/// The greatest level whose widths fit the budget, by halving.
fn level(budget: usize, columns: &[Bounds]) -> usize
    requires fits { total Least columns.now ≤ budget }
    requires more { budget < total Most columns.now }
    ensures { result ≡ level budget columns.now }
{
    let mut low = 0;
    let mut high = widest(columns);
    while high - low > 1 {
        let middle = low + (high - low) / 2;
        if left_over(Choice::At(middle), budget, columns).is_some() {
            low = middle;
        } else {
            high = middle;
        }
    }
    low
}

/// The most that any of the columns needs.
#[tactic(auto, unfolding(crate::specs::Fair::widest))]
fn widest(columns: &[Bounds]) -> usize
    ensures { result ≡ widest columns.now }
{
    let mut most = 0;
    for column in columns {
        most = most.max(column.most);
    }
    most
}

/// The widths at a level, where the first so many columns that grow have one more.
#[tactic(auto, unfolding(crate::specs::Fair::grown))]
fn grown(
    alloc: Global,
    level: usize,
    spare: usize,
    columns: &[Bounds],
) -> Result<Vec<usize>, AllocError>
    ensures { IfOk result (λ widths. widths.items ≡ grown level spare columns.now) }
{
    let mut widths = Vec::with_capacity(alloc, columns.len())?;
    let mut spare = spare;
    for column in columns {
        if spare > 0 && column.grows(level) {
            widths.push(column.wider(level))?;
            spare -= 1;
        } else {
            widths.push(column.width_at(level))?;
        }
    }
    Ok(widths)
}
