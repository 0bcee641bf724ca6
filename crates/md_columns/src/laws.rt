//! Laws of fair widths.
ghost use Rattle.std.specs.Prelude.{◌≡◌, ◌<◌, ◌≤◌, ◌+◌, ℕ, List, length, slice_index_or, sum};
ghost use Rattle.md_columns.specs.declared.bounds.Bounds.{Bounds};
ghost use Rattle.md_columns.specs.declared.bounds.Choice.TheVariants.{Least, Most};
ghost use Rattle.md_columns.specs.Fair.{Ordered, Taken, Within, fair, total};
ghost use Rattle.md_columns.specs.Growth.{widened};

/// There is a width for each column.
pub fn one_width_each()
    ensures { (budget : ℕ) (columns : List Bounds) → length (fair budget columns) ≡ length columns }
{}

/// The widths lie between the bounds of their columns, if the bounds are in order.
pub fn widths_lie_within_the_bounds()
    ensures { (budget : ℕ) (columns : List Bounds) → Ordered columns → Within columns (fair budget columns) }
{}

/// Where not all that is needed fits the budget but the least does, the whole budget is used.
pub fn the_whole_budget_is_used()
    ensures { (budget : ℕ) (columns : List Bounds) → total Least columns ≤ budget → budget < total Most columns
        → sum (fair budget columns) ≡ budget }
{}

/// Where not all that is needed fits the budget but the least does, any other division within the bounds and the
/// budget that gives a column more gives some column less, and each column that it gives less is here at most one
/// wider than that column.
pub fn more_is_taken_from_no_narrower_column()
    ensures { (budget : ℕ) (columns : List Bounds) (others : List ℕ) (j : ℕ)
        → total Least columns ≤ budget → budget < total Most columns → Within columns others → sum others ≤ budget
        → slice_index_or (fair budget columns) j 0 < slice_index_or others j 0 → Taken (fair budget columns) others j }
{}

/// Where the least fits the budget, the widths do not exceed it.
pub fn widths_keep_to_the_budget()
    ensures { (budget : ℕ) (columns : List Bounds) → total Least columns ≤ budget → sum (fair budget columns) ≤ budget }
{}

/// Where not all that is needed fits the budget but the least does, and the bounds are in order, a budget that is
/// greater by one gives one more to the leftmost of the narrowest columns that are below their most, and changes no
/// other width.
pub fn one_more_goes_to_the_leftmost_narrowest()
    ensures { (budget : ℕ) (columns : List Bounds) → Ordered columns → total Least columns ≤ budget → budget < total Most columns
        → fair (budget + 1) columns ≡ widened columns (fair budget columns) }
{}
