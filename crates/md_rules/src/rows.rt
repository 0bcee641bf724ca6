// The rows of a table.
ghost use Rattle.std.specs.Prelude.{◌≡◌, ◌≤◌, length};
ghost use Rattle.md_rules.specs.Rows.{is_row, row_count};

use crate::rule::Rule;
use crate::start::{Items, block_start};
use crate::table::has_cells;
use md_lines::Line;

/// Whether the line is a row that goes on with a table, where containers may stand or not.
fn is_row(nests: bool, line: &Line) -> bool
    ensures { result ≡ is_row nests line.now }
{
    has_cells(line)
        && !block_start(nests, Items::All, line, &[])
            .rule()
            .is_among(Rule::Fence, Rule::Html)
}

/// How many rows of a table the lines begin with, where containers may stand or not.
pub fn row_count(nests: bool, lines: &[Line]) -> usize
    ensures value { result ≡ row_count nests lines.now }
    ensures within { result ≤ length lines.now }
{
    lines.iter().take_while(|line| is_row(nests, line)).count()
}
