// What a page asks of the lines of its text.
ghost use Rattle.std.specs.Prelude.{◌≡◌, ◌^◌, ◌≤◌, length, IsTrue, IfOk, OnOk, IsErrOf, MatchOption};
ghost use Rattle.term_core.specs.Graph.{graphs};
ghost use Rattle.term_core.specs.Wrap.{NoneWider, wrap};
ghost use Rattle.term_widgets.specs.Page.{AllFit, any_wider, row_counts};

use std::alloc::Global;
use term_core::{Cutter, Line, NoSteps, RowIndex, Steps, WidgetError};

/// The number of rows of the line, if `usize` counts them.
fn row_count(line: &Line, width: usize) -> Option<usize>
    requires { NoneWider width (graphs line.now) }
    ensures { MatchOption result (2 ^ 64 ≤ length (wrap width (graphs line.now)))
        (λ n. n ≡ length (wrap width (graphs line.now))) }
{
    let mut cutter = Cutter::new(line, width);
    let mut steps = Steps::new(NoSteps);
    let mut count = 0usize;
    'rows: while let Some(_row) = cutter.next_row(&mut steps) {
        match count.checked_add(1) {
            Some(next) => count = next,
            None => return None,
        }
    }
    Some(count)
}

/// The number of rows of the line, which has to fit the page. What one walk tells is enough where it is one row.
fn row_count_of(line: &Line, width: u16) -> Result<usize, WidgetError>
    ensures ok { IfOk result (λ n. n ≡ length (wrap width (graphs line.now))) }
    ensures fits { OnOk result (NoneWider width (graphs line.now)) }
    ensures narrow { IsErrOf result WidgetError.TooNarrow → ¬ (NoneWider width (graphs line.now)) }
    ensures memory { IsErrOf result WidgetError.Memory → 2 ^ 64 ≤ length (wrap width (graphs line.now)) }
{
    let width = usize::from(width);
    let extent = line.extent();
    if extent.widest > width {
        return Err(WidgetError::TooNarrow);
    }
    if extent.columns <= width {
        return Ok(1);
    }
    match row_count(line, width) {
        Some(count) => Ok(count),
        None => Err(WidgetError::Memory),
    }
}

/// The number of rows of each of the lines, each of which has to fit the page.
pub(crate) fn count_rows(alloc: Global, lines: &[Line], width: u16) -> Result<RowIndex, WidgetError>
    ensures ok { IfOk result (λ index. index ≡ row_counts width lines.now) }
    ensures fits { OnOk result (AllFit width lines.now) }
    ensures narrow { IsErrOf result WidgetError.TooNarrow → IsTrue (any_wider width lines.now) }
{
    let Ok(mut index) = RowIndex::with_capacity(alloc, lines.len()) else {
        return Err(WidgetError::Memory);
    };
    for line in lines {
        let rows = row_count_of(line, width)?;
        if rows > usize::MAX - index.total() {
            return Err(WidgetError::Memory);
        }
        let Ok(()) = index.push(rows) else {
            return Err(WidgetError::Memory);
        };
    }
    Ok(index)
}
