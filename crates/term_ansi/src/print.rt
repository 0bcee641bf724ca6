// Rows of cells as lines of text with SGR sequences.
ghost use Rattle.std.specs.Prelude.{◌≡◌, ◌∷◌, ◌++◌, [], true, false, string_bytes, List, replicate, MatchResult, OnOk, IfOk, Err};
ghost use Rattle.std.specs.List.{list_any, list_all};
ghost use Rattle.term_core.specs.BufferRows.{buffer_rows};
ghost use Rattle.term_core.specs.Visited.{visited};
ghost use Rattle.term_core.specs.Cells.{CellView, blank_cell};
ghost use Rattle.term_ansi.specs.Looks.{look_of};
ghost use Rattle.term_ansi.specs.Runs.{is_byte_row};
ghost use Rattle.term_ansi.specs.Printed.{printed, has_bad, is_bad_row, is_bad_symbol, is_bad_byte, row_text, cells_text, change};
ghost use Rattle.term_ansi.specs.Texts.{is_text_row, has_bad_text, is_bad_text_row};

use crate::error::PrintError;
use crate::look::{Look, is_blank, know_color};
use crate::pen::Pen;
use crate::shown::Shown;
use std::alloc::{AllocError, Global};
use term_core::{Buffer, Cell};

/// The buffer as text with SGR sequences (ECMA-48), in one canonical form: a line for each of its rows, each ended by a
/// line feed.
///
/// A line is the row's visited cells without the blank ones at the end. Before a symbol whose look, its two colours and its
/// modifiers, differs from the look before it stands the sequence of its look: a reset, the modifiers, the foreground, the
/// background. A line begins plain, and a reset ends one whose last look is not plain.
///
/// `BadSymbol` comes exactly where the symbol of a visited cell is empty or holds ESC, CR or LF; `Memory`, which may come in
/// place of every answer, where there is none.
pub fn print_ansi(alloc: Global, buf: &Buffer) -> Result<String, PrintError>
    ensures text { MatchResult result
        (λ text. (string_bytes text ≡ printed buf.now) × (has_bad (buffer_rows buf.now) ≡ false))
        (λ e. e ≡ PrintError.BadSymbol → has_bad (buffer_rows buf.now) ≡ true) }
    ensures colors { OnOk result (list_all is_byte_row (buffer_rows buf.now) ≡ true) }
    ensures symbols { OnOk result (list_all is_text_row (buffer_rows buf.now) ≡ true) }
    ensures refused { result ≡ Err PrintError.BadSymbol → has_bad_text (buffer_rows buf.now) ≡ true }
{
    let mut pen = Pen::new(alloc)?;
    let mut rest = buf.rows();
    'rows: while let Some(row) = rest.next() {
        match push_row(&mut pen, row) {
            Ok(()) => {}
            Err(error) => return Err(error),
        }
        pen.push_byte(b'\n')?;
    }
    let bytes = pen.finish()?;
    Ok(unsafe { String::from_utf8_unchecked(bytes) })
}

/// Adds the text of a row.
fn push_row(pen: &mut Pen, row: &[Cell]) -> Result<(), PrintError>
    ensures text { MatchResult result
        (λ _. (pen.new ≡ pen.old ++ row_text row.now) × (is_bad_row row.now ≡ false))
        (λ e. e ≡ PrintError.BadSymbol → is_bad_text_row row.now ≡ true) }
    ensures colors { OnOk result (is_byte_row row.now ≡ true) }
    ensures symbols { OnOk result (is_text_row row.now ≡ true) }
{
    let mut last = Look::plain();
    let mut blanks: usize = 0;
    let mut rest = Shown::new(row);
    'cells: while let Some(cell) = rest.next() {
        let symbol = cell.symbol();
        if is_bad_symbol(symbol) {
            return Err(PrintError::BadSymbol);
        }
        know_color(cell.fg());
        know_color(cell.bg());
        if is_blank(cell) {
            blanks += 1;
        } else {
            let before = push_blanks(pen, last, blanks)?;
            let look = Look::of(cell);
            pen.push_change(before, look)?;
            pen.push_symbol(symbol)?;
            last = look;
            blanks = 0;
        }
    }
    pen.push_change(last, Look::plain())?;
    Ok(())
}

/// Adds so many blank cells behind one of a look, and answers the look behind them. As a rule there is none.
#[inline(always)]
fn push_blanks(pen: &mut Pen, last: Look, count: usize) -> Result<Look, AllocError>
    ensures { IfOk result (λ look. (cs : List CellView)
        → pen.new ++ cells_text look cs ≡ pen.old ++ cells_text last (replicate count blank_cell ++ cs)) }
{
    let mut look = last;
    let mut left = count;
    'blanks: while left > 0 {
        pen.push_change(look, Look::plain())?;
        pen.push_byte(b' ')?;
        look = Look::plain();
        left -= 1;
    }
    Ok(look)
}

/// Whether a symbol is empty or holds an escape byte or a line end.
fn is_bad_symbol(symbol: &str) -> bool
    ensures { result ≡ is_bad_symbol symbol.now }
{
    symbol.is_empty() || has_bad_byte(symbol.as_bytes())
}

fn has_bad_byte(bytes: &[u8]) -> bool
    ensures { result ≡ list_any is_bad_byte bytes.now }
{
    bytes.iter().any(|b| is_bad_byte(*b))
}

fn is_bad_byte(b: u8) -> bool
    ensures { result ≡ is_bad_byte b }
{
    b == 0x1b || b == b'\r' || b == b'\n'
}
