// The page of a Markdown text, drawn into a buffer.
ghost use Rattle.std.specs.Prelude.{◌≡◌, ◌⊎◌, ℕ, ◌↔◌, [], true, false, IfOk, IfErr, OnOk, OnErr};
ghost use Rattle.std.specs.Prelude.{IsOkAnd, IsErrOf, IsUtf8, length, ◌<◌, ◌^◌};
ghost use Rattle.term_core.specs.BufferRows.{area_rows};
ghost use Rattle.term_core.specs.Buffers.{BufferView, cell_at, cell_put};
ghost use Rattle.term_core.specs.Cells.{view};
ghost use Rattle.term_core.specs.Lists.{joined};
ghost use Rattle.term_core.specs.Rect.{is_empty, intersection};
ghost use Rattle.term_widgets.specs.Page.{PageView, page_rows};
ghost use Rattle.md_events.specs.Blocks.{tree};
ghost use Rattle.md_text.specs.Look.{look_of};
ghost use Rattle.md_text.specs.Layout.{document_lines, document_layout};
ghost use Rattle.md_text.specs.Pieces.{puts, document_pieces};
ghost use Rattle.md_text.specs.Framed.{HoldsPieces};
ghost use Rattle.md_page.specs.Shown.{IsDrawn, IsTooNarrow, RefusedBy, rows, too_wide};

use crate::error::ViewError;
use md_text::{Highlighter, Options, StyleSheet, from_str_with_options};
use std::alloc::Global;
use term_core::{Buffer, NoSteps, Rect, Steps, WidgetError};
use term_widgets::Page;

/// The page of a text at a width.
fn page_of<'a, S: StyleSheet, H: Highlighter>(
    alloc: Global,
    text: &'a str,
    options: &Options<S>,
    highlighter: &H,
    width: u16,
) -> Result<Page<'a>, WidgetError>
    ensures ok { let look = look_of options.now S.sheet (H.known highlighter.now) (H.answer highlighter.now) in
        IfOk result (λ page. page ≡ record { width = width; lines = document_lines look (tree text.now) }) }
    ensures fits { let look = look_of options.now S.sheet (H.known highlighter.now) (H.answer highlighter.now) in
        OnOk result (too_wide look text.now width ≡ false) }
    ensures narrow { let look = look_of options.now S.sheet (H.known highlighter.now) (H.answer highlighter.now) in
        IsErrOf result WidgetError.TooNarrow → too_wide look text.now width ≡ true }
{
    let Ok(lines) = from_str_with_options(alloc, text, options, highlighter) else {
        return Err(WidgetError::Memory);
    };
    Page::new(alloc, lines, width)
}

/// Draws the page of a text into the area, as far as the buffer has it, from the row `scroll` on.
pub(crate) fn draw_text<'a, S: StyleSheet, H: Highlighter>(
    alloc: Global,
    text: &'a str,
    options: &Options<S>,
    highlighter: &H,
    area: Rect,
    scroll: usize,
    buf: &mut Buffer,
) -> Result<Page<'a>, WidgetError>
    ensures drawn { let cut = intersection area buf.old.area in
        let look = look_of options.now S.sheet (H.known highlighter.now) (H.answer highlighter.now) in
        is_empty cut ≡ false → IfOk result (λ page. IsDrawn look text.now cut scroll page buf.old buf.new) }
    ensures empty { is_empty (intersection area buf.old.area) ≡ true
        → IsOkAnd result (λ page. page ≡ record { width = 0; lines = [] }) }
    ensures untouched { is_empty (intersection area buf.old.area) ≡ true → buf.new ≡ buf.old }
    ensures narrow { let cut = intersection area buf.old.area in
        let look = look_of options.now S.sheet (H.known highlighter.now) (H.answer highlighter.now) in
        IsErrOf result WidgetError.TooNarrow
        → (is_empty cut ≡ false) × (too_wide look text.now cut.width ≡ true) }
    ensures area { buf.new.area ≡ buf.old.area }
    ensures refused { OnErr result (buf.new ≡ buf.old) }
{
    let cut = area.intersection(buf.area());
    if cut.is_empty() {
        return Ok(Page::empty(alloc));
    }
    let page = match page_of(alloc, text, options, highlighter, cut.width()) {
        Ok(page) => page,
        Err(error) => return Err(error),
    };
    let mut probes = Steps::new(NoSteps);
    let mut cuts = Steps::new(NoSteps);
    match page.draw(alloc, area, scroll, buf, &mut probes, &mut cuts) {
        Ok(()) => Ok(page),
        Err(_) => Err(WidgetError::Memory),
    }
}

/// Draws the page of a Markdown text into the area, as far as the buffer has it, from the row `scroll` on.
///
/// The page's rows are the wrap, at the width of the area cut to the buffer, of the lines that the text's tree lays
/// out, all its pieces whole, once and in order. The area's cells are these rows from the scroll on, blank after the
/// last; no other cell changes. The lines hold the pieces: without quote marks and the blanks that indent, their
/// spans, joined in order, are the tree's pieces (`lines`: a slice is never longer than 64 bits tell). An area without
/// a cell in the buffer has the page without lines, which takes no memory.
///
/// `NotUtf8` comes exactly where the bytes are not UTF-8, before all else and without taking memory; `TooNarrow`
/// exactly where the area has a cell and a visible grapheme of the layout is wider than the cut area; `Memory` may
/// stand in place of the others. After every refusal the buffer is as before.
#[tactic(auto, using(crate::proofs::Headline::puts_are_pieces, crate::proofs::Headline::lines_hold_pieces))]
pub fn render_view<'a, S: StyleSheet, H: Highlighter>(
    alloc: Global,
    markdown: &'a [u8],
    options: &Options<S>,
    highlighter: &H,
    area: Rect,
    scroll: usize,
    buf: &mut Buffer,
) -> Result<Page<'a>, ViewError>
    // The headline: the page's rows, its pieces, the area's cells, and no other cell.
    ensures rows { let cut = intersection area buf.old.area in
        let look = look_of options.now S.sheet (H.known highlighter.now) (H.answer highlighter.now) in
        is_empty cut ≡ false → IfOk result (λ page. page_rows page ≡ rows look markdown.now cut.width) }
    ensures pieces { let look = look_of options.now S.sheet (H.known highlighter.now) (H.answer highlighter.now) in
        puts (document_layout look (tree markdown.now)).marks ≡ document_pieces look (tree markdown.now) }
    ensures lines { let look = look_of options.now S.sheet (H.known highlighter.now) (H.answer highlighter.now) in
        length markdown.now < 2 ^ 64
        → HoldsPieces (document_lines look (tree markdown.now)) (document_pieces look (tree markdown.now)) }
    ensures shown { let cut = intersection area buf.old.area in
        let look = look_of options.now S.sheet (H.known highlighter.now) (H.answer highlighter.now) in
        is_empty cut ≡ false
        → OnOk result (area_rows buf.new cut ≡ view (rows look markdown.now cut.width) cut.width cut.height scroll) }
    ensures drawn { let cut = intersection area buf.old.area in
        let look = look_of options.now S.sheet (H.known highlighter.now) (H.answer highlighter.now) in
        let cells = joined (view (rows look markdown.now cut.width) cut.width cut.height scroll) in
        is_empty cut ≡ false → OnOk result ((x y : ℕ) → cell_at buf.new x y ≡ cell_put cut cells buf.old x y) }
    ensures page { let cut = intersection area buf.old.area in
        let look = look_of options.now S.sheet (H.known highlighter.now) (H.answer highlighter.now) in
        is_empty cut ≡ false → IfOk result (λ page.
        page ≡ record { width = cut.width; lines = document_lines look (tree markdown.now) }) }

    // An area without a cell.
    ensures empty { IsUtf8 markdown.now → is_empty (intersection area buf.old.area) ≡ true
        → IsOkAnd result (λ page. page ≡ record { width = 0; lines = [] }) }
    ensures untouched { is_empty (intersection area buf.old.area) ≡ true → buf.new ≡ buf.old }

    // When each refusal comes, and what it leaves.
    ensures utf8 { OnOk result (IsUtf8 markdown.now) }
    ensures fits { let cut = intersection area buf.old.area in
        let look = look_of options.now S.sheet (H.known highlighter.now) (H.answer highlighter.now) in
        is_empty cut ≡ false → OnOk result (too_wide look markdown.now cut.width ≡ false) }
    ensures not_utf8 { IsErrOf result ViewError.NotUtf8 ↔ (IsUtf8 markdown.now → ⊥) }
    ensures too_narrow { let cut = intersection area buf.old.area in
        let look = look_of options.now S.sheet (H.known highlighter.now) (H.answer highlighter.now) in
        IsTooNarrow look markdown.now cut → IsErrOf result ViewError.TooNarrow ⊎ IsErrOf result ViewError.Memory }
    ensures refused_by { let cut = intersection area buf.old.area in
        let look = look_of options.now S.sheet (H.known highlighter.now) (H.answer highlighter.now) in
        IfErr result (λ e. RefusedBy look e markdown.now cut) }
    ensures area { buf.new.area ≡ buf.old.area }
    ensures refused { OnErr result (buf.new ≡ buf.old) }
{
    let Ok(text) = simdutf8::compat::from_utf8(markdown) else {
        return Err(ViewError::NotUtf8);
    };
    match draw_text(alloc, text, options, highlighter, area, scroll, buf) {
        Ok(page) => Ok(page),
        Err(WidgetError::Memory) => Err(ViewError::Memory),
        Err(WidgetError::TooNarrow) => Err(ViewError::TooNarrow),
    }
}
