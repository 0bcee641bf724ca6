// Paragraphs: a page in a block.
ghost use Rattle.std.specs.Prelude.{◌≡◌, ℕ, [], true, false, None, IsTrue, IsErrOf, OnOk, OnErr, if◌then◌else◌};
ghost use Rattle.term_core.specs.Buffers.{BufferView, cell_at, IsWithin};
ghost use Rattle.term_core.specs.Rect.{has_place, intersection, is_empty};
ghost use Rattle.term_widgets.specs.Block.{BlockView};
ghost use Rattle.term_widgets.specs.Page.{AllFit, any_wider};
ghost use Rattle.term_widgets.specs.Paragraph.{ParagraphView, text_area, page_cell, paragraph_cell};

use crate::block::Block;
use crate::page::Page;
use std::alloc::Global;
use std::marker::Model;
use term_core::{Buffer, NoSteps, Rect, Steps, Text, Widget, WidgetError};

/// A text that is wrapped within a block and shown from one of its rows on.
#[derive(Drop)]
pub struct Paragraph<'a> {
    text: Text<'a>,
    block: Block<'a>,
    scroll: usize,
}

impl<'a> Model for Paragraph<'a> {
    ghost use Rattle.term_widgets.specs.Paragraph.{ParagraphView};

    ghost Value = { ParagraphView };

    ghost view = { λ p. record { text = p.text; block = p.block; scroll = p.scroll } };
}

impl<'a> Paragraph<'a> {
    /// The text without a block, from its first row on.
    pub fn new(text: Text<'a>) -> Paragraph<'a>
        ensures { result ≡ record { text = text.entry; block = record { bordered = false; title = None }; scroll = 0 } }
    {
        Paragraph {
            text,
            block: Block::new(),
            scroll: 0,
        }
    }

    /// The same paragraph in the block, in place of an earlier one.
    pub fn block(self, block: Block<'a>) -> Paragraph<'a>
        ensures { result ≡ record self.entry { block = block.entry } }
    {
        let Paragraph { text, scroll, .. } = self;
        Paragraph {
            text,
            block,
            scroll,
        }
    }

    /// The same paragraph, shown from this row of its page on.
    pub fn scroll(self, rows: usize) -> Paragraph<'a>
        ensures { result ≡ record self.entry { scroll = rows } }
    {
        let Paragraph { text, block, .. } = self;
        Paragraph {
            text,
            block,
            scroll: rows,
        }
    }
}

impl<'a> Widget for Paragraph<'a> {
    /// Draws the block on the area cut to the buffer, and in its inner area the page of the text at that area's width, from the
    /// scroll on. `TooNarrow` comes exactly where the inner area is not empty and a visible grapheme of the text is wider.
    fn render(self, alloc: Global, area: Rect, buf: &mut Buffer) -> Result<(), WidgetError>
        ensures area { buf.new.area ≡ buf.old.area }
        ensures ok { OnOk result ((x y : ℕ) → let cut = intersection area buf.old.area in
            cell_at buf.new x y ≡ (if has_place cut x y then paragraph_cell self.entry cut x y (cell_at buf.old x y)
            else cell_at buf.old x y)) }
        ensures fits { OnOk result (let inner = text_area self.entry (intersection area buf.old.area) in
            is_empty inner ≡ false → AllFit inner.width self.entry.text) }
        ensures narrow { IsErrOf result WidgetError.TooNarrow → let inner = text_area self.entry (intersection area buf.old.area) in
            (is_empty inner ≡ false) × IsTrue (any_wider inner.width self.entry.text) }
        ensures outside { (x y : ℕ) → has_place area x y ≡ false → cell_at buf.new x y ≡ cell_at buf.old x y }
        ensures err { OnErr result (buf.new ≡ buf.old) }
    {
        let Paragraph {
            text,
            block,
            scroll,
        } = self;
        let cut = area.intersection(buf.area());
        if cut.is_empty() {
            return Ok(());
        }
        let inner = block.inner(cut);
        // The page may be refused and the block, whose title is made, may not; they share no cell.
        let title = block.caption(alloc, cut)?;
        draw_text(alloc, text, inner, scroll, buf)?;
        block.draw(alloc, cut, title, buf);
        Ok(())
    }
}

/// Draws the page of the text into an area that the buffer has, from the row `scroll` on, unless the area is empty.
fn draw_text(
    alloc: Global,
    text: Text,
    area: Rect,
    scroll: usize,
    buf: &mut Buffer,
) -> Result<(), WidgetError>
    requires { IsWithin area buf.old.area }
    ensures area { buf.new.area ≡ buf.old.area }
    ensures ok { OnOk result ((x y : ℕ) → cell_at buf.new x y ≡ (if has_place area x y
        then page_cell text.entry scroll area x y else cell_at buf.old x y)) }
    ensures fits { OnOk result (is_empty area ≡ false → AllFit area.width text.entry) }
    ensures narrow { IsErrOf result WidgetError.TooNarrow → (is_empty area ≡ false) × IsTrue (any_wider area.width text.entry) }
    ensures err { OnErr result (buf.new ≡ buf.old) }
{
    if area.is_empty() {
        return Ok(());
    }
    let page = Page::new(alloc, text, area.width())?;
    let mut probes = Steps::new(NoSteps);
    let mut cuts = Steps::new(NoSteps);
    page.draw(alloc, area, scroll, buf, &mut probes, &mut cuts)?;
    Ok(())
}
