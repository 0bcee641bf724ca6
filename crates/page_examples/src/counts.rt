//! What a draw of a document costs at each scroll, in rows that are cut and places that are probed.
use md_text::from_str;
use std::alloc::{AllocError, Global};
use std::test::Fail;
use term_core::{Buffer, Counted, Rect, Steps};
use term_widgets::Page;

const HEIGHT: u16 = 24;

const PART: &str =
    "# A heading that is long\n\nA paragraph, which takes some rows, since the page is narrow.\n\n- an item, also too long\n- b\n\n";

/// The text of so many parts.
fn text_of(alloc: Global, part: &str, count: usize) -> Result<String, AllocError> {
    let mut text = String::new(alloc);
    for _ in 0..count {
        text.push_str(part)?;
    }
    Ok(text)
}

/// How many probes and cuts it takes to draw the page from the row `scroll` on.
fn steps_of(alloc: Global, page: &Page, scroll: usize) -> Result<(u64, u64), AllocError> {
    let area = Rect::new(0, 0, page.width(), HEIGHT);
    let mut buffer = Buffer::empty(alloc, area)?;
    let mut probes = Steps::new(Counted::new());
    let mut cuts = Steps::new(Counted::new());
    page.draw(alloc, area, scroll, &mut buffer, &mut probes, &mut cuts)?;
    Ok((probes.ledger().count(), cuts.ledger().count()))
}

/// How many rows stand above the row `scroll` in its line.
fn rows_above(page: &Page, scroll: usize) -> usize {
    let mut above = 0;
    for index in 0..page.lines() {
        if let Some(rows) = scroll.checked_sub(page.first_row(index)) {
            above = rows;
        }
    }
    above
}

#[test]
fn a_long_document_is_probed_by_halving_at_each_tenth_scroll(rt: HostRuntime) -> Result<(), Fail> {
    let alloc = rt.alloc();
    let markdown = text_of(alloc, "a\n\n", 6500)?;
    let page = Page::new(alloc, from_str(alloc, markdown.as_str())?, 5)?;
    assert_eq!(rt; (page.lines(), page.len()), (12_999, 12_999));
    for scroll in (0..page.len()).step_by(10) {
        let (probes, cuts) = steps_of(alloc, &page, scroll)?;
        let shown = page.len().saturating_sub(scroll).min(HEIGHT as usize);
        // 2 to the power of 15 is more than twice the lines and one.
        assert!(rt; probes >= 1 && probes <= 14, "{probes} at {scroll}");
        assert_eq!(rt; cuts, shown as u64, "at {scroll}");
    }
    assert_eq!(rt; steps_of(alloc, &page, page.len())?, (0, 0));
    Ok(())
}

#[test]
fn a_draw_cuts_what_it_shows_and_what_stands_above_it_in_its_line(
    rt: HostRuntime,
) -> Result<(), Fail> {
    let alloc = rt.alloc();
    let markdown = text_of(alloc, PART, 20)?;
    let page = Page::new(alloc, from_str(alloc, markdown.as_str())?, 8)?;
    assert_eq!(rt; (page.lines(), page.len()), (139, 439));
    for scroll in 0..page.len() {
        let (probes, cuts) = steps_of(alloc, &page, scroll)?;
        let shown = page.len().saturating_sub(scroll).min(HEIGHT as usize);
        let wanted = rows_above(&page, scroll).saturating_add(shown);
        assert!(rt; probes >= 1 && probes <= 8, "{probes} at {scroll}");
        assert_eq!(rt; cuts, wanted as u64, "at {scroll}");
    }
    Ok(())
}
