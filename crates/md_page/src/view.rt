// One view of a text, drawn into a buffer of its own.
ghost use Rattle.std.specs.Prelude.{◌≡◌, length, MatchResult};
ghost use Rattle.term_core.specs.BufferRows.{buffer_rows};
ghost use Rattle.term_core.specs.Cells.{view};
ghost use Rattle.md_page.specs.Shown.{IsShowable, HasNoView, shown_rows, status_of};

use crate::render::draw_text;
use md_text::{AnsiFence, Options};
use md_words::Job;
use programs::Status;
use std::alloc::Global;
use term_core::{Buffer, Rect, WidgetError};

/// Why there is no view of a text that a job asks for.
#[derive(Clone, Copy, Debug, PartialEq, Eq)]
pub enum NoView {
    /// There was no memory.
    Memory,
    /// The bytes are not UTF-8.
    NotUtf8,
    /// A visible grapheme of the text is wider than the view.
    TooNarrow,
}

impl NoView {
    /// How the run ends.
    pub fn status(self) -> Status
        ensures { result ≡ status_of self }
    {
        match self {
            NoView::Memory => Status::Memory,
            NoView::NotUtf8 => Status::NotUtf8,
            NoView::TooNarrow => Status::TooNarrow,
        }
    }
}

/// The view of a text that a job asks for: a buffer of its width and height with the page's rows from its scroll on, and
/// the number of all rows of the page; or why there is none.
///
/// The text is laid out in the default styles, its tables in the view's width, and code whose info text is `ansi` has the
/// colours that it sets itself.
pub fn drawn_view(alloc: Global, bytes: &[u8], job: Job) -> Result<(Buffer, usize), NoView>
    ensures { MatchResult result
        (λ v. IsShowable job bytes.now
        × (buffer_rows v.0 ≡ view (shown_rows job bytes.now) job.width job.height job.scroll)
        × (v.1 ≡ length (shown_rows job bytes.now)))
        (λ why. HasNoView job why bytes.now) }
{
    let Ok(text) = simdutf8::compat::from_utf8(bytes) else {
        return Err(NoView::NotUtf8);
    };
    let area = Rect::new(0, 0, job.width, job.height);
    let Ok(mut buffer) = Buffer::empty(alloc, area) else {
        return Err(NoView::Memory);
    };
    let options = Options::default().table_width(job.width);
    let scroll = job.scroll as usize;
    let page = match draw_text(alloc, text, &options, &AnsiFence, area, scroll, &mut buffer) {
        Ok(page) => page,
        Err(WidgetError::Memory) => return Err(NoView::Memory),
        Err(WidgetError::TooNarrow) => return Err(NoView::TooNarrow),
    };
    Ok((buffer, page.len()))
}
