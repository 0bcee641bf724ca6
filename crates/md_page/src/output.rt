// The output of a run.
ghost use Rattle.std.specs.Prelude.{◌≡◌, MatchResult};
ghost use Rattle.md_page.specs.Shown.{IsShowable, HasNoView, shown};

use crate::view::{NoView, drawn_view};
use md_words::Job;
use std::alloc::Global;
use view_print::print_view;

/// What a job prints of a text, or why it prints nothing.
pub(crate) fn output(alloc: Global, bytes: &[u8], job: Job) -> Result<Vec<u8>, NoView>
    ensures { MatchResult result
        (λ out. IsShowable job bytes.now × (out.items ≡ shown job bytes.now))
        (λ why. HasNoView job why bytes.now) }
{
    let (buffer, rows) = match drawn_view(alloc, bytes, job) {
        Ok(view) => view,
        Err(why) => return Err(why),
    };
    match print_view(alloc, &buffer, rows) {
        Ok(out) => Ok(out),
        Err(_) => Err(NoView::Memory),
    }
}
