// The output of a run.
ghost use Rattle.std.specs.Prelude.{◌≡◌, string_bytes, MatchResult};
ghost use Rattle.md_page.specs.Shown.{IsShowable, HasNoView};
ghost use Rattle.ansi_page.specs.Colored.{colored};
ghost use Rattle.term_ansi.specs.Clean.{HasOwnControls};

use md_page::{NoView, drawn_view};
use md_words::Job;
use std::alloc::Global;
use term_ansi::{PrintError, print_ansi};

/// What a job prints of a text, or why it prints nothing.
pub(crate) fn output(alloc: Global, bytes: &[u8], job: Job) -> Result<String, NoView>
    ensures { MatchResult result
        (λ out. IsShowable job bytes.now × HasOwnControls (colored job bytes.now) × (string_bytes out ≡ colored job bytes.now))
        (λ why. HasNoView job why bytes.now) }
{
    let (buffer, _rows) = match drawn_view(alloc, bytes, job) {
        Ok(view) => view,
        Err(why) => return Err(why),
    };
    match print_ansi(alloc, &buffer) {
        Ok(out) => Ok(out),
        Err(PrintError::Memory) => Err(NoView::Memory),
        // A drawn view has no symbol that cannot be printed.
        Err(PrintError::BadSymbol) => unreachable!(),
    }
}
