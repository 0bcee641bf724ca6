// The words of the program.
ghost use Rattle.std.specs.Prelude.{◌≡◌, map, string_bytes};
ghost use Rattle.ansi_page.specs.Colored.{job_with_cells};

use md_words::{Job, job_of_words};

/// The job that the words say, as `job_of_words`, where the view has a cell: WIDTH and HEIGHT are 1 to 1,000. Takes no
/// memory.
pub(crate) fn job_with_cells(words: &[String]) -> Option<Job>
    ensures { result ≡ job_with_cells (map string_bytes words.now) }
{
    let job = job_of_words(words)?;
    if job.width == 0 || job.height == 0 {
        return None;
    }
    Some(job)
}
