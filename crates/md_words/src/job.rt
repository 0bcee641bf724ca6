// The three words as a job.
ghost use Rattle.std.specs.Prelude.{◌≡◌, map, string_bytes};
ghost use Rattle.programs.specs.Number.{number_of};
ghost use Rattle.md_words.specs.Words.{job_of, size_limit};

use programs::number;

/// The greatest width and height.
const SIZE_LIMIT: u64 = 1000;

/// What a run is asked to show: a page of so many columns and rows, from a row of the page on.
#[derive(Clone, Copy, Debug, PartialEq, Eq)]
pub struct Job {
    /// Columns, at most 1,000.
    pub width: u16,
    /// Rows, at most 1,000.
    pub height: u16,
    /// The first row that is shown.
    pub scroll: u64,
}

/// A width or a height.
fn size(text: &str) -> Option<u16>
    ensures { result ≡ number_of size_limit text.now }
{
    Some(number(text, SIZE_LIMIT)? as u16)
}

/// The job that the words say, which are exactly three: WIDTH, HEIGHT and SCROLL, each 1 to 20 ASCII digits, of at
/// most 1,000, 1,000 and the last `u64`. `None` exactly where they are not. Takes no memory.
pub fn job_of_words(words: &[String]) -> Option<Job>
    ensures { result ≡ job_of (map string_bytes words.now) }
{
    let [width, height, scroll] = words else {
        return None;
    };
    Some(Job {
        width: size(width.as_str())?,
        height: size(height.as_str())?,
        scroll: number(scroll.as_str(), u64::MAX)?,
    })
}
