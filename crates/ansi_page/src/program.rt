// The program, over any source and any sink.
ghost use Rattle.std.specs.Prelude.{◌≡◌, ◌⊎◌, ℕ, ◌+◌, ◌≤◌, List, length, Some, None, map, string_bytes, true, IfSome, IsSomeAnd, IsUtf8};
ghost use Rattle.std.specs.Io.KnownBytes.{Appends, IsAtEnd};
ghost use Rattle.ends.specs.Causes.{Rose, NoFault};
ghost use Rattle.md_words.specs.declared.job.Job.{Job};
ghost use Rattle.programs.specs.Reading.{change_of, limit};
ghost use Rattle.programs.specs.Ran.{Ran, Shows};
ghost use Rattle.programs.specs.Writing.{WroteSome};
ghost use Rattle.md_page.specs.Shown.{IsShowable, IsNarrow};
ghost use Rattle.ansi_page.specs.Colored.{ColoredCause, colored, job_with_cells};
ghost use Rattle.term_ansi.specs.Clean.{HasOwnControls};

use crate::output::output;
use crate::words::job_with_cells;
use ends::{Sink, Source};
use md_words::Job;
use programs::{Status, read_all, write_all};
use std::alloc::Global;

/// Prints a source as a job says.
fn run_job<R: Source, W: Sink>(alloc: Global, job: Job, source: &mut R, sink: &mut W) -> Status
    ensures source_faults { R.faults source.old ≤ R.faults source.new }
    ensures sink_faults { W.faults sink.old ≤ W.faults sink.new }
    ensures ran { Shows (ColoredCause job) (colored job) result
        (change_of R.left R.faults source.old source.new)
        (change_of W.written W.faults sink.old sink.new)
        (sink.new ≡ sink.old) }
{
    let bytes = match read_all(alloc, source) {
        Ok(bytes) => bytes,
        Err(status) => return status,
    };
    let output = match output(alloc, &bytes, job) {
        Ok(output) => output,
        Err(why) => return why.status(),
    };
    match write_all(output.as_bytes(), sink) {
        Ok(()) => Status::Done,
        Err(status) => status,
    }
}

/// Prints a source as the words say.
fn run_words<R: Source, W: Sink>(
    alloc: Global,
    words: &[String],
    source: &mut R,
    sink: &mut W,
) -> Status
    ensures source_faults { R.faults source.old ≤ R.faults source.new }
    ensures sink_faults { W.faults sink.old ≤ W.faults sink.new }
    ensures ran { Ran ColoredCause colored (job_with_cells (map string_bytes words.now)) result
        (change_of R.left R.faults source.old source.new)
        (change_of W.written W.faults sink.old sink.new)
        (source.new ≡ source.old)
        (sink.new ≡ sink.old) }
{
    match job_with_cells(words) {
        Some(job) => run_job(alloc, job, source, sink),
        None => Status::Usage,
    }
}

/// Prints one view of the page of the Markdown text that a source holds, in its colours, as the words say: WIDTH, HEIGHT
/// and SCROLL, numbers of 1 to 20 digits, of 1 to 1,000, 1 to 1,000 and 0 to the last `u64`.
///
/// It reads the source to its end, at most 16,777,216 bytes, draws the view that `run` of `md_page` prints, and writes it by
/// `print_ansi`, without the number of rows. The statuses come in the order: `Usage`; `ReadFault` or `TooLong`, whichever
/// call came first; `NotUtf8`; `TooNarrow`; `WriteFault`. `Memory` may stand in place of any of them before the
/// first write. A drawn view has no symbol that cannot be printed, so there is no status for one.
pub fn run_ansi<R: Source, W: Sink>(
    alloc: Global,
    words: &[String],
    source: &mut R,
    sink: &mut W,
) -> Status
    ensures source_faults { R.faults source.old ≤ R.faults source.new }
    ensures sink_faults { W.faults sink.old ≤ W.faults sink.new }

    // All of it, by cases on the status.
    ensures ran { Ran ColoredCause colored (job_with_cells (map string_bytes words.now)) result
        (change_of R.left R.faults source.old source.new)
        (change_of W.written W.faults sink.old sink.new)
        (source.new ≡ source.old)
        (sink.new ≡ sink.old) }

    // What is printed: the view's rows as lines with sequences, and no control byte but their own.
    ensures done { (job : Job) → job_with_cells (map string_bytes words.now) ≡ Some job → result ≡ Status.Done
        → IfSome (R.left source.old) (λ bytes. IsAtEnd (R.left source.new) × IsShowable job bytes
        × HasOwnControls (colored job bytes) × Appends (W.written sink.old) (W.written sink.new) (colored job bytes)) }

    // After `Done` no call of either end failed, so no fault was tried over, or a count stands at its last value.
    ensures no_fault { result ≡ Status.Done
        → NoFault (R.faults source.old) (R.faults source.new) × NoFault (W.faults sink.old) (W.faults sink.new) }

    // When each other status comes, and what it leaves.
    ensures usage { result ≡ Status.Usage → job_with_cells (map string_bytes words.now) ≡ None }
    ensures refused_words { job_with_cells (map string_bytes words.now) ≡ None
        → (result ≡ Status.Usage) × (source.new ≡ source.old) × (sink.new ≡ sink.old) }
    ensures read_fault { result ≡ Status.ReadFault → Rose (R.faults source.old) (R.faults source.new) }
    ensures too_long { result ≡ Status.TooLong → IfSome (R.left source.old) (λ bytes.
        IfSome (R.left source.new) (λ rest. length bytes ≡ length rest + (limit + 1))) }
    ensures only_too_long { IfSome (R.left source.old) (λ bytes. IfSome (R.left source.new) (λ rest.
        length bytes ≡ length rest + (limit + 1) → (result ≡ Status.TooLong) ⊎ (result ≡ Status.Memory))) }
    ensures not_utf8 { result ≡ Status.NotUtf8
        → IfSome (R.left source.old) (λ bytes. IsAtEnd (R.left source.new) × (IsUtf8 bytes → ⊥)) }
    ensures too_narrow { (job : Job) → job_with_cells (map string_bytes words.now) ≡ Some job → result ≡ Status.TooNarrow
        → IfSome (R.left source.old) (λ bytes. IsAtEnd (R.left source.new) × IsNarrow job bytes) }
    ensures write_fault { (job : Job) → job_with_cells (map string_bytes words.now) ≡ Some job → result ≡ Status.WriteFault
        → Rose (W.faults sink.old) (W.faults sink.new)
        × IfSome (R.left source.old) (λ bytes. IsAtEnd (R.left source.new)
        × WroteSome (change_of W.written W.faults sink.old sink.new) (colored job bytes)) }
    ensures untouched { (result ≡ Status.Done → ⊥) → (result ≡ Status.WriteFault → ⊥) → sink.new ≡ sink.old }
    ensures complete { (job : Job) → job_with_cells (map string_bytes words.now) ≡ Some job
        → IsSomeAnd (R.left source.old) (λ bytes. (length bytes ≤ limit) × IsShowable job bytes)
        → (Rose (R.faults source.old) (R.faults source.new) → ⊥)
        → (Rose (W.faults sink.old) (W.faults sink.new) → ⊥)
        → (result ≡ Status.Done) ⊎ (result ≡ Status.Memory) }
{
    run_words(alloc, words, source, sink)
}
