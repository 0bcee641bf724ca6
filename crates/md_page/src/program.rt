// The program, over any source and any sink.
ghost use Rattle.std.specs.Prelude.{◌≡◌, ◌⊎◌, ℕ, ◌+◌, ◌≤◌, List, length, Some, None, map, string_bytes, true};
ghost use Rattle.std.specs.Prelude.{IfSome, IsSomeAnd, IsUtf8, ◌<◌, ◌^◌};
ghost use Rattle.std.specs.Io.KnownBytes.{Appends, IsAtEnd};
ghost use Rattle.ends.specs.Causes.{Rose, NoFault};
ghost use Rattle.md_words.specs.declared.job.Job.{Job};
ghost use Rattle.md_words.specs.Words.{job_of};
ghost use Rattle.programs.specs.Reading.{change_of, limit};
ghost use Rattle.programs.specs.Ran.{Ran, Shows};
ghost use Rattle.md_events.specs.Blocks.{tree};
ghost use Rattle.md_text.specs.Layout.{document_layout, document_lines};
ghost use Rattle.md_text.specs.Pieces.{puts, document_pieces};
ghost use Rattle.md_text.specs.Framed.{HoldsPieces};
ghost use Rattle.programs.specs.Writing.{WroteSome};
ghost use Rattle.md_page.specs.Shown.{Cause, IsShowable, IsNarrow, job_look, shown};

use crate::output::output;
use ends::{Sink, Source};
use md_words::{Job, job_of_words};
use programs::{Status, read_all, write_all};
use std::alloc::Global;

/// Shows a source as a job says.
fn run_job<R: Source, W: Sink>(alloc: Global, job: Job, source: &mut R, sink: &mut W) -> Status
    ensures source_faults { R.faults source.old ≤ R.faults source.new }
    ensures sink_faults { W.faults sink.old ≤ W.faults sink.new }
    ensures ran { Shows (Cause job) (shown job) result
        (change_of R.left R.faults source.old source.new)
        (change_of W.written W.faults sink.old sink.new)
        (sink.new ≡ sink.old) }
{
    let bytes = match read_all(alloc, source) {
        Ok(bytes) => bytes,
        Err(status) => return status,
    };
    let output = match output(alloc, &bytes, job) {
        Ok(output) => output,
        Err(why) => return why.status(),
    };
    match write_all(&output, sink) {
        Ok(()) => Status::Done,
        Err(status) => status,
    }
}

/// Shows a source as the words say.
fn run_words<R: Source, W: Sink>(
    alloc: Global,
    words: &[String],
    source: &mut R,
    sink: &mut W,
) -> Status
    ensures source_faults { R.faults source.old ≤ R.faults source.new }
    ensures sink_faults { W.faults sink.old ≤ W.faults sink.new }
    ensures ran { Ran Cause shown (job_of (map string_bytes words.now)) result
        (change_of R.left R.faults source.old source.new)
        (change_of W.written W.faults sink.old sink.new)
        (source.new ≡ source.old)
        (sink.new ≡ sink.old) }
{
    match job_of_words(words) {
        Some(job) => run_job(alloc, job, source, sink),
        None => Status::Usage,
    }
}

/// Prints one view of the page of the Markdown text that a source holds, as the words say: WIDTH, HEIGHT and SCROLL,
/// numbers of 1 to 20 digits of at most 1,000, 1,000 and the last `u64`.
///
/// It reads the source to its end, at most 16,777,216 bytes, draws the text's page into a blank buffer of WIDTH by
/// HEIGHT cells, and writes the buffer's rows and the page's number of rows. The statuses come in the order: `Usage`;
/// `ReadFault` or `TooLong`, whichever call came first; `NotUtf8`; `TooNarrow`; `WriteFault`. `Memory` may
/// stand in place of any of them before the first write.
pub fn run<R: Source, W: Sink>(
    alloc: Global,
    words: &[String],
    source: &mut R,
    sink: &mut W,
) -> Status
    ensures source_faults { R.faults source.old ≤ R.faults source.new }
    ensures sink_faults { W.faults sink.old ≤ W.faults sink.new }

    // All of it, by cases on the status.
    ensures ran { Ran Cause shown (job_of (map string_bytes words.now)) result
        (change_of R.left R.faults source.old source.new)
        (change_of W.written W.faults sink.old sink.new)
        (source.new ≡ source.old)
        (sink.new ≡ sink.old) }

    // The headline: what is printed is the view of the page's rows, whose pieces are the tree's.
    ensures done { (job : Job) → job_of (map string_bytes words.now) ≡ Some job → result ≡ Status.Done
        → IfSome (R.left source.old) (λ bytes. IsAtEnd (R.left source.new) × IsShowable job bytes
        × Appends (W.written sink.old) (W.written sink.new) (shown job bytes)) }
    ensures pieces { (job : Job) (text : List ℕ) → puts (document_layout (job_look job) (tree text)).marks
        ≡ document_pieces (job_look job) (tree text) }
    ensures lines { (job : Job) (text : List ℕ) → length text < 2 ^ 64
        → HoldsPieces (document_lines (job_look job) (tree text)) (document_pieces (job_look job) (tree text)) }

    // After `Done` no call of either end failed, so no fault was tried over, or a count stands at its last value.
    ensures no_fault { result ≡ Status.Done
        → NoFault (R.faults source.old) (R.faults source.new) × NoFault (W.faults sink.old) (W.faults sink.new) }

    // When each other status comes, and what it leaves.
    ensures usage { result ≡ Status.Usage → job_of (map string_bytes words.now) ≡ None }
    ensures refused_words { job_of (map string_bytes words.now) ≡ None
        → (result ≡ Status.Usage) × (source.new ≡ source.old) × (sink.new ≡ sink.old) }
    ensures read_fault { result ≡ Status.ReadFault → Rose (R.faults source.old) (R.faults source.new) }
    ensures too_long { result ≡ Status.TooLong → IfSome (R.left source.old) (λ bytes.
        IfSome (R.left source.new) (λ rest. length bytes ≡ length rest + (limit + 1))) }
    ensures only_too_long { IfSome (R.left source.old) (λ bytes. IfSome (R.left source.new) (λ rest.
        length bytes ≡ length rest + (limit + 1) → (result ≡ Status.TooLong) ⊎ (result ≡ Status.Memory))) }
    ensures not_utf8 { result ≡ Status.NotUtf8
        → IfSome (R.left source.old) (λ bytes. IsAtEnd (R.left source.new) × (IsUtf8 bytes → ⊥)) }
    ensures too_narrow { (job : Job) → job_of (map string_bytes words.now) ≡ Some job → result ≡ Status.TooNarrow
        → IfSome (R.left source.old) (λ bytes. IsAtEnd (R.left source.new) × IsNarrow job bytes) }
    ensures write_fault { (job : Job) → job_of (map string_bytes words.now) ≡ Some job → result ≡ Status.WriteFault
        → Rose (W.faults sink.old) (W.faults sink.new)
        × IfSome (R.left source.old) (λ bytes. IsAtEnd (R.left source.new)
        × WroteSome (change_of W.written W.faults sink.old sink.new) (shown job bytes)) }
    ensures untouched { (result ≡ Status.Done → ⊥) → (result ≡ Status.WriteFault → ⊥) → sink.new ≡ sink.old }
    ensures complete { (job : Job) → job_of (map string_bytes words.now) ≡ Some job
        → IsSomeAnd (R.left source.old) (λ bytes. (length bytes ≤ limit) × IsShowable job bytes)
        → (Rose (R.faults source.old) (R.faults source.new) → ⊥)
        → (Rose (W.faults sink.old) (W.faults sink.new) → ⊥)
        → (result ≡ Status.Done) ⊎ (result ≡ Status.Memory) }
{
    run_words(alloc, words, source, sink)
}
