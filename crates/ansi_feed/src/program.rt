// The program, over any source and any sink.
ghost use Rattle.std.specs.Prelude.{◌≡◌, ◌⊎◌, ℕ, ◌+◌, ◌≤◌, length, Some, None, map, string_bytes, true, false, IfSome, IsSomeAnd};
ghost use Rattle.std.specs.Io.KnownBytes.{Appends, IsAtEnd};
ghost use Rattle.ends.specs.Causes.{Rose, NoFault};
ghost use Rattle.programs.specs.Number.{number_of};
ghost use Rattle.programs.specs.Reading.{change_of, limit};
ghost use Rattle.programs.specs.Writing.{WroteSome};
ghost use Rattle.ansi_text.specs.Ansi.{is_text};
ghost use Rattle.ansi_feed.specs.Plain.{bound_limit, bound_of, log_lines, shown};
ghost use Rattle.ansi_feed.specs.Log.{Logs, Ran};

use crate::plain::printed;
use crate::source::feed_source;
use ends::{Sink, Source};
use programs::{Status, number, write_all};
use std::alloc::Global;

/// The greatest bound.
const BOUND_LIMIT: u64 = 100_000;

/// The bound that the words say, which are exactly one: 1 to 20 ASCII digits, of at most 100,000. Takes no memory.
fn bound_of_words(words: &[String]) -> Option<usize>
    ensures { result ≡ bound_of (map string_bytes words.now) }
{
    let [bound] = words else {
        return None;
    };
    Some(number(bound.as_str(), BOUND_LIMIT)? as usize)
}

/// Prints the last lines of a source.
fn run_bound<R: Source, W: Sink>(
    alloc: Global,
    bound: usize,
    source: &mut R,
    sink: &mut W,
) -> Status
    ensures source_faults { R.faults source.old ≤ R.faults source.new }
    ensures sink_faults { W.faults sink.old ≤ W.faults sink.new }
    ensures ran { Logs bound result
        (change_of R.left R.faults source.old source.new)
        (change_of W.written W.faults sink.old sink.new)
        (sink.new ≡ sink.old) }
{
    let feed = match feed_source(alloc, bound, source) {
        Ok(feed) => feed,
        Err(status) => return status,
    };
    let Ok(output) = printed(alloc, &feed) else {
        return Status::Memory;
    };
    match write_all(&output, sink) {
        Ok(()) => Status::Done,
        Err(status) => status,
    }
}

/// Prints the last lines of a source as the words say.
fn run_words<R: Source, W: Sink>(
    alloc: Global,
    words: &[String],
    source: &mut R,
    sink: &mut W,
) -> Status
    ensures source_faults { R.faults source.old ≤ R.faults source.new }
    ensures sink_faults { W.faults sink.old ≤ W.faults sink.new }
    ensures ran { Ran (bound_of (map string_bytes words.now)) result
        (change_of R.left R.faults source.old source.new)
        (change_of W.written W.faults sink.old sink.new)
        (source.new ≡ source.old)
        (sink.new ≡ sink.old) }
{
    match bound_of_words(words) {
        Some(bound) => run_bound(alloc, bound, source, sink),
        None => Status::Usage,
    }
}

/// Prints the last lines of the ANSI text that a source holds as plain text, each with LF. The one word, BOUND, says how
/// many lines: 1 to 20 digits, of at most 100,000.
///
/// It reads the source piece by piece to its end, at most 16,777,216 bytes, and holds the kept lines, the unfinished one
/// and one piece. The statuses: `Usage`, before any read; then `NotUtf8`, `ReadFault` and `TooLong`, whichever a call of
/// the source brought first, and `TooLong` where one call brings it and `NotUtf8`; `WriteFault`. `Memory` may stand in
/// place of any of them before the first write. `NotUtf8` comes exactly where a line that ended in the bytes taken, or
/// the last line at the end of the source, has a stretch that is not UTF-8.
pub fn run_plain<R: Source, W: Sink>(
    alloc: Global,
    words: &[String],
    source: &mut R,
    sink: &mut W,
) -> Status
    ensures source_faults { R.faults source.old ≤ R.faults source.new }
    ensures sink_faults { W.faults sink.old ≤ W.faults sink.new }

    // All of it, by cases on the status.
    ensures ran { Ran (bound_of (map string_bytes words.now)) result
        (change_of R.left R.faults source.old source.new)
        (change_of W.written W.faults sink.old sink.new)
        (source.new ≡ source.old)
        (sink.new ≡ sink.old) }

    // What is printed is the last lines of the whole input.
    ensures done { (bound : ℕ) → bound_of (map string_bytes words.now) ≡ Some bound → result ≡ Status.Done
        → IfSome (R.left source.old) (λ bytes. IsAtEnd (R.left source.new) × (is_text (log_lines bytes) ≡ true)
        × Appends (W.written sink.old) (W.written sink.new) (shown bound bytes)) }

    // After `Done` no call of either end failed, so no fault was tried over, or a count stands at its last value.
    ensures no_fault { result ≡ Status.Done
        → NoFault (R.faults source.old) (R.faults source.new) × NoFault (W.faults sink.old) (W.faults sink.new) }

    // When each other status comes, and what it leaves.
    ensures usage { result ≡ Status.Usage → bound_of (map string_bytes words.now) ≡ None }
    ensures refused_words { bound_of (map string_bytes words.now) ≡ None
        → (result ≡ Status.Usage) × (source.new ≡ source.old) × (sink.new ≡ sink.old) }
    ensures read_fault { result ≡ Status.ReadFault → Rose (R.faults source.old) (R.faults source.new) }
    ensures too_long { result ≡ Status.TooLong → IfSome (R.left source.old) (λ bytes.
        IfSome (R.left source.new) (λ rest. length bytes ≡ length rest + (limit + 1))) }
    ensures only_too_long { IfSome (R.left source.old) (λ bytes. IfSome (R.left source.new) (λ rest.
        length bytes ≡ length rest + (limit + 1) → result ≡ Status.TooLong)) }
    ensures not_utf8 { result ≡ Status.NotUtf8 → IfSome (R.left source.old) (λ bytes. is_text (log_lines bytes) ≡ false) }
    ensures write_fault { (bound : ℕ) → bound_of (map string_bytes words.now) ≡ Some bound → result ≡ Status.WriteFault
        → Rose (W.faults sink.old) (W.faults sink.new)
        × IfSome (R.left source.old) (λ bytes. IsAtEnd (R.left source.new)
        × WroteSome (change_of W.written W.faults sink.old sink.new) (shown bound bytes)) }
    ensures never { result ≡ Status.TooNarrow → ⊥ }
    ensures untouched { (result ≡ Status.Done → ⊥) → (result ≡ Status.WriteFault → ⊥) → sink.new ≡ sink.old }
    ensures complete { (bound : ℕ) → bound_of (map string_bytes words.now) ≡ Some bound
        → IsSomeAnd (R.left source.old) (λ bytes. (length bytes ≤ limit) × (is_text (log_lines bytes) ≡ true))
        → (Rose (R.faults source.old) (R.faults source.new) → ⊥)
        → (Rose (W.faults sink.old) (W.faults sink.new) → ⊥)
        → (result ≡ Status.Done) ⊎ (result ≡ Status.Memory) }
{
    run_words(alloc, words, source, sink)
}
