//! Runs over ends in memory.
use md_page::{MemorySink, MemorySource, Status, run};
use std::alloc::{AllocError, Global};

/// The status of a run on an input that comes 7 bytes a call, and what it wrote, 5 bytes a call.
pub(crate) fn ran(
    alloc: Global,
    words: &str,
    input: &str,
) -> Result<(Status, Vec<u8>), AllocError> {
    let mut owned = Vec::new(alloc);
    for word in words.split(' ') {
        owned.push(String::from_str(alloc, word)?)?;
    }
    let bytes = Vec::from_slice(alloc, input.as_bytes())?;
    let mut source = MemorySource::new(bytes, 7, Vec::new(alloc));
    let mut sink = MemorySink::new(alloc, 10_000, 5, Vec::new(alloc))?;
    let status = run(alloc, &owned, &mut source, &mut sink);
    Ok((status, Vec::from_slice(alloc, sink.written())?))
}
