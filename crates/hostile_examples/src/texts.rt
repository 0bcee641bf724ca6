//! Long texts, and how many events they have.
use md_events::read;
use std::alloc::{AllocError, Global};

/// A part, so many times.
pub(crate) fn times(alloc: Global, part: &str, count: usize) -> Result<String, AllocError> {
    let mut text = String::new(alloc);
    for _ in 0..count {
        text.push_str(part)?;
    }
    Ok(text)
}

/// How many events a text has.
pub(crate) fn event_count(alloc: Global, text: &str) -> Result<usize, AllocError> {
    let events = read(alloc, text)?;
    Ok(events.len())
}
