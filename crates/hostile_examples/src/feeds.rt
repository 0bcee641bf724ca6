//! Feeds of a long unfinished line.
use crate::texts::times;
use ansi_feed::{Feed, FeedError};
use std::test::Fail;

/// How many bytes are unfinished, and how many pieces are refused.
const COUNT: usize = 2_000_000;

#[test]
fn a_refused_piece_costs_what_it_brings(rt: HostRuntime) -> Result<(), Fail> {
    let alloc = rt.alloc();
    let mut feed = Feed::new(alloc, 2);
    feed.push(times(alloc, "a", COUNT)?.as_bytes())?;
    let mut are_refused = true;
    for _ in 0..COUNT {
        are_refused = are_refused && matches!(feed.push(b"\xff\n"), Err(FeedError::Utf8Error));
    }
    assert!(rt; are_refused);
    feed.push(b"b\n")?;
    assert_eq!(rt; feed.line(0).map(|line| line.width()), Some(COUNT + 1));
    Ok(())
}
