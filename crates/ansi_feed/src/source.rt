// A source that is read into a feed.
ghost use Rattle.std.specs.Prelude.{◌≡◌, ◌+◌, ◌<◌, ◌≤◌, [], length, IfOk, OnOk, IfErr};
ghost use Rattle.programs.specs.Reading.{change_of, limit};
ghost use Rattle.ansi_feed.specs.Feed.{Stands};
ghost use Rattle.ansi_feed.specs.Log.{FedAll, Stopped, Step, StopsStep};

use crate::error::FeedError;
use crate::feed::Feed;
use ends::Source;
use programs::Status;
use std::alloc::Global;

/// The greatest number of bytes that a run reads.
const LIMIT: usize = 16_777_216;

/// How many bytes one read asks for.
const PART: usize = 1_048_576;

/// One read, pushed: how many bytes, 0 at the end.
fn feed_some<R: Source>(
    source: &mut R,
    part: &mut [u8],
    feed: &mut Feed,
    count: usize,
) -> Result<usize, Status>
    requires room { 0 < length part.old }
    requires short { count ≤ limit }
    ensures later { R.faults source.old ≤ R.faults source.new }
    ensures step { IfOk result (λ n.
        Step (change_of R.left R.faults source.old source.new) feed.old feed.new count n) }
    ensures stopped { IfErr result (λ status.
        StopsStep status (change_of R.left R.faults source.old source.new) feed.old count) }
{
    let want = part.len().min(LIMIT + 1 - count);
    let Ok(got) = source.read(&mut part[..want]) else {
        return Err(Status::ReadFault);
    };
    if count + got > LIMIT {
        return Err(Status::TooLong);
    }
    match feed.push(&part[..got]) {
        Ok(()) => Ok(got),
        Err(FeedError::Memory) => Err(Status::Memory),
        Err(FeedError::Utf8Error) => Err(Status::NotUtf8),
    }
}

/// Pushes all that a source has left, if that is at most 16,777,216 bytes, and finishes.
fn feed_all<R: Source>(source: &mut R, part: &mut [u8], feed: &mut Feed) -> Result<(), Status>
    requires room { 0 < length part.old }
    requires empty { Stands feed.old [] }
    ensures later { R.faults source.old ≤ R.faults source.new }
    ensures ok { OnOk result (FedAll feed.old.bound (change_of R.left R.faults source.old source.new) feed.new) }
    ensures stopped { IfErr result (λ status. Stopped status (change_of R.left R.faults source.old source.new)) }
{
    let mut count: usize = 0;
    'reading: while count <= LIMIT {
        match feed_some(source, part, feed, count) {
            Ok(0) => {
                return match feed.finish() {
                    Ok(()) => Ok(()),
                    Err(FeedError::Memory) => Err(Status::Memory),
                    Err(FeedError::Utf8Error) => Err(Status::NotUtf8),
                };
            }
            Ok(got) => count += got,
            Err(status) => return Err(status),
        }
    }
    unreachable!()
}

/// The feed of all that a source has left, if that is at most 16,777,216 bytes, and finished.
///
/// It holds the kept lines, the unfinished one and one piece. A refusal comes with the call of the source that brings it:
/// `NotUtf8` where a line that ended has a stretch that is not UTF-8, `ReadFault` by a fault of the source, and `TooLong`
/// after one byte too many, also where the same call brings both that byte and such a stretch.
pub(crate) fn feed_source<R: Source>(
    alloc: Global,
    bound: usize,
    source: &mut R,
) -> Result<Feed, Status>
    ensures later { R.faults source.old ≤ R.faults source.new }
    ensures ok { IfOk result (λ feed. FedAll bound (change_of R.left R.faults source.old source.new) feed) }
    ensures stopped { IfErr result (λ status. Stopped status (change_of R.left R.faults source.old source.new)) }
{
    let Ok(mut part) = vec![in alloc; 0u8; PART] else {
        return Err(Status::Memory);
    };
    let mut feed = Feed::new(alloc, bound);
    match feed_all(source, &mut part, &mut feed) {
        Ok(()) => Ok(feed),
        Err(status) => Err(status),
    }
}
