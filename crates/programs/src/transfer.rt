// A whole source read, and a whole output written.
ghost use Rattle.std.specs.Prelude.{◌≡◌, ◌<◌, ◌≤◌, length, IfOk, OnOk, IfErr};
ghost use Rattle.programs.specs.Reading.{TookAll, Stopped, IsStep, StopsStep, change_of, limit};
ghost use Rattle.programs.specs.Writing.{WroteAll, WroteSome};

use crate::status::Status;
use ends::{Sink, Source};
use std::alloc::Global;

/// The greatest number of bytes that a run reads.
const LIMIT: usize = 16_777_216;

/// How many bytes one read asks for.
const PART: usize = 65_536;

/// One read, behind the bytes so far: whether there may be more.
fn read_some<R: Source>(
    source: &mut R,
    part: &mut [u8],
    bytes: &mut Vec<u8>,
) -> Result<bool, Status>
    requires room { 0 < length part.old }
    requires short { length bytes.old.items ≤ limit }
    ensures later { R.faults source.old ≤ R.faults source.new }
    ensures step { IfOk result (λ more.
        IsStep more (change_of R.left R.faults source.old source.new) bytes.old.items bytes.new.items) }
    ensures stopped { IfErr result (λ status.
        StopsStep status (change_of R.left R.faults source.old source.new) bytes.old.items) }
{
    let want = part.len().min(LIMIT + 1 - bytes.len());
    let Ok(count) = source.read(&mut part[..want]) else {
        return Err(Status::ReadFault);
    };
    if count == 0 {
        return Ok(false);
    }
    if bytes.extend_from_slice(&part[..count]).is_err() {
        return Err(Status::Memory);
    }
    Ok(true)
}

/// All that is left of a source, if that is at most 16,777,216 bytes; else `TooLong` after one byte more.
///
/// `ReadFault` comes only by a fault of the source, `Memory` where there is none. What was taken stays taken. The first
/// read that fails ends it: after every other answer none has.
pub fn read_all<R: Source>(alloc: Global, source: &mut R) -> Result<Vec<u8>, Status>
    ensures later { R.faults source.old ≤ R.faults source.new }
    ensures ok { IfOk result (λ bytes. TookAll (change_of R.left R.faults source.old source.new) bytes.items) }
    ensures stopped { IfErr result (λ status. Stopped status (change_of R.left R.faults source.old source.new)) }
{
    let mut bytes = Vec::new(alloc);
    let Ok(mut part) = vec![in alloc; 0u8; PART] else {
        return Err(Status::Memory);
    };
    'reading: while bytes.len() <= LIMIT {
        match read_some(source, &mut part, &mut bytes) {
            Ok(true) => {}
            Ok(false) => return Ok(bytes),
            Err(status) => return Err(status),
        }
    }
    Err(Status::TooLong)
}

/// Writes all the bytes; takes no memory.
///
/// `WriteFault` comes only by a fault of the sink, after a part of the bytes. After `Ok` no write has failed.
pub fn write_all<W: Sink>(bytes: &[u8], sink: &mut W) -> Result<(), Status>
    ensures later { W.faults sink.old ≤ W.faults sink.new }
    ensures ok { OnOk result (WroteAll (change_of W.written W.faults sink.old sink.new) bytes.now) }
    ensures failed { IfErr result (λ status. (status ≡ Status.WriteFault)
        × WroteSome (change_of W.written W.faults sink.old sink.new) bytes.now) }
{
    let mut rest = bytes;
    'writing: while !rest.is_empty() {
        let Ok(count) = sink.write(rest) else {
            return Err(Status::WriteFault);
        };
        rest = &rest[count..];
    }
    Ok(())
}
