//! The ends on their happy path, and where they fail.
use crate::{Failed, MemorySink, MemorySource, Sink, Source};
use std::test::Fail;

#[test]
fn a_source_gives_its_bytes_in_parts_and_fails_where_listed(rt: HostRuntime) -> Result<(), Fail> {
    let alloc = rt.alloc();
    let bytes = Vec::from_slice(alloc, b"abc".as_slice())?;
    let mut source = MemorySource::new(bytes, 2, vec![in alloc; 2u64]?);
    let mut part = [0u8; 4];
    assert_eq!(rt; source.read(&mut part[..]), Ok(2));
    assert_eq!(rt; &part[..2], b"ab".as_slice());
    assert_eq!(rt; source.read(&mut part[..]), Err(Failed));
    assert_eq!(rt; source.read(&mut part[..]), Ok(1));
    assert_eq!(rt; &part[..1], b"c".as_slice());
    assert_eq!(rt; source.read(&mut part[..]), Ok(0));
    Ok(())
}

#[test]
fn a_sink_takes_bytes_in_parts_until_its_room_is_used_up(rt: HostRuntime) -> Result<(), Fail> {
    let alloc = rt.alloc();
    let mut sink = MemorySink::new(alloc, 3, 2, Vec::new(alloc))?;
    assert_eq!(rt; sink.write(b"abcd".as_slice()), Ok(2));
    assert_eq!(rt; sink.write(b"cd".as_slice()), Ok(1));
    assert_eq!(rt; sink.write(b"d".as_slice()), Err(Failed));
    assert_eq!(rt; sink.written(), b"abc".as_slice());
    Ok(())
}
