//! The loops over a source and a sink where each call fails in turn, and numbers in words.
use crate::{Status, number, read_all, write_all};
use ends::{MemorySink, MemorySource};
use std::test::Fail;

#[test]
fn each_failing_read_stops_with_a_fault_and_none_is_tried_again(
    rt: HostRuntime,
) -> Result<(), Fail> {
    let alloc = rt.alloc();
    for failing in 1u64..=4 {
        let bytes = Vec::from_slice(alloc, b"abc".as_slice())?;
        let mut source = MemorySource::new(bytes, 1, vec![in alloc; failing]?);
        assert_eq!(rt;
            read_all(alloc, &mut source),
            Err(Status::ReadFault),
            "{failing}"
        );
    }
    let bytes = Vec::from_slice(alloc, b"abc".as_slice())?;
    let mut source = MemorySource::new(bytes, 1, vec![in alloc; 5u64]?);
    match read_all(alloc, &mut source) {
        Ok(read) => assert_eq!(rt; read.as_slice(), b"abc".as_slice()),
        Err(status) => assert_eq!(rt; status, Status::Done),
    }
    Ok(())
}

#[test]
fn the_last_byte_that_is_too_much_is_too_long(rt: HostRuntime) -> Result<(), Fail> {
    let alloc = rt.alloc();
    let mut most = MemorySource::new(vec![in alloc; b'a'; 16_777_216]?, 65_536, Vec::new(alloc));
    let all = read_all(alloc, &mut most).map(|bytes| bytes.len());
    assert_eq!(rt; all, Ok(16_777_216));
    let mut more = MemorySource::new(vec![in alloc; b'a'; 16_777_217]?, 65_536, Vec::new(alloc));
    assert_eq!(rt; read_all(alloc, &mut more), Err(Status::TooLong));
    Ok(())
}

#[test]
fn each_failing_write_leaves_what_was_written_before_it(rt: HostRuntime) -> Result<(), Fail> {
    let alloc = rt.alloc();
    let text = b"abc".as_slice();
    for failing in 1u64..=3 {
        let mut sink = MemorySink::new(alloc, 9, 1, vec![in alloc; failing]?)?;
        assert_eq!(rt;
            write_all(text, &mut sink),
            Err(Status::WriteFault),
            "{failing}"
        );
        assert_eq!(rt; sink.written().len() as u64, failing - 1);
    }
    let mut sink = MemorySink::new(alloc, 9, 1, vec![in alloc; 4u64]?)?;
    assert_eq!(rt; write_all(text, &mut sink), Ok(()));
    assert_eq!(rt; sink.written(), text);
    Ok(())
}

#[test]
fn numbers_have_one_to_twenty_digits_and_a_limit(rt: HostRuntime) -> Result<(), Fail> {
    assert_eq!(rt; number("00000000000000000042", 42), Some(42));
    assert_eq!(rt; number("18446744073709551615", u64::MAX), Some(u64::MAX));
    for refused in [
        "",
        "43",
        "000000000000000000042",
        "+1",
        " 1",
        "1 ",
        "-1",
        "1x",
    ] {
        assert_eq!(rt; number(refused, 42), None, "{refused}");
    }
    Ok(())
}
