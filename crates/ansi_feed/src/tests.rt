// What feeds keep, and what is printed of it, on examples.
use crate::{Feed, FeedError, run_plain};
use ends::{MemorySink, MemorySource};
use programs::Status;
use std::alloc::{AllocError, Global};
use std::fmt::Write;
use std::test::Fail;
use term_text::Style;

/// The lines that are kept, each span with its foreground where its style sets something, and LF behind each line.
fn shown(alloc: Global, feed: &Feed) -> Result<String, AllocError> {
    let mut out = String::new(alloc);
    for index in 0..feed.len() {
        if let Some(line) = feed.line(index) {
            for span in line.spans() {
                let style = span.style();
                out.push_str(span.text())?;
                if style != Style::new() {
                    let fg = style.fg;
                    write!(out, "({fg:?})")?;
                }
                out.push_str("|")?;
            }
        }
        out.push_str("\n")?;
    }
    Ok(out)
}

/// What a feed of this bound keeps of the pieces, and of the same with their last line finished.
fn kept(alloc: Global, bound: usize, pieces: &[&[u8]]) -> Result<(String, String), Fail> {
    let mut feed = Feed::new(alloc, bound);
    for piece in pieces {
        feed.push(piece)?;
    }
    let before = shown(alloc, &feed)?;
    feed.finish()?;
    Ok((before, shown(alloc, &feed)?))
}

#[test]
fn the_last_lines_are_kept(rt: HostRuntime) -> Result<(), Fail> {
    let alloc = rt.alloc();
    let (before, after) = kept(alloc, 2, &[b"a\n\x1b[31mb\nc".as_slice()])?;
    assert_eq!(rt; before.as_str(), "a|\nb(Some(Red))|\n");
    assert_eq!(rt; after.as_str(), "b(Some(Red))|\nc(Some(Red))|\n");
    let (before, after) = kept(alloc, 0, &[b"a\nb".as_slice()])?;
    assert_eq!(rt; before.as_str(), "");
    assert_eq!(rt; after.as_str(), "");
    let (before, after) = kept(
        alloc,
        1,
        &[b"a\r".as_slice(), b"".as_slice(), b"\n\n".as_slice()],
    )?;
    assert_eq!(rt; before.as_str(), "\n");
    assert_eq!(rt; after.as_str(), "\n");
    Ok(())
}

#[test]
fn lines_come_in_pieces(rt: HostRuntime) -> Result<(), Fail> {
    let alloc = rt.alloc();
    let mut feed = Feed::new(alloc, 9);
    feed.push(b"a\x1b[3")?;
    assert_eq!(rt; shown(alloc, &feed)?.as_str(), "");
    feed.push(b"1mb\r")?;
    assert_eq!(rt; shown(alloc, &feed)?.as_str(), "a|b(Some(Red))|\n");
    feed.push(b"\nc")?;
    assert_eq!(rt; shown(alloc, &feed)?.as_str(), "a|b(Some(Red))|\n");
    feed.finish()?;
    assert_eq!(rt;
        shown(alloc, &feed)?.as_str(),
        "a|b(Some(Red))|\nc(Some(Red))|\n"
    );
    feed.finish()?;
    assert_eq!(rt; feed.len(), 2);
    assert_eq!(rt; feed.bound(), 9);
    assert!(rt; feed.line(2).is_none());
    Ok(())
}

#[test]
fn every_cut_gives_the_same_lines(rt: HostRuntime) -> Result<(), Fail> {
    let alloc = rt.alloc();
    let bytes = b"a\x1b[31mb\r\nc".as_slice();
    for at in 0..bytes.len() + 1 {
        let (before, after) = kept(alloc, 9, &[&bytes[..at], &bytes[at..]])?;
        assert_eq!(rt; before.as_str(), "a|b(Some(Red))|\n");
        assert_eq!(rt; after.as_str(), "a|b(Some(Red))|\nc(Some(Red))|\n");
        let (_, after) = kept(alloc, 1, &[&bytes[..at], &bytes[at..]])?;
        assert_eq!(rt; after.as_str(), "c(Some(Red))|\n");
    }
    Ok(())
}

#[test]
fn a_refused_piece_changes_nothing(rt: HostRuntime) -> Result<(), Fail> {
    let alloc = rt.alloc();
    let mut feed = Feed::new(alloc, 9);
    assert!(rt; feed.push(b"\xff\n") == Err(FeedError::Utf8Error));
    assert_eq!(rt; feed.len(), 0);
    feed.push(b"\xc3")?;
    assert_eq!(rt; feed.len(), 0);
    feed.push(b"\xa9\n")?;
    assert_eq!(rt; shown(alloc, &feed)?.as_str(), "é|\n");
    feed.push(b"\xff")?;
    assert!(rt; feed.finish() == Err(FeedError::Utf8Error));
    assert!(rt; feed.push(b"a\nb\n") == Err(FeedError::Utf8Error));
    assert_eq!(rt; shown(alloc, &feed)?.as_str(), "é|\n");
    Ok(())
}

#[test]
fn texts_of_refusals_are_printed(rt: HostRuntime) -> Result<(), Fail> {
    let alloc = rt.alloc();
    let (memory, text) = (FeedError::Memory, FeedError::Utf8Error);
    let printed = format!(in alloc; "{memory}, {text}")?;
    assert_eq!(rt; printed.as_str(), "out of memory, text is not UTF-8");
    Ok(())
}

/// The status of a run over an input in pieces of at most `most` bytes, where these calls fail, and what it wrote.
fn ran(
    alloc: Global,
    words: &[&str],
    input: &[u8],
    most: usize,
    reads: &[u64],
    writes: &[u64],
) -> Result<(Status, Vec<u8>), AllocError> {
    let mut args = Vec::new(alloc);
    for word in words {
        args.push(String::from_str(alloc, word)?)?;
    }
    let bytes = Vec::from_slice(alloc, input)?;
    let mut source = MemorySource::new(bytes, most.max(1), Vec::from_slice(alloc, reads)?);
    let mut sink = MemorySink::new(alloc, 99, 2, Vec::from_slice(alloc, writes)?)?;
    let status = run_plain(alloc, args.as_slice(), &mut source, &mut sink);
    Ok((status, Vec::from_slice(alloc, sink.written())?))
}

#[test]
fn the_last_lines_are_printed_plain(rt: HostRuntime) -> Result<(), Fail> {
    let alloc = rt.alloc();
    let input = b"a\n\x1b[31mb\nc".as_slice();
    for most in 1..=input.len() {
        let (status, output) = ran(alloc, &["2"], input, most, &[], &[])?;
        assert_eq!(rt; status, Status::Done);
        assert_eq!(rt; output.as_slice(), b"b\nc\n".as_slice());
    }
    let (status, output) = ran(alloc, &["9"], b"aCR\rb\r\n\x1b[1mc\td\x07", 99, &[], &[])?;
    assert_eq!(rt; status, Status::Done);
    assert_eq!(rt; output.as_slice(), b"aCR\nb\nc\td\x07\n".as_slice());
    let (status, output) = ran(alloc, &["9"], b"", 99, &[], &[])?;
    assert_eq!(rt; (status, output.len()), (Status::Done, 0));
    let (status, output) = ran(alloc, &["9"], b"\n", 99, &[], &[])?;
    assert_eq!(rt;
        (status, output.as_slice()),
        (Status::Done, b"\n".as_slice())
    );
    Ok(())
}

#[test]
fn other_words_are_refused(rt: HostRuntime) -> Result<(), Fail> {
    let alloc = rt.alloc();
    let refused: [&[&str]; 6] = [
        &[],
        &["x"],
        &["100001"],
        &["1", "2"],
        &[""],
        &["000000000000000000001"],
    ];
    for words in refused {
        let (status, output) = ran(alloc, words, b"a", 9, &[1], &[])?;
        assert_eq!(rt; (status, output.len()), (Status::Usage, 0));
    }
    let (status, output) = ran(alloc, &["00000000000000100000"], b"a", 9, &[], &[])?;
    assert_eq!(rt;
        (status, output.as_slice()),
        (Status::Done, b"a\n".as_slice())
    );
    Ok(())
}

#[test]
fn refusals_come_in_the_order_of_the_calls(rt: HostRuntime) -> Result<(), Fail> {
    let alloc = rt.alloc();
    let bad = b"\xff\nabc".as_slice();
    // Pieces of two bytes: the first has the bad line, and each later call can fail.
    let (status, _) = ran(alloc, &["1"], bad, 2, &[1], &[])?;
    assert_eq!(rt; status, Status::ReadFault);
    let (status, _) = ran(alloc, &["1"], bad, 2, &[2], &[])?;
    assert_eq!(rt; status, Status::NotUtf8);
    // The bad line ends in the second piece, or at the end of the source.
    let (status, _) = ran(alloc, &["1"], bad, 1, &[2], &[])?;
    assert_eq!(rt; status, Status::ReadFault);
    let (status, _) = ran(alloc, &["1"], b"a\n\xff", 9, &[], &[])?;
    assert_eq!(rt; status, Status::NotUtf8);
    let (status, _) = ran(alloc, &["1"], b"a\n\xff", 9, &[2], &[])?;
    assert_eq!(rt; status, Status::ReadFault);
    Ok(())
}

#[test]
fn each_failing_write_leaves_what_was_written_before_it(rt: HostRuntime) -> Result<(), Fail> {
    let alloc = rt.alloc();
    for failing in 1u64..=3 {
        let (status, output) = ran(alloc, &["2"], b"ab\ncd\n", 9, &[], &[failing])?;
        assert_eq!(rt; status, Status::WriteFault);
        assert_eq!(rt; output.len() as u64, 2 * (failing - 1));
    }
    Ok(())
}

#[test]
fn too_many_bytes_are_refused_before_what_stands_in_them(rt: HostRuntime) -> Result<(), Fail> {
    let alloc = rt.alloc();
    for (end, limit) in [(b'a', Status::Done), (0xff, Status::NotUtf8)] {
        let mut most = vec![in alloc; b'a'; 16_777_215]?;
        most.push(end)?;
        let mut more = Vec::from_slice(alloc, most.as_slice())?;
        more.push(b'\n')?;
        let word = vec![in alloc; String::from_str(alloc, "0")?]?;
        let mut sink = MemorySink::new(alloc, 9, 9, Vec::new(alloc))?;
        let mut source = MemorySource::new(most, 1_048_576, Vec::new(alloc));
        assert_eq!(rt;
            run_plain(alloc, word.as_slice(), &mut source, &mut sink),
            limit
        );
        // One call brings the byte that is too much and the end of the bad line.
        let mut source = MemorySource::new(more, 1_048_576, Vec::new(alloc));
        assert_eq!(rt;
            run_plain(alloc, word.as_slice(), &mut source, &mut sink),
            Status::TooLong
        );
    }
    Ok(())
}
