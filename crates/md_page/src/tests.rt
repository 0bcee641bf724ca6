//! The program and the call by example.
ghost use Rattle.std.specs.Prelude.{◌≤◌};

use crate::{MemorySink, MemorySource, Status, ViewError, render_view, run};
use md_text::{NoHighlight, Options};
use std::alloc::{AllocError, Global};
use std::test::Fail;
use term_core::{Buffer, Rect};

/// The status of a run over ends in memory, and what it wrote.
fn ran(
    alloc: Global,
    words: &[&str],
    input: &[u8],
    most: usize,
    fails: u64,
) -> Result<(Status, Vec<u8>), AllocError>
    requires { 1 ≤ most }
{
    let mut owned = Vec::new(alloc);
    for word in words {
        owned.push(String::from_str(alloc, word)?)?;
    }
    let mut source = MemorySource::new(Vec::from_slice(alloc, input)?, 1000, Vec::new(alloc));
    let mut sink = MemorySink::new(alloc, 1000, most, vec![in alloc; fails]?)?;
    let status = run(alloc, &owned, &mut source, &mut sink);
    Ok((status, Vec::from_slice(alloc, sink.written())?))
}

#[test]
fn views_are_printed_with_the_number_of_rows(rt: HostRuntime) -> Result<(), Fail> {
    let alloc = rt.alloc();
    let rows = [
        (
            ["20", "2", "0"],
            "Hello, world!",
            "Hello, world!\n\nrows 1\n",
        ),
        (["5", "1", "0"], "", "\nrows 0\n"),
        (["5", "2", "0"], "aa bb cc", "aa bb\ncc\nrows 2\n"),
        (["5", "2", "0"], "abcdefgh", "abcde\nfgh\nrows 2\n"),
        (["5", "2", "1"], "aa bb cc", "cc\n\nrows 2\n"),
        (["5", "2", "9"], "aa bb cc", "\n\nrows 2\n"),
        (["5", "2", "0"], "ab  \ncd", "ab\ncd\nrows 2\n"),
        (["5", "1", "0"], "ab\ncd", "ab cd\nrows 1\n"),
        (["5", "3", "0"], "a\n\nb", "a\n\nb\nrows 3\n"),
        (["0", "2", "0"], "a", "\n\nrows 0\n"),
    ];
    for (words, input, wanted) in rows {
        let (status, written) = ran(alloc, words.as_slice(), input.as_bytes(), 1000, 0)?;
        assert_eq!(rt; status, Status::Done, "{input}");
        assert_eq!(rt; written.as_slice(), wanted.as_bytes(), "{input}");
    }
    Ok(())
}

#[test]
fn refusals_write_nothing(rt: HostRuntime) -> Result<(), Fail> {
    let alloc = rt.alloc();
    let rows = [
        (["20", "2", "x"], "a", Status::Usage),
        (["1001", "2", "0"], "a", Status::Usage),
        (["20", "2", "-1"], "a", Status::Usage),
        (["1", "1", "0"], "漢", Status::TooNarrow),
    ];
    for (words, input, wanted) in rows {
        let (status, written) = ran(alloc, words.as_slice(), input.as_bytes(), 1000, 0)?;
        assert_eq!(rt; status, wanted, "{input}");
        assert_eq!(rt; written.len(), 0, "{input}");
    }
    let (status, _) = ran(alloc, ["20", "2"].as_slice(), b"a".as_slice(), 1000, 0)?;
    assert_eq!(rt; status, Status::Usage);
    let (status, _) = ran(
        alloc,
        ["5", "1", "0"].as_slice(),
        b"\xff".as_slice(),
        1000,
        0,
    )?;
    assert_eq!(rt; status, Status::NotUtf8);
    Ok(())
}

#[test]
fn a_fault_leaves_what_was_written_before_it(rt: HostRuntime) -> Result<(), Fail> {
    let alloc = rt.alloc();
    let (status, written) = ran(
        alloc,
        ["20", "2", "0"].as_slice(),
        b"Hello, world!".as_slice(),
        4,
        2,
    )?;
    assert_eq!(rt; status, Status::WriteFault);
    assert_eq!(rt; written.as_slice(), b"Hell".as_slice());
    Ok(())
}

#[test]
fn a_source_that_fails_or_is_too_long_is_refused(rt: HostRuntime) -> Result<(), Fail> {
    let alloc = rt.alloc();
    let mut words = Vec::new(alloc);
    for word in ["20", "2", "0"] {
        words.push(String::from_str(alloc, word)?)?;
    }
    let mut sink = MemorySink::new(alloc, 1000, 1000, Vec::new(alloc))?;
    let mut failing = MemorySource::new(
        Vec::from_slice(alloc, b"a".as_slice())?,
        1,
        vec![in alloc; 1u64]?,
    );
    assert_eq!(rt;
        run(alloc, &words, &mut failing, &mut sink),
        Status::ReadFault
    );
    let mut long = MemorySource::new(vec![in alloc; b'a'; 16_777_217]?, 65_536, Vec::new(alloc));
    assert_eq!(rt; run(alloc, &words, &mut long, &mut sink), Status::TooLong);
    assert_eq!(rt; sink.written().len(), 0);
    Ok(())
}

/// The number of rows of the page of a text, drawn without options.
fn rows_drawn(
    alloc: Global,
    markdown: &[u8],
    area: Rect,
    buf: &mut Buffer,
) -> Result<usize, ViewError> {
    let options = Options::default();
    let page = render_view(alloc, markdown, &options, &NoHighlight, area, 0, buf)?;
    Ok(page.len())
}

#[test]
fn a_view_is_drawn_or_refused_and_changes_nothing_else(rt: HostRuntime) -> Result<(), Fail> {
    let alloc = rt.alloc();
    let mut buffer = Buffer::empty(alloc, Rect::new(0, 0, 2, 1))?;
    let wide = "漢".as_bytes();
    let narrow = rows_drawn(alloc, wide, Rect::new(0, 0, 1, 1), &mut buffer);
    assert_eq!(rt; narrow, Err(ViewError::TooNarrow));
    assert_eq!(rt; buffer.cell(0, 0).map_or("", |cell| cell.symbol()), " ");
    assert_eq!(rt;
        rows_drawn(alloc, wide, Rect::new(0, 0, 2, 1), &mut buffer),
        Ok(1)
    );
    assert_eq!(rt; buffer.cell(0, 0).map_or("", |cell| cell.symbol()), "漢");
    assert_eq!(rt; buffer.cell(1, 0).map_or("", |cell| cell.symbol()), " ");
    let none = Rect::new(0, 0, 0, 1);
    let broken = rows_drawn(alloc, b"\xff".as_slice(), none, &mut buffer);
    assert_eq!(rt; broken, Err(ViewError::NotUtf8));
    assert_eq!(rt;
        rows_drawn(alloc, b" ".as_slice(), none, &mut buffer),
        Ok(0)
    );
    Ok(())
}

#[test]
fn views_of_the_usual_and_of_the_greatest_size(rt: HostRuntime) -> Result<(), Fail> {
    let alloc = rt.alloc();
    for (width, height) in [(80, 24), (1000, 1000)] {
        let area = Rect::new(0, 0, width, height);
        let mut buffer = Buffer::empty(alloc, area)?;
        let drawn = rows_drawn(alloc, b"a\n\n# b\n".as_slice(), area, &mut buffer);
        assert_eq!(rt; drawn, Ok(3));
        for (x, y, wanted) in [
            (0, 0, "a"),
            (0, 1, " "),
            (0, 2, "#"),
            (2, 2, "b"),
            (79, 23, " "),
        ] {
            let symbol = buffer.cell(x, y).map_or("", |cell| cell.symbol());
            assert_eq!(rt; symbol, wanted, "at {x} {y}");
        }
    }
    Ok(())
}
