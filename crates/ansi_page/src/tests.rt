//! The program by example, and a printed page read back.
ghost use Rattle.std.specs.Prelude.{◌≤◌};

use crate::{Status, run_ansi};
use ansi_text::bytes_to_text;
use ends::{MemorySink, MemorySource};
use md_page::drawn_view;
use md_words::Job;
use std::alloc::{AllocError, Global};
use std::test::Fail;
use term_ansi::{print_ansi, separable};
use term_core::{Buffer, NoSteps, Rect, Steps};
use term_widgets::Page;

/// The status of a run over ends in memory, and what it wrote.
fn ran(
    alloc: Global,
    words: &[&str],
    input: &[u8],
    most: usize,
    fails: u64,
) -> Result<(Status, Vec<u8>), AllocError>
    requires { 1 ≤ most }
{
    let mut owned = Vec::new(alloc);
    for word in words {
        owned.push(String::from_str(alloc, word)?)?;
    }
    let mut source = MemorySource::new(Vec::from_slice(alloc, input)?, 1000, Vec::new(alloc));
    let mut sink = MemorySink::new(alloc, 4000, most, vec![in alloc; fails]?)?;
    let status = run_ansi(alloc, &owned, &mut source, &mut sink);
    Ok((status, Vec::from_slice(alloc, sink.written())?))
}

#[test]
fn views_are_printed_in_their_looks(rt: HostRuntime) -> Result<(), Fail> {
    let alloc = rt.alloc();
    let rows = [
        (["4", "1", "0"], "**a**b", "\x1b[0;1ma\x1b[0mb\n"),
        (["4", "1", "0"], "# H", "\x1b[0;1;4;46m# H\x1b[0m\n"),
        (["2", "2", "0"], "", "\n\n"),
        (["5", "2", "1"], "aa bb cc", "cc\n\n"),
        (["9", "1", "0"], "`a b`c", "\x1b[0;97;40ma b\x1b[0mc\n"),
        (
            ["9", "3", "0"],
            "| a |\n|---|\n",
            "\x1b[0;90m┌───┐\x1b[0m\n\x1b[0;90m│\x1b[0;1;36m a \x1b[0;90m│\x1b[0m\n\x1b[0;90m├───┤\x1b[0m\n",
        ),
    ];
    for (words, input, wanted) in rows {
        let (status, written) = ran(alloc, words.as_slice(), input.as_bytes(), 4000, 0)?;
        assert_eq!(rt; status, Status::Done, "{input}");
        assert_eq!(rt; written.as_slice(), wanted.as_bytes(), "{input}");
    }
    Ok(())
}

#[test]
fn refusals_write_nothing(rt: HostRuntime) -> Result<(), Fail> {
    let alloc = rt.alloc();
    let rows = [
        (["20", "2", "x"], "a", Status::Usage),
        (["0", "2", "0"], "a", Status::Usage),
        (["20", "0", "0"], "a", Status::Usage),
        (["1001", "2", "0"], "a", Status::Usage),
        (["1", "1", "0"], "漢", Status::TooNarrow),
    ];
    for (words, input, wanted) in rows {
        let (status, written) = ran(alloc, words.as_slice(), input.as_bytes(), 4000, 0)?;
        assert_eq!(rt; status, wanted, "{input}");
        assert_eq!(rt; written.len(), 0, "{input}");
    }
    let broken = b"\xff".as_slice();
    let (status, _) = ran(alloc, ["5", "1", "0"].as_slice(), broken, 4000, 0)?;
    assert_eq!(rt; status, Status::NotUtf8);
    Ok(())
}

#[test]
fn a_fault_leaves_what_was_written_before_it(rt: HostRuntime) -> Result<(), Fail> {
    let alloc = rt.alloc();
    let words = ["4", "1", "0"];
    let (status, written) = ran(alloc, words.as_slice(), b"**a**b".as_slice(), 4, 2)?;
    assert_eq!(rt; status, Status::WriteFault);
    assert_eq!(rt; written.as_slice(), b"\x1b[0;".as_slice());
    Ok(())
}

/// The text that README shows, of the forms that most texts have.
const EXAMPLE: &str =
    "# The lantern {#lantern}\n\n*Nobody* had lit it for a year. Then the storm came,\nthe lamps of the harbour went out ~~all at once~~\none by one, and the **pilot** remembered it.\n\n> [!TIP]\n> Oil stands in the shed:\n>\n> - two cans of the old sort\n>   1. behind the door\n>   2. under the bench\n> - [x] one can of the new\n\n| Oil   | A can burns | Smell              |\n|:------|------------:|--------------------|\n| whale | nine hours  | strong, of the sea |\n| colza | seven hours | *hardly* any       |\n\n## How it is lit\n\nTurn the ring `left`, as the [manual](docs/ring.md) has it.\n\n```sh\nlantern --left 2\n```\n\n1. Wait for the click.\n2. Step back\\!\n\n* * *\n\n漢字 and combined letters, é and e with its accent.\n";

#[test]
fn a_printed_page_is_read_back_to_the_same_cells(rt: HostRuntime) -> Result<(), Fail> {
    let alloc = rt.alloc();
    let job = Job {
        width: 40,
        height: 40,
        scroll: 0,
    };
    let Ok((view, _rows)) = drawn_view(alloc, EXAMPLE.as_bytes(), job) else {
        return Err(Fail::from("no view"));
    };
    assert!(rt; separable(alloc, &view)?);
    let Ok(text) = print_ansi(alloc, &view) else {
        return Err(Fail::from("not printed"));
    };
    let Ok(lines) = bytes_to_text(alloc, text.as_bytes()) else {
        return Err(Fail::from("not read"));
    };
    assert_eq!(rt; lines.lines().len(), 40);
    let Ok(page) = Page::new(alloc, lines, 40) else {
        return Err(Fail::from("no page"));
    };
    let area = Rect::new(0, 0, 40, 40);
    let mut again = Buffer::empty(alloc, area)?;
    let mut probes = Steps::new(NoSteps);
    let mut cuts = Steps::new(NoSteps);
    if again.area().width() == page.width() {
        page.draw(alloc, area, 0, &mut again, &mut probes, &mut cuts)?;
    }
    for y in 0u16..40 {
        for x in 0u16..40 {
            let (Some(one), Some(other)) = (view.cell(x, y), again.cell(x, y)) else {
                return Err(Fail::from("no cell"));
            };
            assert_eq!(rt; one.symbol(), other.symbol(), "{x} {y}");
            assert_eq!(rt; one.fg(), other.fg(), "{x} {y}");
            assert_eq!(rt; one.bg(), other.bg(), "{x} {y}");
            assert_eq!(rt; one.modifier(), other.modifier(), "{x} {y}");
        }
    }
    Ok(())
}
