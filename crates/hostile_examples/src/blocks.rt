//! Lines that begin many blocks, or none.
use crate::texts::{event_count, times};
use std::test::Fail;

/// How often each part stands.
const COUNT: usize = 1_000_000;

#[test]
fn lines_of_one_paragraph_are_read_once(rt: HostRuntime) -> Result<(), Fail> {
    let alloc = rt.alloc();
    // a text for each line, soft breaks between them, and the paragraph round them
    for part in ["a\n", "|a|\n", "a|-\n", "#a\n", "1.a\n"] {
        let text = times(alloc, part, COUNT)?;
        assert_eq!(rt; event_count(alloc, text.as_str())?, 2 * COUNT + 1, "{part}");
    }
    Ok(())
}

#[test]
fn containers_end_at_their_depth(rt: HostRuntime) -> Result<(), Fail> {
    let alloc = rt.alloc();
    // 32 quotes and a paragraph; 32 tight lists of an item each and a text
    for (part, wanted) in [(">", 67usize), ("- ", 129)] {
        let mut text = times(alloc, part, COUNT)?;
        text.push_str("a")?;
        assert_eq!(rt; event_count(alloc, text.as_str())?, wanted, "{part}");
    }
    Ok(())
}

#[test]
fn a_fence_that_does_not_end_holds_all_lines(rt: HostRuntime) -> Result<(), Fail> {
    let alloc = rt.alloc();
    let mut text = String::from_str(alloc, "```\n")?;
    text.push_str(times(alloc, "~~~ a\n", COUNT)?.as_str())?;
    // each line is its text and its end
    assert_eq!(rt; event_count(alloc, text.as_str())?, 2 * COUNT + 2);
    Ok(())
}

#[test]
fn empty_lines_between_items_are_passed_once(rt: HostRuntime) -> Result<(), Fail> {
    let alloc = rt.alloc();
    let mut text = String::from_str(alloc, "- a\n  - b\n    - c\n")?;
    text.push_str(times(alloc, "\n", COUNT)?.as_str())?;
    text.push_str("- d\n")?;
    assert_eq!(rt; event_count(alloc, text.as_str())?, 22);
    Ok(())
}

#[test]
fn html_that_does_not_end_holds_all_lines(rt: HostRuntime) -> Result<(), Fail> {
    let alloc = rt.alloc();
    for (first, part) in [
        ("<!-- a\n", "-- >\n"),
        ("<pre>\n", "</pre</style\n"),
        ("<p>\n", "<p>\n"),
    ] {
        let mut text = String::from_str(alloc, first)?;
        text.push_str(times(alloc, part, COUNT)?.as_str())?;
        // each line is its text and its end
        assert_eq!(rt;
            event_count(alloc, text.as_str())?,
            2 * COUNT + 4,
            "{first}"
        );
    }
    Ok(())
}

#[test]
fn titles_footnotes_and_metadata_are_read_once(rt: HostRuntime) -> Result<(), Fail> {
    let alloc = rt.alloc();
    // a title and a description, each with its text
    let text = times(alloc, "a\n: b\n", COUNT)?;
    assert_eq!(rt; event_count(alloc, text.as_str())?, 6 * COUNT + 2);
    let text = times(alloc, "[^a]:\n", COUNT)?;
    assert_eq!(rt; event_count(alloc, text.as_str())?, 2 * COUNT);
    // dashes that no metadata stands behind, since no such line follows the next
    let mut text = String::from_str(alloc, "---\n")?;
    text.push_str(times(alloc, "a\n", COUNT)?.as_str())?;
    assert_eq!(rt; event_count(alloc, text.as_str())?, 2 * COUNT + 2);
    Ok(())
}
