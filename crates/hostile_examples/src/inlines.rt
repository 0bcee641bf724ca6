//! Paragraphs of marks that find no partner.
use crate::texts::{event_count, times};
use std::test::Fail;

/// How often each part stands.
const COUNT: usize = 400_000;

#[test]
fn openers_and_closers_without_a_partner_are_text(rt: HostRuntime) -> Result<(), Fail> {
    let alloc = rt.alloc();
    let parts = [
        " *a", " **a", " ***a", " _a", " __a", " ~a", " ~~a", " ^a", "a* ", "a_ ", "a^ ",
        "*a **a ", "a ~a ~~",
    ];
    for part in parts {
        let text = times(alloc, part, COUNT)?;
        assert_eq!(rt; event_count(alloc, text.as_str())?, 3, "{part}");
    }
    Ok(())
}

#[test]
fn brackets_without_a_partner_are_text(rt: HostRuntime) -> Result<(), Fail> {
    let alloc = rt.alloc();
    for part in ["[", "]", "[a](", "](", "[a](b "] {
        let text = times(alloc, part, COUNT)?;
        assert_eq!(rt; event_count(alloc, text.as_str())?, 3, "{part}");
    }
    Ok(())
}

#[test]
fn brackets_in_brackets_are_text(rt: HostRuntime) -> Result<(), Fail> {
    let alloc = rt.alloc();
    let mut text = times(alloc, "[", COUNT)?;
    text.push_str("a")?;
    text.push_str(times(alloc, "]", COUNT)?.as_str())?;
    assert_eq!(rt; event_count(alloc, text.as_str())?, 3);
    Ok(())
}

#[test]
fn runs_of_backticks_of_many_lengths_are_text(rt: HostRuntime) -> Result<(), Fail> {
    let alloc = rt.alloc();
    let mut text = String::new(alloc);
    let mut run = String::new(alloc);
    for _ in 0usize..10_000 {
        run.push_str("`")?;
        text.push_str("a")?;
        text.push_str(run.as_str())?;
    }
    assert_eq!(rt; event_count(alloc, text.as_str())?, 3);
    Ok(())
}

#[test]
fn dollars_and_angle_brackets_without_a_partner_are_text(rt: HostRuntime) -> Result<(), Fail> {
    let alloc = rt.alloc();
    let parts = [
        " $a", "$$$$", "<a ", "<http:", "a</", "[^ ", "![", "a <!-- ",
    ];
    for part in parts {
        let text = times(alloc, part, COUNT)?;
        assert_eq!(rt; event_count(alloc, text.as_str())?, 3, "{part}");
    }
    Ok(())
}
