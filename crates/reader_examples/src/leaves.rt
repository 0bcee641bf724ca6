//! The leaves of sources, with their places.
use md_leaves::{Kind, Lone, cut_leaves};
use std::alloc::{AllocError, Global};
use std::test::Fail;

fn shown_lone(lone: Lone) -> &'static str {
    match lone {
        Lone::Text => "text",
        Lone::Escape => "escape",
        Lone::SoftBreak => "soft",
        Lone::HardBreak => "hard",
        Lone::Code { .. } => "code",
        Lone::DisplayMath => "display",
        Lone::InlineMath => "math",
        Lone::Address => "address",
        Lone::Html => "html",
        Lone::FootnoteReference => "footnote",
    }
}

/// What a leaf is, in a word.
fn shown_kind(kind: Kind) -> &'static str {
    match kind {
        Kind::Lone(lone) => shown_lone(lone),
        Kind::Opener { is_image: true } => "image",
        Kind::Opener { .. } => "link",
        Kind::Closer { target: None } => "closer",
        Kind::Closer { .. } => "to",
        Kind::Run {
            opens: true,
            closes: true,
            ..
        } => "both",
        Kind::Run { opens: true, .. } => "opens",
        Kind::Run { closes: true, .. } => "closes",
        Kind::Run { .. } => "neither",
    }
}

/// The leaves of a source, each with its place.
fn shown(alloc: Global, source: &str) -> Result<String, AllocError> {
    let leaves = cut_leaves(alloc, source)?;
    let mut shown = String::new(alloc);
    for leaf in leaves.as_slice() {
        let from = leaf.from;
        let to = leaf.to;
        shown.push_str(shown_kind(leaf.kind))?;
        if let Kind::Closer {
            target: Some(target),
        } = leaf.kind
        {
            let first = target.from;
            let end = target.to;
            write!(shown, "({first}-{end})")?;
        }
        write!(shown, " {from}-{to}, ")?;
    }
    Ok(shown)
}

#[test]
fn escapes_and_breaks(rt: HostRuntime) -> Result<(), Fail> {
    let a = rt.alloc();
    assert_eq!(rt;
        shown(a, "a\\*b")?.as_str(),
        "text 0-1, escape 1-3, text 3-4, "
    );
    assert_eq!(rt; shown(a, "a\\b\\é\\")?.as_str(), "text 0-7, ");
    assert_eq!(rt;
        shown(a, "a \nb  \nc\\\nd\\ \ne")?.as_str(),
        "text 0-1, soft 1-3, text 3-4, hard 4-7, text 7-8, hard 8-10, text 10-12, soft 12-14, text 14-15, "
    );
    assert_eq!(rt;
        shown(a, "a  b\t\t\nc")?.as_str(),
        "text 0-4, hard 4-7, text 7-8, "
    );
    Ok(())
}

#[test]
fn code_ends_at_the_first_run_of_as_many(rt: HostRuntime) -> Result<(), Fail> {
    let a = rt.alloc();
    assert_eq!(rt; shown(a, "``a`b``c")?.as_str(), "code 0-7, text 7-8, ");
    assert_eq!(rt; shown(a, "`a\n*b`")?.as_str(), "code 0-6, ");
    assert_eq!(rt;
        shown(a, "\\``x``")?.as_str(),
        "escape 0-2, text 2-3, text 3-4, text 4-6, "
    );
    assert_eq!(rt;
        shown(a, "\\``x` y")?.as_str(),
        "escape 0-2, code 2-5, text 5-7, "
    );
    assert_eq!(rt; shown(a, "`a\\` b")?.as_str(), "code 0-4, text 4-6, ");
    assert_eq!(rt;
        shown(a, "``a`")?.as_str(),
        "text 0-2, text 2-3, text 3-4, "
    );
    Ok(())
}

#[test]
fn a_closer_takes_its_destination(rt: HostRuntime) -> Result<(), Fail> {
    let a = rt.alloc();
    assert_eq!(rt;
        shown(a, "![a](<b c>)")?.as_str(),
        "image 0-2, text 2-3, to(6-9) 3-11, "
    );
    assert_eq!(rt;
        shown(a, "](b (c) \"t\")")?.as_str(),
        "closer 0-1, text 1-12, "
    );
    assert_eq!(rt;
        shown(a, "](b(c) 't' )x")?.as_str(),
        "to(2-6) 0-12, text 12-13, "
    );
    assert_eq!(rt; shown(a, "]( \"t\")")?.as_str(), "to(3-6) 0-7, ");
    assert_eq!(rt; shown(a, "](b \"t\"x)")?.as_str(), "closer 0-1, text 1-9, ");
    assert_eq!(rt; shown(a, "](b\"t\")")?.as_str(), "to(2-6) 0-7, ");
    assert_eq!(rt; shown(a, "a](*b*)")?.as_str(), "text 0-1, to(3-6) 1-7, ");
    assert_eq!(rt;
        shown(a, "]()](  )](<>)")?.as_str(),
        "to(2-2) 0-3, to(7-7) 3-8, to(11-11) 8-13, "
    );
    assert_eq!(rt;
        shown(a, "](<b>c)](<b)](b\n)")?.as_str(),
        "closer 0-1, text 1-2, html 2-5, text 5-7, to(9-11) 7-12, closer 12-13, text 13-15, soft 15-16, text 16-17, "
    );
    assert_eq!(rt;
        shown(a, "](b\\))](é\u{85})")?.as_str(),
        "to(2-4) 0-5, text 5-6, closer 6-7, text 7-13, "
    );
    Ok(())
}

#[test]
fn runs_look_at_their_neighbours(rt: HostRuntime) -> Result<(), Fail> {
    let a = rt.alloc();
    assert_eq!(rt;
        shown(a, "**a b*c *")?.as_str(),
        "opens 0-2, text 2-5, both 5-6, text 6-8, neither 8-9, "
    );
    assert_eq!(rt;
        shown(a, "a~\n^b")?.as_str(),
        "text 0-1, closes 1-2, soft 2-3, opens 3-4, text 4-5, "
    );
    assert_eq!(rt;
        shown(a, "_a_b_")?.as_str(),
        "opens 0-1, text 1-2, neither 2-3, text 3-4, closes 4-5, "
    );
    assert_eq!(rt;
        shown(a, "é_a_é")?.as_str(),
        "text 0-2, neither 2-3, text 3-4, neither 4-5, text 5-7, "
    );
    assert_eq!(rt;
        shown(a, "\u{a0}_a_\u{3000}")?.as_str(),
        "text 0-2, opens 2-3, text 3-4, closes 4-5, text 5-8, "
    );
    assert_eq!(rt;
        shown(a, "\\**a*")?.as_str(),
        "escape 0-2, both 2-3, text 3-4, closes 4-5, "
    );
    assert_eq!(rt;
        shown(a, "(_\"a\"_)*\u{a0}a")?.as_str(),
        "text 0-1, both 1-2, text 2-5, both 5-6, text 6-7, both 7-8, text 8-11, "
    );
    Ok(())
}

#[test]
fn math_stands_between_dollars(rt: HostRuntime) -> Result<(), Fail> {
    let a = rt.alloc();
    assert_eq!(rt;
        shown(a, "$5 $5-$6 $$")?.as_str(),
        "text 0-1, text 1-3, math 3-7, text 7-9, text 9-11, "
    );
    assert_eq!(rt;
        shown(a, "$a\\$ b$")?.as_str(),
        "math 0-4, text 4-6, text 6-7, "
    );
    assert_eq!(rt;
        shown(a, "$a\n$")?.as_str(),
        "text 0-1, text 1-2, soft 2-3, text 3-4, "
    );
    assert_eq!(rt; shown(a, "$$a\nb$$c")?.as_str(), "display 0-7, text 7-8, ");
    assert_eq!(rt; shown(a, "$$$x$$ y")?.as_str(), "display 0-6, text 6-8, ");
    assert_eq!(rt; shown(a, "$$$$x$$")?.as_str(), "text 0-2, display 2-7, ");
    assert_eq!(rt;
        shown(a, "$$x$")?.as_str(),
        "text 0-2, text 2-3, text 3-4, "
    );
    assert_eq!(rt; shown(a, "$x$$")?.as_str(), "math 0-3, text 3-4, ");
    Ok(())
}

#[test]
fn angle_brackets_hold_addresses_and_tags(rt: HostRuntime) -> Result<(), Fail> {
    let a = rt.alloc();
    assert_eq!(rt;
        shown(a, "<http://a><mailto:b> <https:c d>")?.as_str(),
        "address 0-10, address 10-20, text 20-32, "
    );
    assert_eq!(rt;
        shown(a, "<http:> <HTTP:a> <ftp:a>")?.as_str(),
        "text 0-24, "
    );
    assert_eq!(rt;
        shown(a, "<b></b><br/><a-1 x='y' >< c><2>")?.as_str(),
        "html 0-3, html 3-7, html 7-12, html 12-24, text 24-31, "
    );
    assert_eq!(rt;
        shown(a, "<a\nb><a <b><c_></ d>")?.as_str(),
        "text 0-2, soft 2-3, text 3-8, html 8-11, text 11-13, closes 13-14, text 14-20, "
    );
    Ok(())
}

#[test]
fn a_reference_has_a_label(rt: HostRuntime) -> Result<(), Fail> {
    let a = rt.alloc();
    assert_eq!(rt;
        shown(a, "[^1][^a\\b]")?.as_str(),
        "footnote 0-4, footnote 4-10, "
    );
    assert_eq!(rt;
        shown(a, "![^1][^ 1][^]")?.as_str(),
        "image 0-2, both 2-3, text 3-4, closer 4-5, link 5-6, closes 6-7, text 7-9, closer 9-10, link 10-11, both 11-12, closer 12-13, "
    );
    Ok(())
}
