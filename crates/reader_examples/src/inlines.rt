//! The inlines of lines.
use md_inline::write_inlines;
use md_lines::{Line, lines_of};
use md_tree::{Event, Tag, TagEnd};
use std::alloc::{AllocError, Global};
use std::process::Abort;
use std::test::Fail;

/// The inlines of a text's lines: texts in parentheses, `/` for a soft break and `|` for a hard one, and elements in
/// braces behind a letter.
fn shown(alloc: Global, text: &str) -> Result<String, AllocError> {
    let lines = lines_of(alloc, text)?;
    let mut events = Vec::new(alloc);
    write_inlines(alloc, lines.as_slice(), &mut events)?;
    let mut shown = String::new(alloc);
    for event in events.as_slice() {
        show(event, &mut shown)?;
    }
    Ok(shown)
}

fn show(event: &Event, shown: &mut String) -> Result<(), AllocError> {
    match event {
        Event::Text(text) => {
            let text = text.as_str();
            write!(shown, "({text})")
        }
        Event::Code(text) => {
            let text = text.as_str();
            write!(shown, "`{text}`")
        }
        Event::InlineMath(text) => {
            let text = text.as_str();
            write!(shown, "m({text})")
        }
        Event::DisplayMath(text) => {
            let text = text.as_str();
            write!(shown, "d({text})")
        }
        Event::InlineHtml(text) => {
            let text = text.as_str();
            write!(shown, "h({text})")
        }
        Event::FootnoteReference(text) => {
            let text = text.as_str();
            write!(shown, "f({text})")
        }
        Event::SoftBreak => shown.push_str("/"),
        Event::HardBreak => shown.push_str("|"),
        Event::Start(tag) => show_start(tag, shown),
        Event::End(_) => shown.push_str("}"),
        _ => shown.push_str("?"),
    }
}

fn show_start(tag: &Tag, shown: &mut String) -> Result<(), AllocError> {
    match tag {
        Tag::Emphasis => shown.push_str("e{"),
        Tag::Strong => shown.push_str("s{"),
        Tag::Strikethrough => shown.push_str("k{"),
        Tag::Subscript => shown.push_str("b{"),
        Tag::Superscript => shown.push_str("p{"),
        Tag::Link { dest_url } => {
            let dest = dest_url.as_str();
            write!(shown, "a<{dest}>{{")
        }
        Tag::Image { dest_url } => {
            let dest = dest_url.as_str();
            write!(shown, "i<{dest}>{{")
        }
        _ => shown.push_str("?{"),
    }
}

/// Each text is shown as it stands beside it.
fn compare(rt: &impl Abort, alloc: Global, cases: &[(&str, &str)]) -> Result<(), AllocError> {
    for (text, wanted) in cases {
        let found = shown(alloc, text)?;
        assert_eq!(rt; found.as_str(), *wanted);
    }
    Ok(())
}

#[test]
fn lines_end_in_breaks(rt: HostRuntime) -> Result<(), Fail> {
    let cases = [
        ("ab  \ncd", "(ab)|(cd)"),
        ("ab \ncd", "(ab)/(cd)"),
        ("a b  ", "(a b)"),
        ("a\nb \t ", "(a)/(b)"),
    ];
    compare(&rt, rt.alloc(), &cases)?;
    Ok(())
}

#[test]
fn runs_pair_with_the_first_later_run_that_fits(rt: HostRuntime) -> Result<(), Fail> {
    let cases = [
        ("***x***", "s{e{(x)}}"),
        ("*a **b***", "e{(a )s{(b)}}"),
        ("**a***", "s{(a*)}"),
        ("*a***", "e{(a**)}"),
        ("***a** b*", "(***a** b*)"),
        ("*a *b* c*", "e{(a *b)}( c*)"),
        ("****a****", "(****a****)"),
        ("*a**b*", "e{(a**b)}"),
        ("**a*", "(**a*)"),
        ("*a ***", "(*a ***)"),
    ];
    compare(&rt, rt.alloc(), &cases)?;
    Ok(())
}

#[test]
fn no_blank_stands_in_a_subscript(rt: HostRuntime) -> Result<(), Fail> {
    let cases = [
        ("~~a~~ H~2~", "k{(a)}( H)b{(2)}"),
        ("~a b~ x^2^", "(~a b~ x)p{(2)}"),
        ("~`a b`~", "(~)`a b`(~)"),
    ];
    compare(&rt, rt.alloc(), &cases)?;
    Ok(())
}

#[test]
fn an_opener_is_a_link_if_its_balancing_closer_has_a_destination(
    rt: HostRuntime,
) -> Result<(), Fail> {
    let cases = [
        ("[a [b](c) d](e)", "a<e>{(a [b](c) d)}"),
        ("[a] [b](c)", "([a] )a<c>{(b)}"),
        ("[a [b] c](d)", "a<d>{(a [b] c)}"),
        ("[a [b](c)", "([a )a<c>{(b)}"),
        ("[*a](u) [b*](v)", "a<u>{(*a)}( )a<v>{(b*)}"),
        ("[x] (y) a](*b*) *c*", "([x] (y) a](*b*) )e{(c)}"),
        ("![a ![b](c)](d)", "i<d>{(a )i<c>{(b)}}"),
    ];
    compare(&rt, rt.alloc(), &cases)?;
    Ok(())
}

#[test]
fn texts_are_one_where_they_touch(rt: HostRuntime) -> Result<(), Fail> {
    let cases = [("a\\*b", "(a)(*b)"), ("a*b]c", "(a*b]c)")];
    compare(&rt, rt.alloc(), &cases)?;
    Ok(())
}

#[test]
fn leaves_with_texts_of_their_own(rt: HostRuntime) -> Result<(), Fail> {
    compare(
        &rt,
        rt.alloc(),
        &[
            ("a $b$ $5", "(a )m(b)( $5)"),
            ("$$a  \n b$$ c", "d(a  \nb)( c)"),
            ("a<b c>[^d]", "(a)h(<b c>)f(d)"),
            ("*<b>* $*$ *", "e{h(<b>)}( )m(*)( *)"),
        ],
    )?;
    Ok(())
}

#[test]
fn an_address_is_a_link_outside_links(rt: HostRuntime) -> Result<(), Fail> {
    compare(
        &rt,
        rt.alloc(),
        &[
            ("a<http://b>c", "(a)a<http://b>{(http://b)}(c)"),
            ("*<mailto:b>*", "e{a<mailto:b>{(mailto:b)}}"),
            (
                "[a <http:b> *<http:c>*](d)",
                "a<d>{(a <http:b> )e{(<http:c>)}}",
            ),
            ("![a<http:b>](c)", "i<c>{(a)a<http:b>{(http:b)}}"),
            ("[![<http:a>](b)](c)", "a<c>{i<b>{(<http:a>)}}"),
            ("[a<http:b>", "([a)a<http:b>{(http:b)}"),
        ],
    )?;
    Ok(())
}

#[test]
fn code_may_go_on_over_lines(rt: HostRuntime) -> Result<(), Fail> {
    let cases = [
        ("x `` a` `` y", "(x )`a``( y)"),
        ("`a\nb` c\nd", "`a b`( c)/(d)"),
        ("`  `", "`  `"),
    ];
    compare(&rt, rt.alloc(), &cases)?;
    Ok(())
}

/// How many elements stand in so many openers, one in another, and as many closers.
fn nested(alloc: Global, opener: &str, closer: &str, count: u32) -> Result<usize, AllocError> {
    let mut text = String::new(alloc);
    for _ in 0..count {
        text.push_str(opener)?;
    }
    for _ in 0..count {
        text.push_str(closer)?;
    }
    let shown = shown(alloc, text.as_str())?;
    Ok(shown.as_bytes().iter().filter(|b| **b == b'{').count())
}

#[test]
fn images_and_pairs_stand_in_32_levels(rt: HostRuntime) -> Result<(), Fail> {
    assert_eq!(rt; nested(rt.alloc(), "![a", "](u)", 33)?, 32);
    assert_eq!(rt; nested(rt.alloc(), "![*a", "*](u)", 17)?, 33);
    assert_eq!(rt; nested(rt.alloc(), "![***a", "***](u)", 11)?, 31);
    Ok(())
}
