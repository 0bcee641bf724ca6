//! The events of texts.
use crate::shown::{compare, shown};
use std::test::Fail;

#[test]
fn paragraphs_end_at_empty_lines(rt: HostRuntime) -> Result<(), Fail> {
    let rows = [
        ("ab  \ncd", "<p>(ab)|(cd)</p>"),
        ("ab \ncd  ", "<p>(ab)/(cd)</p>"),
        ("\na\n  \n\n b\nc\n", "<p>(a)</p><p>(b)/(c)</p>"),
        ("", ""),
    ];
    compare(&rt, rt.alloc(), &rows)
}

#[test]
fn headings_have_one_to_six_marks(rt: HostRuntime) -> Result<(), Fail> {
    let rows = [
        ("# a", "<h1>(a)</h1>"),
        ("   ###### a", "<h6>(a)</h6>"),
        ("####### a", "<p>(####### a)</p>"),
        ("#a", "<p>(#a)</p>"),
        ("#", "<h1></h1>"),
        ("a\n## b\nc", "<p>(a)</p><h2>(b)</h2><p>(c)</p>"),
        ("# a #", "<h1>(a)</h1>"),
        ("# a#", "<h1>(a#)</h1>"),
        ("# #", "<h1></h1>"),
        ("##  a  ##  ", "<h2>(a)</h2>"),
    ];
    compare(&rt, rt.alloc(), &rows)
}

#[test]
fn headings_have_attributes(rt: HostRuntime) -> Result<(), Fail> {
    let rows = [
        ("# h {#i .c k=v}", "<h1 #i .c k=v>(h)</h1>"),
        ("# h { .a }", "<h1 .a>(h)</h1>"),
        ("# h {#a .b #c}", "<h1 #c .b>(h)</h1>"),
        ("# a {k=v .c #i #j l}", "<h1 #j .c k=v l>(a)</h1>"),
        ("# a {k=v=w =x}", "<h1>(a {k=v=w =x})</h1>"),
        ("# a {k=v=w}", "<h1 k=v=w>(a)</h1>"),
        ("# a {#}", "<h1>(a {#})</h1>"),
        ("# a {}", "<h1>(a {})</h1>"),
        ("# a {x} ##", "<h1>(a {x})</h1>"),
        ("# a ## {x}", "<h1 x>(a)</h1>"),
        ("# a {b} {c}", "<h1 c>(a {b})</h1>"),
        ("# a {b}}", "<h1>(a {b}})</h1>"),
        ("# {#i}", "<h1 #i></h1>"),
    ];
    compare(&rt, rt.alloc(), &rows)
}

#[test]
fn fences_hold_code(rt: HostRuntime) -> Result<(), Fail> {
    let rows = [
        (
            "a\n```sh\nb\n\n```\nc",
            "<p>(a)</p><code sh>(b)(\n)(\n)</code><p>(c)</p>",
        ),
        (
            "~~~~ sh x\na\n~~~\n~~~~~",
            "<code sh x>(a)(\n)(~~~)(\n)</code>",
        ),
        (
            "  ```\n   a\n b\n``` x\n    ```\n```",
            "<code >( a)(\n)(b)(\n)(``` x)(\n)(  ```)(\n)</code>",
        ),
        ("```a`b", "<p>(```a`b)</p>"),
        ("~~~a`b\nc", "<code a`b>(c)(\n)</code>"),
        ("``\na", "<p>(``)/(a)</p>"),
    ];
    compare(&rt, rt.alloc(), &rows)
}

#[test]
fn an_indent_of_four_is_code(rt: HostRuntime) -> Result<(), Fail> {
    let rows = [
        (
            "    a\n\n\tb\n\n\nc",
            "<indented>(a)(\n)(\n)(b)(\n)</code><p>(c)</p>",
        ),
        (" \tx", "<indented>( x)(\n)</code>"),
        (
            "    a\n      \n    b",
            "<indented>(a)(\n)(  )(\n)(b)(\n)</code>",
        ),
        ("a\n    b", "<p>(a)/(b)</p>"),
        ("    # a\n", "<indented>(# a)(\n)</code>"),
    ];
    compare(&rt, rt.alloc(), &rows)
}

#[test]
fn quotes_stand_in_quotes(rt: HostRuntime) -> Result<(), Fail> {
    let rows = [
        ("> a\n>b\nc", "<quote><p>(a)/(b)</p></quote><p>(c)</p>"),
        (
            "> > a\n> b",
            "<quote><quote><p>(a)</p></quote><p>(b)</p></quote>",
        ),
        (
            ">\tx\n>\n>\t x",
            "<quote><p>(x)</p><indented>(x)(\n)</code></quote>",
        ),
        ("a\n> b", "<p>(a)</p><quote><p>(b)</p></quote>"),
        ("> [!note]\n> a", "<note><p>(a)</p></quote>"),
        (
            "> [!TIP] \n> a\n>\n> b",
            "<alert><p>(a)</p><p>(b)</p></quote>",
        ),
        ("> [!NOTES]\n", "<quote><p>([!NOTES])</p></quote>"),
        ("    > a", "<indented>(> a)(\n)</code>"),
    ];
    compare(&rt, rt.alloc(), &rows)
}

#[test]
fn containers_stand_thirty_two_levels_deep(rt: HostRuntime) -> Result<(), Fail> {
    let marks = ">>>>>>>>>>>>>>>>>>>>>>>>>>>>>>>>> - a\n>>>>>>>>>>>>>>>>>>>>>>>>>>>>>>>>: b\n";
    let shown = shown(&rt, rt.alloc(), marks)?;
    let mut wanted = String::new(rt.alloc());
    for _ in 0..32 {
        wanted.push_str("<quote>")?;
    }
    wanted.push_str("<p>(> - a)/(: b)</p>")?;
    for _ in 0..32 {
        wanted.push_str("</quote>")?;
    }
    assert_eq!(rt; shown.as_str(), wanted.as_str());
    Ok(())
}

#[test]
fn items_of_one_kind_are_a_list(rt: HostRuntime) -> Result<(), Fail> {
    let rows = [
        ("- a\n- b", "<list><item>(a)</item><item>(b)</item></list>"),
        (
            "- a\n\n- b",
            "<list><item><p>(a)</p></item><item><p>(b)</p></item></list>",
        ),
        (
            "- a\n* b",
            "<list><item>(a)</item></list><list><item>(b)</item></list>",
        ),
        (
            "9. a\n10. b",
            "<list 9><item>(a)</item><item>(b)</item></list>",
        ),
        (
            "1. a\n2) b",
            "<list 1><item>(a)</item></list><list 2><item>(b)</item></list>",
        ),
        (
            "a\n2. b\n01. c",
            "<p>(a)/(2. b)</p><list 1><item>(c)</item></list>",
        ),
        ("1234567890. a", "<p>(1234567890. a)</p>"),
        ("a\n* \nb", "<p>(a)/(*)/(b)</p>"),
        ("-a", "<p>(-a)</p>"),
        (
            "- a\n- - -\n- b",
            "<list><item>(a)</item></list><rule><list><item>(b)</item></list>",
        ),
        ("- a\nb", "<list><item>(a)</item></list><p>(b)</p>"),
        ("- a\n\nb", "<list><item>(a)</item></list><p>(b)</p>"),
    ];
    compare(&rt, rt.alloc(), &rows)
}

#[test]
fn items_hold_blocks(rt: HostRuntime) -> Result<(), Fail> {
    let rows = [
        (
            "- - a",
            "<list><item><list><item>(a)</item></list></item></list>",
        ),
        (
            "-   a\n  - b",
            "<list><item>(a)<list><item>(b)</item></list></item></list>",
        ),
        ("- a\n - b", "<list><item>(a)</item><item>(b)</item></list>"),
        (
            "-   a\n\n      b",
            "<list><item><p>(a)</p><indented>(b)(\n)</code></item></list>",
        ),
        (
            "-     code",
            "<list><item><indented>(code)(\n)</code></item></list>",
        ),
        (
            "-\n\n\n  a\n- b",
            "<list><item><p>(a)</p></item><item><p>(b)</p></item></list>",
        ),
        (
            "- ```\n  a\n\n  b\n  ```\n- c",
            "<list><item><code >(a)(\n)(\n)(b)(\n)</code></item><item><p>(c)</p></item></list>",
        ),
        (
            "- a\n  > q\n- b\n\n- c",
            "<list><item><p>(a)</p><quote><p>(q)</p></quote></item><item><p>(b)</p></item><item><p>(c)</p></item></list>",
        ),
        (
            "- a\n  > q",
            "<list><item>(a)<quote><p>(q)</p></quote></item></list>",
        ),
        (
            "-\tx\n\n\ty",
            "<list><item><p>(x)</p><p>(y)</p></item></list>",
        ),
    ];
    compare(&rt, rt.alloc(), &rows)
}

#[test]
fn items_begin_with_task_marks(rt: HostRuntime) -> Result<(), Fail> {
    let rows = [
        (
            "- [x] a\n- [ ] b",
            "<list><item>[x](a)</item><item>[ ](b)</item></list>",
        ),
        (
            "- [X] a\n\n  b",
            "<list><item><p>[x](a)</p><p>(b)</p></item></list>",
        ),
        ("- [x]", "<list><item>([x])</item></list>"),
        ("- [x] # a", "<list><item>[x]<h1>(a)</h1></item></list>"),
        (
            "- [ ]     a",
            "<list><item>[ ]<indented>(a)(\n)</code></item></list>",
        ),
        ("- [y] a", "<list><item>([y] a)</item></list>"),
        (
            "1. [x] > q\n\n2. b",
            "<list 1><item>[x]<quote><p>(q)</p></quote></item><item><p>(b)</p></item></list>",
        ),
    ];
    compare(&rt, rt.alloc(), &rows)
}

#[test]
fn thematic_breaks_have_three_marks(rt: HostRuntime) -> Result<(), Fail> {
    let rows = [
        ("a\n---", "<p>(a)</p><rule>"),
        (" * * *\n_____", "<rule><rule>"),
        ("--", "<p>(--)</p>"),
        ("-*-", "<p>(-*-)</p>"),
    ];
    compare(&rt, rt.alloc(), &rows)
}

#[test]
fn tables_have_a_head_and_rows(rt: HostRuntime) -> Result<(), Fail> {
    let rows = [
        (
            "|a|**b**|\n|-|:-:|\n| c `d` | |\n\ne",
            "<table - ^><head>[(a)][<b>(b)</b>]</head><row>[(c )`d`][]</row></table><p>(e)</p>",
        ),
        (
            "a\nb|c\n:--|--:\nd",
            "<p>(a)</p><table < >><head>[(b)][(c)]</head></table><p>(d)</p>",
        ),
        (
            "|a|\n|-|\n|b|c|\n||\nd\\|e|",
            "<table -><head>[(a)]</head><row>[(b)][(c)]</row><row>[]</row><row>[(d)(|e)]</row></table>",
        ),
        (
            "> |a|\n> |-|\n> |b|\n|c|",
            "<quote><table -><head>[(a)]</head><row>[(b)]</row></table></quote><p>(|c|)</p>",
        ),
        (
            "- [x] |a|\n  |-|\n  - b|",
            "<list><item>[x]<table -><head>[(a)]</head></table><list><item>(b|)</item></list></item></list>",
        ),
        ("| a |\n---", "<p>(| a |)</p><rule>"),
        ("|a|b|\n|-|", "<p>(|a|b|)/(|-|)</p>"),
    ];
    compare(&rt, rt.alloc(), &rows)
}

#[test]
fn titles_stand_directly_over_descriptions(rt: HostRuntime) -> Result<(), Fail> {
    let rows = [
        ("a\nb\n: c", "<p>(a)</p><dl><dt>(b)</dt><dd>(c)</dd></dl>"),
        ("a\n\n: b", "<p>(a)</p><p>(: b)</p>"),
        (
            "a\n: b\n\n: c\n\nd\n: e",
            "<dl><dt>(a)</dt><dd>(b)</dd><dd>(c)</dd><dt>(d)</dt><dd>(e)</dd></dl>",
        ),
        (
            " **a** \t\n:\tb",
            "<dl><dt><b>(a)</b></dt><dd>(b)</dd></dl>",
        ),
        ("a\n:b\n:", "<p>(a)/(:b)/(:)</p>"),
        (": a\n: b", "<p>(: a)/(: b)</p>"),
        ("a\n    : b", "<p>(a)/(: b)</p>"),
        (
            "a\n: b\n# c\n: d\n\n\n",
            "<dl><dt>(a)</dt><dd>(b)</dd></dl><h1>(c)</h1><p>(: d)</p>",
        ),
        (
            "a\n: b\nc\n\n: d",
            "<dl><dt>(a)</dt><dd>(b)</dd></dl><p>(c)</p><p>(: d)</p>",
        ),
        (
            "> - a\n>   : b\n>   c\n> : d",
            "<quote><list><item><dl><dt>(a)</dt><dd>(b)</dd></dl>(c)</item></list><p>(: d)</p></quote>",
        ),
        (
            "|a|\n|-|\n|b|\n: c",
            "<table -><head>[(a)]</head><row>[(b)]</row></table><p>(: c)</p>",
        ),
    ];
    compare(&rt, rt.alloc(), &rows)
}

#[test]
fn descriptions_hold_blocks(rt: HostRuntime) -> Result<(), Fail> {
    let rows = [
        (
            "T\n: \n\n  x\n  > y",
            "<dl><dt>(T)</dt><dd><p>(x)</p><quote><p>(y)</p></quote></dd></dl>",
        ),
        (
            "T\n: x\n  > y\n\n",
            "<dl><dt>(T)</dt><dd>(x)<quote><p>(y)</p></quote></dd></dl>",
        ),
        (
            "T\n   : a\n    : b",
            "<dl><dt>(T)</dt><dd>(a)</dd></dl><indented>(: b)(\n)</code>",
        ),
        (
            "T\n : a\n\n   b\n  c",
            "<dl><dt>(T)</dt><dd><p>(a)</p><p>(b)</p></dd></dl><p>(c)</p>",
        ),
        (
            "T\n:     a\n  b\n  : c",
            "<dl><dt>(T)</dt><dd><indented>(a)(\n)</code><dl><dt>(b)</dt><dd>(c)</dd></dl></dd></dl>",
        ),
        (
            "T\n: - a\n\n    b\n: c",
            "<dl><dt>(T)</dt><dd><list><item><p>(a)</p><p>(b)</p></item></list></dd><dd>(c)</dd></dl>",
        ),
        (
            "T\n: a\n\n\n  b\nU\n: c\n  d",
            "<dl><dt>(T)</dt><dd><p>(a)</p><p>(b)</p></dd><dt>(U)</dt><dd>(c)/(d)</dd></dl>",
        ),
    ];
    compare(&rt, rt.alloc(), &rows)
}

#[test]
fn metadata_stands_at_the_start(rt: HostRuntime) -> Result<(), Fail> {
    let rows = [
        (
            "---\na: b\n\nc: d\n---\ne",
            "<meta>(a: b)//(c: d)</meta><p>(e)</p>",
        ),
        ("---\n---\na", "<meta></meta><p>(a)</p>"),
        (
            "--- \n  *a*\n\t\n# b\n ---\n---\t\n---\nc",
            "<meta>(  *a*)/(    )/(# b)/( ---)</meta><rule><p>(c)</p>",
        ),
        ("---\n\na\n---", "<rule><p>(a)</p><rule>"),
        ("\n---\na: b\n---", "<rule><p>(a: b)</p><rule>"),
        (" ---\na: b\n---", "<rule><p>(a: b)</p><rule>"),
        ("----\na: b\n---", "<rule><p>(a: b)</p><rule>"),
        (
            "---\na\n...\n ---\nb",
            "<rule><p>(a)/(...)</p><rule><p>(b)</p>",
        ),
        ("> ---\n> a\n> ---", "<quote><rule><p>(a)</p><rule></quote>"),
        ("a\n---\nb\n---", "<p>(a)</p><rule><p>(b)</p><rule>"),
        ("---", "<rule>"),
    ];
    compare(&rt, rt.alloc(), &rows)
}

#[test]
fn html_blocks_end_at_marks_or_empty_lines(rt: HostRuntime) -> Result<(), Fail> {
    let rows = [
        (
            "x\n<div>\n *a*\n\n*b*",
            "<p>(x)</p><html>{<div>}{\n}{ *a*}{\n}</html><p>?(b)?</p>",
        ),
        (
            "<pre>\n\n\ta\nb</Script>c\nd",
            "<html>{<pre>}{\n}{\n}{    a}{\n}{b</Script>c}{\n}</html><p>(d)</p>",
        ),
        (
            "<style>a</style>\nb",
            "<html>{<style>a</style>}{\n}</html><p>(b)</p>",
        ),
        (
            "<script>\n-->\n</scrip>\n\n",
            "<html>{<script>}{\n}{-->}{\n}{</scrip>}{\n}{\n}</html>",
        ),
        (
            "<!-- a > b\n\nc --> d\ne",
            "<html>{<!-- a > b}{\n}{\n}{c --> d}{\n}</html><p>(e)</p>",
        ),
        ("<!-->\na", "<html>{<!-->}{\n}</html><p>(a)</p>"),
        (
            "> <pre>\n> a\n\nb",
            "<quote><html>{<pre>}{\n}{a}{\n}</html></quote><p>(b)</p>",
        ),
        (
            "</p>\n# a\n- b\n  \n# c",
            "<html>{</p>}{\n}{# a}{\n}{- b}{\n}</html><h1>(c)</h1>",
        ),
        (
            "- <p>\n  a\n\n      b",
            "<list><item><html>{<p>}{\n}{a}{\n}</html><indented>(b)(\n)</code></item></list>",
        ),
    ];
    compare(&rt, rt.alloc(), &rows)
}

#[test]
fn footnotes_hold_blocks(rt: HostRuntime) -> Result<(), Fail> {
    let rows = [
        (
            "a[^1]\n[^1]:     b\n\n    c\n\n  d",
            "<p>(a)^1^</p><footnote 1><p>(b)</p><p>(c)</p></footnote><p>(d)</p>",
        ),
        (
            "[^a]:\n    - b\n\n        c\nd",
            "<footnote a><list><item><p>(b)</p><p>(c)</p></item></list></footnote><p>(d)</p>",
        ),
        (
            "[^a]:[^b]:c\n\n    [^b]: d\n\n\n",
            "<footnote a><footnote b><p>(c)</p></footnote><footnote b><p>(d)</p></footnote></footnote>",
        ),
        ("[^a]:", "<footnote a></footnote>"),
        (
            "[^a]: b\n   c\n[^d]: e",
            "<footnote a><p>(b)</p></footnote><p>(c)</p><footnote d><p>(e)</p></footnote>",
        ),
        (
            "> [^a]: b\n>     c",
            "<quote><footnote a><p>(b)/(c)</p></footnote></quote>",
        ),
    ];
    compare(&rt, rt.alloc(), &rows)
}
