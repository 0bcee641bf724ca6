// What the calls answer on examples.
use crate::{
    AnsiCode, Error, IntoText, bytes_into_text, bytes_to_text, line_into_text, style_after_line,
};
use std::alloc::{AllocError, Global};
use std::fmt::Write;
use std::test::Fail;
use term_text::{Color, Line, Modifier, Style, Text};

/// Adds the spans of the line, each with its colours and modifiers behind it where its style sets any.
fn show_line(out: &mut String, line: &Line) -> Result<(), AllocError> {
    for span in line.spans() {
        let style = span.style();
        out.push_str(span.text())?;
        if style != Style::new() {
            let (fg, bg) = (style.fg, style.bg);
            let (add, sub) = (style.add, style.sub);
            write!(out, "({fg:?} {bg:?} {add:?} {sub:?})")?;
        }
        out.push_str("|")?;
    }
    Ok(())
}

/// The lines, each with LF behind it, or the error.
fn shown(alloc: Global, text: &Result<Text, Error>) -> Result<String, AllocError> {
    let mut out = String::new(alloc);
    match text {
        Ok(text) => {
            for line in text.lines() {
                show_line(&mut out, line)?;
                out.push_str("\n")?;
            }
        }
        Err(error) => write!(out, "{error}")?,
    }
    Ok(out)
}

#[test]
fn texts_are_read_by_the_grammar(rt: HostRuntime) -> Result<(), Fail> {
    let alloc = rt.alloc();
    let cases = [
        // Empty input is one empty line, and an end that closes the input adds none.
        (b"".as_slice(), "\n"),
        (b"\n".as_slice(), "\n"),
        (b"a\rb".as_slice(), "a|\nb|\n"),
        (b"a\r\n\nb\n".as_slice(), "a|\n\nb|\n"),
        (b"\x1b".as_slice(), "\n"),
        // One `;` behind an item, and no empty items.
        (b"\x1b[1;;31mx".as_slice(), "x|\n"),
        (
            b"\x1b[1;ma\x1b[;3mb\x1b[1;;2mc\x1b[31\nd\x1b[38;5;1;4me\x1b[?25hf\x1b(Bg".as_slice(),
            "a(None None Modifier(1) Modifier(0))|b(None None Modifier(1) Modifier(0))|c(None None Modifier(1) Modifier(0))|\nd(None None Modifier(1) Modifier(0))|e(Some(Indexed(1)) None Modifier(9) Modifier(0))|f(Some(Indexed(1)) None Modifier(9) Modifier(0))|(Bg(Some(Indexed(1)) None Modifier(9) Modifier(0))|\n",
        ),
        // Colours after 38 and 48.
        (
            b"\x1b[38;5;3;48;5;3;1mx".as_slice(),
            "x(Some(Indexed(3)) Some(Indexed(3)) Modifier(1) Modifier(0))|\n",
        ),
        (
            b"\x1b[38;2;225;192;203mA".as_slice(),
            "A(Some(Rgb(225, 192, 203)) None Modifier(0) Modifier(0))|\n",
        ),
        (
            b"\x1b[38;+5;3mx".as_slice(),
            "x(Some(Indexed(3)) None Modifier(0) Modifier(0))|\n",
        ),
        (
            b"\x1b[38;5;;9mx".as_slice(),
            "x(Some(Indexed(9)) None Modifier(0) Modifier(0))|\n",
        ),
        (b"\x1b[38;7;1mx".as_slice(), "x|\n"),
        (b"\x1b[38;10;255mx".as_slice(), "x|\n"),
        (
            b"\x1b[38;2;3;3;3;48;5;3mx".as_slice(),
            "x(Some(Rgb(3, 3, 3)) Some(Indexed(3)) Modifier(0) Modifier(0))|\n",
        ),
        // A number over 255, however long, spoils its sequence; leading zeros do not.
        (b"\x1b[31;999mx".as_slice(), "x|\n"),
        (b"\x1b[18446744073709551617mx".as_slice(), "x|\n"),
        (
            b"\x1b[0031mx".as_slice(),
            "x(Some(Red) None Modifier(0) Modifier(0))|\n",
        ),
        // The style runs on across lines; a sequence without items is a reset.
        (
            b"\x1b[1m\nx".as_slice(),
            "\nx(None None Modifier(1) Modifier(0))|\n",
        ),
        (
            b"\x1b[1ma\x1b[22mb\x1b[mc".as_slice(),
            "a(None None Modifier(1) Modifier(0))|b(None None Modifier(0) Modifier(3))|c(Some(Reset) Some(Reset) Modifier(0) Modifier(511))|\n",
        ),
        (
            b"\x1b[97;107;9ma\x1b[0mb".as_slice(),
            "a(Some(White) Some(White) Modifier(256) Modifier(0))|b(Some(Reset) Some(Reset) Modifier(0) Modifier(511))|\n",
        ),
        // What is dropped still cuts a stretch.
        (b"\x1b[12\nb".as_slice(), "\nb|\n"),
        (b"a\x1b]0;t\x07b".as_slice(), "a|b|\n"),
        (b"a\x1b]0;t\x1b[1mb".as_slice(), "a|\n"),
        // A stretch that is not UTF-8 is refused, bytes that are dropped are not.
        (b"ab\xff".as_slice(), "text is not UTF-8"),
        (b"a\x1b]\xff\x07b".as_slice(), "a|b|\n"),
    ];
    for (bytes, want) in cases {
        let borrowed = shown(alloc, &bytes_to_text(alloc, bytes))?;
        let owned = shown(alloc, &bytes_into_text(alloc, bytes))?;
        assert_eq!(rt; borrowed.as_str(), want);
        assert_eq!(rt; owned.as_str(), want);
    }
    Ok(())
}

#[test]
fn vectors_and_strings_are_read_as_their_bytes(rt: HostRuntime) -> Result<(), Fail> {
    let alloc = rt.alloc();
    let want = "a|b(None None Modifier(4) Modifier(0))|\n";
    let bytes = Vec::from_slice(alloc, b"a\x1b[3mb".as_slice())?;
    assert_eq!(rt; shown(alloc, &bytes.into_text(alloc))?.as_str(), want);
    assert_eq!(rt; shown(alloc, &bytes.to_text(alloc))?.as_str(), want);
    let text = String::from_str(alloc, "a\x1b[3mb")?;
    assert_eq!(rt; shown(alloc, &text.into_text(alloc))?.as_str(), want);
    assert_eq!(rt; shown(alloc, &text.to_text(alloc))?.as_str(), want);
    Ok(())
}

#[test]
fn a_line_goes_on_in_the_style_of_the_one_before(rt: HostRuntime) -> Result<(), Fail> {
    let alloc = rt.alloc();
    let bold = Style::new().bold();
    let (line, after) = line_into_text(alloc, bold, b"x".as_slice())?;
    let mut out = String::new(alloc);
    show_line(&mut out, &line)?;
    assert_eq!(rt; out.as_str(), "x(None None Modifier(1) Modifier(0))|");
    assert!(rt; after == bold);
    let refused = line_into_text(alloc, bold, b"\xff".as_slice());
    assert!(rt; refused.is_err_and(|error| error == Error::Utf8Error));
    Ok(())
}

#[test]
fn codes_have_names_or_stand_for_themselves(rt: HostRuntime) -> Result<(), Fail> {
    let alloc = rt.alloc();
    assert!(rt; AnsiCode::from_code(alloc, 31)? == AnsiCode::ForegroundColor(Color::Red));
    assert!(rt; AnsiCode::from_code(alloc, 38)? == AnsiCode::SetForegroundColor);
    assert!(rt; AnsiCode::from_code(alloc, 12)? == AnsiCode::Code(vec![in alloc; 12]?));
    assert!(rt; AnsiCode::from_code(alloc, 255)? == AnsiCode::Code(vec![in alloc; 255]?));
    Ok(())
}

#[test]
fn a_style_is_read_without_its_line(rt: HostRuntime) -> Result<(), Fail> {
    let alloc = rt.alloc();
    let red = Style::new().fg(Color::Red);
    for line in [
        b"".as_slice(),
        b"a\x1b[1mb\x1b[Kc",
        b"\x1b[m\xc3\xa9",
        b"\x1b[38;5;9mx\x1b[",
    ] {
        let (_, after) = line_into_text(alloc, red, line)?;
        assert_eq!(rt; style_after_line(red, line)?, after);
    }
    assert_eq!(rt;
        style_after_line(red, b"a\x1b[1mb")?,
        red.add_modifier(Modifier::BOLD)
    );
    assert!(rt; style_after_line(red, b"a\x1b[1m\xff") == Err(Error::Utf8Error));
    // A dropped piece need not be UTF-8.
    assert_eq!(rt; style_after_line(red, b"\x1b]\xff\x07a")?, red);
    Ok(())
}
