//! The lines of texts.
use md_lines::{is_blank, line_of, lines_of, without_end_blanks};
use std::test::Fail;

#[test]
fn texts_are_cut_at_each_kind_of_line_end(rt: HostRuntime) -> Result<(), Fail> {
    let mut shown = String::new(rt.alloc());
    let lines = lines_of(rt.alloc(), "ab\r\n \tc\r\r  d \n")?;
    for line in lines.as_slice() {
        let indent = line.indent;
        let body = line.body;
        write!(shown, "{indent}:{body}|")?;
    }
    assert_eq!(rt; shown.as_str(), "0:ab|5:c|0:|2:d |");
    Ok(())
}

#[test]
fn blanks_are_spaces_and_tabs(rt: HostRuntime) {
    assert!(rt; is_blank(b' ') && is_blank(b'\t') && !is_blank(b'\n'));
    assert_eq!(rt; without_end_blanks(" a b \t"), " a b");
    assert_eq!(rt; without_end_blanks(" \t"), "");
    assert!(rt; line_of("  ").is_empty() && !line_of(" a").is_empty());
}
