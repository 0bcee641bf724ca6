//! Tables with their pictures.
use md_picture::{Row, Styles, Table};
use std::alloc::{AllocError, Global};
use std::test::Fail;
use term_text::{Alignment, CowStr, Line, Span, Style};

fn row<'a>(alloc: Global, cells: &[&'static str]) -> Result<Row<'a>, AllocError> {
    let mut row = Row::new(alloc);
    for text in cells {
        let mut cell = Line::new(alloc);
        cell.push_span(Span::raw(CowStr::borrowed(text)))?;
        row.append(&mut cell)?;
    }
    Ok(row)
}

/// The texts of the picture's lines, each with an LF behind it.
fn shown(
    alloc: Global,
    table: &Table,
    width: Option<usize>,
    dividers: bool,
) -> Result<String, AllocError> {
    let styles = Styles {
        border: Style::new(),
        header: Style::new(),
        cell: Style::new(),
    };
    let mut shown = String::new(alloc);
    let lines = table.picture(alloc, styles, width, dividers)?;
    for line in lines.as_slice() {
        for span in line.spans() {
            shown.push_str(span.text())?;
        }
        shown.push_str("\n")?;
    }
    Ok(shown)
}

#[test]
fn cells_keep_to_their_sides(rt: HostRuntime) -> Result<(), Fail> {
    let alloc = rt.alloc();
    let mut alignments = Vec::new(alloc);
    alignments.push(Alignment::Left)?;
    alignments.push(Alignment::Right)?;
    alignments.push(Alignment::Center)?;
    let mut table = Table::new(alloc, alignments);
    table.set_header(row(alloc, ["Name", "漢", "four"].as_slice())?);
    table.append(&mut row(alloc, ["API", "b", "c", "d"].as_slice())?)?;
    table.append(&mut row(alloc, ["x"].as_slice())?)?;
    assert_eq!(rt;
        shown(alloc, &table, None, true)?.as_str(),
        "┌──────┬────┬──────┬───┐\n│ Name │ 漢 │ four │   │\n├──────┼────┼──────┼───┤\n│ API  │  b │  c   │ d │\n├──────┼────┼──────┼───┤\n│ x    │    │      │   │\n└──────┴────┴──────┴───┘\n"
    );
    assert_eq!(rt;
        shown(alloc, &table, Some(22), false)?.as_str(),
        "┌─────┬────┬─────┬───┐\n│ Nam │ 漢 │ fou │   │\n│ e   │    │  r  │   │\n├─────┼────┼─────┼───┤\n│ API │  b │  c  │ d │\n│ x   │    │     │   │\n└─────┴────┴─────┴───┘\n"
    );
    Ok(())
}
