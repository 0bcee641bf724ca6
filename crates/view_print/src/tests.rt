// Printed rows by example.
use crate::print_view;
use std::test::Fail;
use term_core::{Buffer, Cell, Rect};

#[test]
fn wide_symbols_skip_a_cell_and_only_spaces_are_cut(rt: HostRuntime) -> Result<(), Fail> {
    let alloc = rt.alloc();
    let mut buffer = Buffer::empty(alloc, Rect::new(0, 0, 4, 3))?;
    buffer.set_cell(0, 0, Cell::new(alloc, "漢")?);
    buffer.set_cell(1, 0, Cell::new(alloc, "x")?);
    buffer.set_cell(2, 0, Cell::new(alloc, "a")?);
    buffer.set_cell(1, 2, Cell::new(alloc, "\u{a0}")?);
    let printed = print_view(alloc, &buffer, 12)?;
    assert_eq!(rt; printed.as_slice(), "漢a\n\n \u{a0}\nrows 12\n".as_bytes());
    Ok(())
}

#[test]
fn areas_without_columns_or_rows(rt: HostRuntime) -> Result<(), Fail> {
    let alloc = rt.alloc();
    let thin = Buffer::empty(alloc, Rect::new(0, 0, 0, 2))?;
    assert_eq!(rt;
        print_view(alloc, &thin, 0)?.as_slice(),
        b"\n\nrows 0\n".as_slice()
    );
    let flat = Buffer::empty(alloc, Rect::new(0, 0, 3, 0))?;
    assert_eq!(rt;
        print_view(alloc, &flat, 0)?.as_slice(),
        b"rows 0\n".as_slice()
    );
    Ok(())
}
