// The mascot as cells, whole and cut, against a plain model.
use crate::{MascotEyeColor, RatatuiMascot};
use std::alloc::{AllocError, Global};
use std::test::Fail;
use term_core::{Buffer, Cell, Color, Rect, Style, Widget, WidgetError};

/// The symbols of the mascot's cells: `.` where it leaves the cell as it is, and `_` for the space of its screen.
const SYMBOLS: [&str; 16] = [
    ".............▄▄███",
    "...........▄███████",
    ".........▄█████████",
    "........████████████",
    "........▀███████████▀...▄▄██████",
    "..............▀███▀▄█▀▀████████",
    "............▄▄▄▄▀▄████████████",
    "...........████████████████",
    "...........▀███▀██████████",
    ".........▄▀▀▄...█████████",
    ".......▄▀_▄__▀▄▀█████████",
    ".....▄▀__▀▀____▀▄▀███████",
    "...▄▀______▄▄____▀▄▀█████████",
    ".▄▀_________▀▀_____▀▄▀██▀..███",
    "█____________________▀▄▀..▄██",
    ".▀▄____________________▀▄▀█",
];

/// Their foregrounds: of the rat, its hat, the screen, its case, and what the screen displays.
const FOREGROUNDS: [&str; 16] = [
    ".............hhhhh",
    "...........hhhhhhhh",
    ".........hhhhhhhhhh",
    "........hhhhhhhhhhhh",
    "........hhhhhhhhhhhhh...rrrrrrrr",
    "..............hhhhhrrrrrrrrrrrr",
    "............rrrrhrrrrrrrrrrrrr",
    "...........rrrrrrrrrrrrrrrr",
    "...........rrrrrrrrrrrrrrr",
    ".........cccc...rrrrrrrrr",
    ".......ccsdssccrrrrrrrrrr",
    ".....ccssddssssccrrrrrrrr",
    "...ccssssssddssssccrrrrrrrrrr",
    ".ccsssssssssddsssssccrrrr..rrr",
    "cssssssssssssssssssssccr..rrr",
    ".ccssssssssssssssssssssccrr",
];

/// Their backgrounds, with `e` for the eye.
const BACKGROUNDS: [&str; 16] = [
    "...............hhh",
    "............hhhhhhh",
    "..........hhhhhhhhh",
    "........hhhhhhhhhhhh",
    ".........hhhhhhhhhhh......rrrrrr",
    "...............hhh..reerrrrrrrr",
    "..................rrrrrrrrrrrr",
    "...........rrrrrrrrrrrrrrrr",
    "............rrr.rrrrrrrrrr",
    "..........ss....rrrrrrrrr",
    "........ssssss..rrrrrrrrr",
    "......ssssssssss..rrrrrrr",
    "....ssssssssssssss..rrrrrrrrr",
    "..ssssssssssssssssss..rr...rrr",
    "csssssssssssssssssssss.....rr",
    "..ssssssssssssssssssssss..r",
];

/// The letter of a picture at a column and a row, and `.` beside it.
fn letter(picture: &[&str], column: u16, row: u16) -> char {
    match picture.get(row as usize) {
        Some(line) => line.chars().nth(column as usize).unwrap_or('.'),
        None => '.',
    }
}

/// The colour of a letter, and of `.` that of the cell as it was.
fn color(letter: char, eye: Color, old: Color) -> Color {
    match letter {
        'r' => Color::Indexed(252),
        'h' => Color::Indexed(231),
        'e' => eye,
        's' => Color::Indexed(232),
        'c' => Color::Indexed(237),
        'd' => Color::Indexed(248),
        _ => old,
    }
}

/// A cell that the mascot is drawn over: `x`, green on blue and in italics.
fn ground(alloc: Global) -> Result<Cell, AllocError> {
    let mut cell = Cell::new(alloc, "x")?;
    cell.set_style(Style::new().green().bg(Color::Blue).italic());
    Ok(cell)
}

/// What the mascot makes of a cell in this column and row of its area.
fn drawn(alloc: Global, old: &Cell, eye: Color, column: u16, row: u16) -> Result<Cell, AllocError> {
    let mut cell = old.try_clone(alloc)?;
    match letter(SYMBOLS.as_slice(), column, row) {
        '.' => {}
        '_' => cell.set_char(' '),
        symbol => cell.set_char(symbol),
    }
    let fg = letter(FOREGROUNDS.as_slice(), column, row);
    cell.set_fg(color(fg, eye, old.fg()));
    let bg = letter(BACKGROUNDS.as_slice(), column, row);
    cell.set_bg(color(bg, eye, old.bg()));
    Ok(cell)
}

/// Whether two cells have the same parts.
fn are_alike(one: &Cell, other: &Cell) -> bool {
    one.symbol() == other.symbol()
        && one.fg() == other.fg()
        && one.bg() == other.bg()
        && one.modifier() == other.modifier()
}

/// The column and the row of a place in an area, if it has the place.
fn within(area: Rect, x: u16, y: u16) -> Option<(u16, u16)> {
    let column = x.checked_sub(area.x())?;
    let row = y.checked_sub(area.y())?;
    if column < area.width() && row < area.height() {
        Some((column, row))
    } else {
        None
    }
}

/// Draws the mascot, and counts the cells that are not those of the model.
fn differences(
    alloc: Global,
    eye: MascotEyeColor,
    whole: Rect,
    area: Rect,
) -> Result<u64, WidgetError> {
    let ground = ground(alloc)?;
    let mut buffer = Buffer::filled(alloc, whole, &ground)?;
    RatatuiMascot::new()
        .set_eye(eye)
        .render(alloc, area, &mut buffer)?;
    let cut = area.intersection(whole);
    let mut count = 0u64;
    for y in whole.y()..whole.bottom() {
        for x in whole.x()..whole.right() {
            let expected = match within(cut, x, y) {
                Some((column, row)) => drawn(alloc, &ground, eye_color(eye), column, row)?,
                None => ground.try_clone(alloc)?,
            };
            let agrees = match buffer.cell(x, y) {
                Some(cell) => are_alike(cell, &expected),
                None => false,
            };
            if !agrees {
                count = count.saturating_add(1);
            }
        }
    }
    Ok(count)
}

fn eye_color(eye: MascotEyeColor) -> Color {
    match eye {
        MascotEyeColor::Default => Color::Indexed(236),
        MascotEyeColor::Red => Color::Indexed(196),
    }
}

#[test]
fn the_mascot_with_both_eyes(rt: HostRuntime) -> Result<(), Fail> {
    let alloc = rt.alloc();
    assert_eq!(rt; RatatuiMascot::new().eye(), MascotEyeColor::Default);
    assert_eq!(rt; RatatuiMascot::default().eye(), MascotEyeColor::default());
    for (eye, color) in [
        (MascotEyeColor::Default, Color::Indexed(236)),
        (MascotEyeColor::Red, Color::Indexed(196)),
    ] {
        let area = Rect::new(0, 0, 32, 16);
        let mut buffer = Buffer::empty(alloc, area)?;
        let mascot = RatatuiMascot::new().set_eye(eye);
        assert_eq!(rt; mascot.eye(), eye);
        mascot.render(alloc, area, &mut buffer)?;
        let cell = buffer.cell(21, 5).ok_or("inside")?;
        assert_eq!(rt; cell.bg(), color);
        assert_eq!(rt; differences(alloc, eye, area, area)?, 0);
    }
    Ok(())
}

#[test]
fn the_mascot_on_one_cell(rt: HostRuntime) -> Result<(), Fail> {
    let alloc = rt.alloc();
    let area = Rect::new(0, 0, 1, 1);
    let mut buffer = Buffer::empty(alloc, area)?;
    RatatuiMascot::new().render(alloc, area, &mut buffer)?;
    let cell = buffer.cell(0, 0).ok_or("inside")?;
    assert_eq!(rt; cell.symbol(), " ");
    assert_eq!(rt; cell.fg(), Color::Reset);
    assert_eq!(rt; cell.bg(), Color::Reset);
    Ok(())
}

#[test]
fn the_mascot_on_small_and_cut_areas(rt: HostRuntime) -> Result<(), Fail> {
    let alloc = rt.alloc();
    let whole = Rect::new(3, 2, 34, 17);
    for (x, y, width, height) in [
        (3, 2, 1, 1),
        (4, 3, 32, 16),
        (0, 0, 60, 60),
        (5, 4, 14, 3),
        (3, 8, 34, 2),
        (20, 10, 40, 20),
        (0, 5, 40, 12),
        (10, 0, 22, 8),
        (37, 2, 32, 16),
        (3, 19, 32, 16),
        (0, 0, 3, 2),
        (8, 8, 0, 9),
        (8, 8, 9, 0),
        (65535, 65535, 9, 9),
    ] {
        let area = Rect::new(x, y, width, height);
        let count = differences(alloc, MascotEyeColor::Red, whole, area)?;
        assert_eq!(rt; count, 0, "at {x} {y} on {width} by {height}");
    }
    Ok(())
}
