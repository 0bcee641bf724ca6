// The SGR sequence of a look, written by hand.
ghost use Rattle.std.specs.Prelude.{◌≡◌, ◌<◌, ◌≤◌, ◌+◌, ◌∷◌, ◌++◌, [], length, take, Some};
ghost use Rattle.std.specs.Fmt.{decimal};
ghost use Rattle.ansi_text.specs.Written.{written_behind, written_others};
ghost use Rattle.term_text.specs.declared.style.Color.{Color};
ghost use Rattle.term_ansi.specs.Sgr.{color_items, modifier_item, modifier_items, sequence_text};

use crate::look::{Look, color_number};
use bitflags::Flags;
use term_text::{Color, Modifier};

// Each writer puts its text into the line from the place `at` on, and answers the place behind it; what stands before `at`
// stays.

/// Puts a byte.
pub(crate) fn put(line: &mut [u8], at: usize, byte: u8) -> usize
    requires { at < length line.old }
    ensures text { take result line.new ≡ take at line.old ++ byte ∷ [] }
    ensures end { result ≡ at + 1 }
    ensures len { length line.new ≡ length line.old }
{
    line[at] = byte;
    at + 1
}

/// Puts the sequence of a look.
pub(crate) fn put_sequence(line: &mut [u8], at: usize, look: Look) -> usize
    requires { at + 56 ≤ length line.old }
    ensures text { take result line.new ≡ take at line.old ++ sequence_text look }
    ensures end { result ≤ at + 56 }
    ensures len { length line.new ≡ length line.old }
{
    let at = put(line, at, 0x1b);
    let at = put(line, at, b'[');
    let at = put(line, at, b'0');
    let at = put_modifiers(line, at, look.modifier);
    let at = put_color(line, at, 30, look.fg);
    let at = put_color(line, at, 40, look.bg);
    put(line, at, b'm')
}

/// Puts the codes of the modifiers.
fn put_modifiers(line: &mut [u8], at: usize, set: Modifier) -> usize
    requires { at + 20 ≤ length line.old }
    ensures text { take result line.new ≡ take at line.old ++ written_others (modifier_items set.0) }
    ensures end { result ≤ at + 18 }
    ensures len { length line.new ≡ length line.old }
{
    if set.bits() == 0 {
        return at;
    }
    let at = put_modifier(line, at, set, Modifier::BOLD, 1);
    let at = put_modifier(line, at, set, Modifier::DIM, 2);
    let at = put_modifier(line, at, set, Modifier::ITALIC, 3);
    let at = put_modifier(line, at, set, Modifier::UNDERLINED, 4);
    if set.bits() < Modifier::SLOW_BLINK.bits() {
        return at;
    }
    let at = put_modifier(line, at, set, Modifier::SLOW_BLINK, 5);
    let at = put_modifier(line, at, set, Modifier::RAPID_BLINK, 6);
    let at = put_modifier(line, at, set, Modifier::REVERSED, 7);
    let at = put_modifier(line, at, set, Modifier::HIDDEN, 8);
    put_modifier(line, at, set, Modifier::CROSSED_OUT, 9)
}

/// Puts the code of a modifier where the set has it.
fn put_modifier(line: &mut [u8], at: usize, set: Modifier, modifier: Modifier, code: u8) -> usize
    requires room { at + 4 ≤ length line.old }
    requires digit { code < 10 }
    ensures text { take result line.new ≡ take at line.old ++ written_others (modifier_item set.0 modifier.0 code) }
    ensures end { result ≤ at + 2 }
    ensures len { length line.new ≡ length line.old }
{
    if !set.contains(modifier) {
        return at;
    }
    put_code(line, at, code)
}

/// Puts the code of a colour, where the first of the eight dark ones has the code `first`; the terminal's own has none.
#[inline(always)]
fn put_color(line: &mut [u8], at: usize, first: u8, color: Color) -> usize
    requires room { at + 17 ≤ length line.old }
    requires code { first ≤ 40 }
    ensures text { take result line.new ≡ take at line.old ++ written_others (color_items first color) }
    ensures end { result ≤ at + 17 }
    ensures len { length line.new ≡ length line.old }
{
    if color_number(color) == 0 {
        return at;
    }
    put_own_color(line, at, first, color)
}

/// Puts the code of a colour, one that is not the terminal's own as a rule.
fn put_own_color(line: &mut [u8], at: usize, first: u8, color: Color) -> usize
    requires room { at + 17 ≤ length line.old }
    requires code { first ≤ 40 }
    ensures text { take result line.new ≡ take at line.old ++ written_others (color_items first color) }
    ensures end { result ≤ at + 17 }
    ensures len { length line.new ≡ length line.old }
{
    match color {
        Color::Reset => at,
        Color::Black => put_code(line, at, first),
        Color::Red => put_code(line, at, first + 1),
        Color::Green => put_code(line, at, first + 2),
        Color::Yellow => put_code(line, at, first + 3),
        Color::Blue => put_code(line, at, first + 4),
        Color::Magenta => put_code(line, at, first + 5),
        Color::Cyan => put_code(line, at, first + 6),
        Color::Gray => put_code(line, at, first + 7),
        Color::DarkGray => put_code(line, at, first + 60),
        Color::LightRed => put_code(line, at, first + 61),
        Color::LightGreen => put_code(line, at, first + 62),
        Color::LightYellow => put_code(line, at, first + 63),
        Color::LightBlue => put_code(line, at, first + 64),
        Color::LightMagenta => put_code(line, at, first + 65),
        Color::LightCyan => put_code(line, at, first + 66),
        Color::White => put_code(line, at, first + 67),
        Color::Rgb(r, g, b) => put_rgb(line, at, first + 8, r, g, b),
        Color::Indexed(n) => put_indexed(line, at, first + 8, n),
    }
}

/// Puts a code and a colour by its parts behind it.
fn put_rgb(line: &mut [u8], at: usize, code: u8, r: u8, g: u8, b: u8) -> usize
    requires room { at + 17 ≤ length line.old }
    requires code { code < 100 }
    ensures text { take result line.new ≡ take at line.old ++ (59 ∷ (decimal code ++ written_behind (Some (Color.Rgb r g b)))) }
    ensures end { result ≤ at + 17 }
    ensures len { length line.new ≡ length line.old }
{
    let at = put_code(line, at, code);
    let at = put_code(line, at, 2);
    let at = put_code(line, at, r);
    let at = put_code(line, at, g);
    put_code(line, at, b)
}

/// Puts a code and a colour by its number behind it.
fn put_indexed(line: &mut [u8], at: usize, code: u8, n: u8) -> usize
    requires { at + 12 ≤ length line.old }
    ensures text { take result line.new ≡ take at line.old ++ (59 ∷ (decimal code ++ written_behind (Some (Color.Indexed n)))) }
    ensures end { result ≤ at + 12 }
    ensures len { length line.new ≡ length line.old }
{
    let at = put_code(line, at, code);
    let at = put_code(line, at, 5);
    put_code(line, at, n)
}

/// Puts `;` and a number.
fn put_code(line: &mut [u8], at: usize, code: u8) -> usize
    requires { at + 4 ≤ length line.old }
    ensures text { take result line.new ≡ take at line.old ++ 59 ∷ decimal code }
    ensures end { result ≤ at + 4 }
    ensures two { code < 100 → result ≤ at + 3 }
    ensures one { code < 10 → result ≤ at + 2 }
    ensures len { length line.new ≡ length line.old }
{
    let at = put(line, at, b';');
    if code < 10 {
        return put(line, at, b'0' + code);
    }
    if code < 100 {
        let at = put(line, at, b'0' + code / 10);
        return put(line, at, b'0' + code % 10);
    }
    let at = put(line, at, b'0' + code / 10 / 10);
    let at = put(line, at, b'0' + code / 10 % 10);
    put(line, at, b'0' + code % 10)
}
