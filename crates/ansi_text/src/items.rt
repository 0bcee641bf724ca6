// The readers of the items of an SGR sequence.
ghost use Rattle.std.specs.Prelude.{◌≡◌, ◌≤◌, ◌<◌, length, IfSome, Some};
ghost use Rattle.std.specs.Option.{option_map};
ghost use Rattle.ansi_text.specs.Numbers.{byte};
ghost use Rattle.ansi_text.specs.Items.{next_byte, indexed, rgb, color_of, color, item_of, item, takes_color};
ghost use Rattle.ansi_text.specs.Reads.{number_read, color_read, item_read};

use crate::item::Item;
use crate::number::{Numeral, byte, number, optional, required};
use term_text::Color;

/// A colour that was read, and what follows it.
#[derive(Clone, Copy)]
pub(crate) struct Coloring<'a> {
    pub(crate) color: Color,
    pub(crate) rest: &'a [u8],
}

/// An item that was read, and what follows it.
#[derive(Clone, Copy)]
pub(crate) struct Reading<'a> {
    pub(crate) item: Item,
    pub(crate) rest: &'a [u8],
}

/// `;` and a number of 0 to 255.
fn next_byte<'a>(bytes: &'a [u8]) -> Option<Numeral<'a>>
    ensures value { option_map number_read result ≡ next_byte bytes.now }
    ensures small { IfSome result (λ n. n.value ≤ 255) }
{
    byte(required(b';', bytes)?)
}

/// The index of a colour.
fn indexed<'a>(bytes: &'a [u8]) -> Option<Coloring<'a>>
    ensures { option_map color_read result ≡ indexed bytes.now }
{
    let index = byte(bytes)?;
    Some(Coloring {
        color: Color::Indexed(index.value as u8),
        rest: index.rest,
    })
}

/// The red, green and blue of a colour.
fn rgb<'a>(bytes: &'a [u8]) -> Option<Coloring<'a>>
    ensures { option_map color_read result ≡ rgb bytes.now }
{
    let red = byte(bytes)?;
    let green = next_byte(red.rest)?;
    let blue = next_byte(green.rest)?;
    Some(Coloring {
        color: Color::Rgb(red.value as u8, green.value as u8, blue.value as u8),
        rest: blue.rest,
    })
}

/// A colour after its kind: 2 for red, green and blue, 5 for an index.
fn color_of<'a>(kind: u16, bytes: &'a [u8]) -> Option<Coloring<'a>>
    ensures { option_map color_read result ≡ color_of kind bytes.now }
{
    match kind {
        2 => rgb(bytes),
        5 => indexed(bytes),
        _ => None,
    }
}

/// The colour in front: its kind, with an optional plus, and what the kind asks.
fn color<'a>(bytes: &'a [u8]) -> Option<Coloring<'a>>
    ensures { option_map color_read result ≡ color bytes.now }
{
    let kind = number(optional(b'+', bytes))?;
    let rest = required(b';', kind.rest)?;
    color_of(kind.value, optional(b';', rest))
}

/// An item after its code.
fn item_of<'a>(code: u8, bytes: &'a [u8]) -> Option<Reading<'a>>
    ensures { option_map item_read result ≡ item_of record { value = code; rest = bytes.now } }
{
    if code == 38 || code == 48 {
        let color = color(optional(b';', bytes))?;
        Some(Reading {
            item: Item {
                code,
                color: Some(color.color),
            },
            rest: optional(b';', color.rest),
        })
    } else {
        Some(Reading {
            item: Item { code, color: None },
            rest: optional(b';', bytes),
        })
    }
}

/// The item in front: a code, for 38 and 48 a colour, and an optional `;`.
pub(crate) fn item<'a>(bytes: &'a [u8]) -> Option<Reading<'a>>
    ensures item { option_map item_read result ≡ item bytes.now }
    ensures shorter { IfSome result (λ r. length r.rest.now < length bytes.now) }
{
    let code = byte(bytes)?;
    item_of(code.value as u8, code.rest)
}
