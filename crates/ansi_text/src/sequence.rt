// SGR sequences and other escapes.
ghost use Rattle.std.specs.Prelude.{◌≡◌, ◌<◌, ◌≤◌, length, IfSome};
ghost use Rattle.std.specs.Option.{option_map};
ghost use Rattle.ansi_text.specs.Sequences.{items, sequence};
ghost use Rattle.ansi_text.specs.Pieces.{is_letter, is_bell, beyond, after_dropped, AtEscape};
ghost use Rattle.ansi_text.specs.Reads.{style_read, with_items, with_sequence, past_escape};

use crate::code::after_item;
use crate::items::item;
use crate::number::required;
use term_text::Style;

/// A style, and what follows.
#[derive(Clone, Copy)]
pub(crate) struct Restyled<'a> {
    pub(crate) style: Style,
    pub(crate) rest: &'a [u8],
}

/// The style after the items in front and the `m` behind them, begun in a style; `None` where these do not stand there.
fn items<'a>(style: Style, bytes: &'a [u8]) -> Option<Restyled<'a>>
    ensures { option_map style_read result ≡ option_map (with_items style) (items bytes.now) }
{
    let mut style = style;
    let mut rest = bytes;
    loop {
        if let Some(rest) = required(b'm', rest) {
            return Some(Restyled { style, rest });
        }
        let next = item(rest)?;
        style = after_item(style, next.item);
        rest = next.rest;
    }
}

/// The style after the sequence whose `[`, items and `m` stand in front, begun in a style; `None` where none does.
fn sequence<'a>(style: Style, bytes: &'a [u8]) -> Option<Restyled<'a>>
    ensures { option_map style_read result ≡ option_map (with_sequence style) (sequence bytes.now) }
{
    let bytes = required(b'[', bytes)?;
    match required(b'm', bytes) {
        Some(rest) => Some(Restyled {
            style: Style::reset(),
            rest,
        }),
        None => items(style, bytes),
    }
}

/// What follows the first letter, nothing where there is none.
fn beyond_letter<'a>(bytes: &'a [u8]) -> &'a [u8]
    ensures { result.now ≡ beyond is_letter bytes.now }
{
    let mut rest = bytes;
    while let Some((first, after)) = rest.split_first() {
        if first.is_ascii_alphabetic() {
            return after;
        }
        rest = after;
    }
    rest
}

/// What follows the first BEL, nothing where there is none.
fn beyond_bell<'a>(bytes: &'a [u8]) -> &'a [u8]
    ensures { result.now ≡ beyond is_bell bytes.now }
{
    let mut rest = bytes;
    while let Some((first, after)) = rest.split_first() {
        if *first == 7 {
            return after;
        }
        rest = after;
    }
    rest
}

/// What follows an escape byte that begins no sequence, without what is dropped.
fn after_dropped<'a>(bytes: &'a [u8]) -> &'a [u8]
    ensures { result.now ≡ after_dropped bytes.now }
{
    if let Some(rest) = required(b'[', bytes) {
        beyond_letter(rest)
    } else if let Some(rest) = required(b']', bytes) {
        beyond_bell(rest)
    } else {
        bytes
    }
}

/// The style after the escape byte in front and what belongs to it, and what follows; the same style where nothing is left.
pub(crate) fn past_escape<'a>(style: Style, bytes: &'a [u8]) -> Restyled<'a>
    requires { AtEscape bytes.now }
    ensures { style_read result ≡ past_escape style bytes.now }
{
    let Some((_, rest)) = bytes.split_first() else {
        return Restyled { style, rest: bytes };
    };
    match sequence(style, rest) {
        Some(restyled) => restyled,
        None => Restyled {
            style,
            rest: after_dropped(rest),
        },
    }
}
