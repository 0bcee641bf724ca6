// The codes of SGR sequences.
ghost use Rattle.std.specs.Prelude.{◌≡◌, ◌<◌, IfOk, IsOk, IsSome};
ghost use Rattle.ansi_text.specs.Codes.{IsCode, acts, after_item, dark, light, listed};

use crate::item::Item;
use std::alloc::{AllocError, Global};
use term_text::{Color, Modifier, Style};

/// What a number of an SGR sequence stands for: a set or unset of a modifier or a colour, or a number that is not listed.
/// `AlternateFonts` stands for no number.
#[derive(Debug, PartialEq, Drop)]
pub enum AnsiCode {
    Reset,
    Bold,
    Faint,
    Italic,
    Underline,
    SlowBlink,
    RapidBlink,
    Reverse,
    Conceal,
    CrossedOut,
    PrimaryFont,
    AlternateFont,
    AlternateFonts(u8),
    Fraktur,
    BoldOff,
    Normal,
    NotItalic,
    UnderlineOff,
    BlinkOff,
    InvertOff,
    Reveal,
    CrossedOutOff,
    ForegroundColor(Color),
    SetForegroundColor,
    DefaultForegroundColor,
    BackgroundColor(Color),
    SetBackgroundColor,
    DefaultBackgroundColor,
    Code(Vec<u8>),
}

impl AnsiCode {
    /// The code of a number: the one that is listed by it, which takes no memory, else `Code` with the number itself, or want
    /// of memory. The numbers are those of ECMA-48's SELECT GRAPHIC RENDITION and of the 16-colour extensions of terminals.
    pub fn from_code(alloc: Global, code: u8) -> Result<AnsiCode, AllocError>
        ensures code { IfOk result (λ answer. IsCode code answer) }
        ensures listed { IsSome (listed code) → IsOk result }
    {
        match listed(code) {
            Some(answer) => Ok(answer),
            None => {
                let mut bytes = Vec::new(alloc);
                bytes.push(code)?;
                Ok(AnsiCode::Code(bytes))
            }
        }
    }
}

/// The code that is listed by this number, or `None`.
pub(crate) fn listed(code: u8) -> Option<AnsiCode>
    ensures { result ≡ listed code }
{
    match code {
        0 => Some(AnsiCode::Reset),
        1 => Some(AnsiCode::Bold),
        2 => Some(AnsiCode::Faint),
        3 => Some(AnsiCode::Italic),
        4 => Some(AnsiCode::Underline),
        5 => Some(AnsiCode::SlowBlink),
        6 => Some(AnsiCode::RapidBlink),
        7 => Some(AnsiCode::Reverse),
        8 => Some(AnsiCode::Conceal),
        9 => Some(AnsiCode::CrossedOut),
        10 => Some(AnsiCode::PrimaryFont),
        11 => Some(AnsiCode::AlternateFont),
        20 => Some(AnsiCode::Fraktur),
        21 => Some(AnsiCode::BoldOff),
        22 => Some(AnsiCode::Normal),
        23 => Some(AnsiCode::NotItalic),
        24 => Some(AnsiCode::UnderlineOff),
        25 => Some(AnsiCode::BlinkOff),
        27 => Some(AnsiCode::InvertOff),
        28 => Some(AnsiCode::Reveal),
        29 => Some(AnsiCode::CrossedOutOff),
        30..=37 => Some(AnsiCode::ForegroundColor(dark(code - 30))),
        38 => Some(AnsiCode::SetForegroundColor),
        39 => Some(AnsiCode::DefaultForegroundColor),
        40..=47 => Some(AnsiCode::BackgroundColor(dark(code - 40))),
        48 => Some(AnsiCode::SetBackgroundColor),
        49 => Some(AnsiCode::DefaultBackgroundColor),
        90..=97 => Some(AnsiCode::ForegroundColor(light(code - 90))),
        100..=107 => Some(AnsiCode::BackgroundColor(light(code - 100))),
        _ => None,
    }
}

/// The colours of the codes 30 to 37 and 40 to 47.
fn dark(number: u8) -> Color
    requires { number < 8 }
    ensures { result ≡ dark number }
{
    match number {
        0 => Color::Black,
        1 => Color::Red,
        2 => Color::Green,
        3 => Color::Yellow,
        4 => Color::Blue,
        5 => Color::Magenta,
        6 => Color::Cyan,
        _ => Color::Gray,
    }
}

/// The colours of the codes 90 to 97 and 100 to 107.
fn light(number: u8) -> Color
    requires { number < 8 }
    ensures { result ≡ light number }
{
    match number {
        0 => Color::DarkGray,
        1 => Color::LightRed,
        2 => Color::LightGreen,
        3 => Color::LightYellow,
        4 => Color::LightBlue,
        5 => Color::LightMagenta,
        6 => Color::LightCyan,
        _ => Color::White,
    }
}

/// What an item does to a style.
pub(crate) fn after_item(style: Style, item: Item) -> Style
    ensures { result ≡ after_item style item }
{
    // the colours and the reset, which come most often, are set without a code between
    match item.code {
        0 => Style::reset(),
        30..=37 => style.fg(dark(item.code - 30)),
        40..=47 => style.bg(dark(item.code - 40)),
        90..=97 => style.fg(light(item.code - 90)),
        code => match listed(code) {
            Some(code) => acts(code, item.color, style),
            None => style,
        },
    }
}

/// What a code does to a style; the colour is the one that follows the codes 38 and 48.
fn acts(code: AnsiCode, color: Option<Color>, style: Style) -> Style
    ensures { result ≡ acts code color style }
{
    match code {
        AnsiCode::Reset => Style::reset(),
        AnsiCode::Bold => style.add_modifier(Modifier::BOLD),
        AnsiCode::Faint => style.add_modifier(Modifier::DIM),
        AnsiCode::Italic => style.add_modifier(Modifier::ITALIC),
        AnsiCode::Underline => style.add_modifier(Modifier::UNDERLINED),
        AnsiCode::SlowBlink => style.add_modifier(Modifier::SLOW_BLINK),
        AnsiCode::RapidBlink => style.add_modifier(Modifier::RAPID_BLINK),
        AnsiCode::Reverse => style.add_modifier(Modifier::REVERSED),
        AnsiCode::Conceal => style.add_modifier(Modifier::HIDDEN),
        AnsiCode::CrossedOut => style.add_modifier(Modifier::CROSSED_OUT),
        AnsiCode::Normal => style
            .remove_modifier(Modifier::BOLD)
            .remove_modifier(Modifier::DIM),
        AnsiCode::NotItalic => style.remove_modifier(Modifier::ITALIC),
        AnsiCode::UnderlineOff => style.remove_modifier(Modifier::UNDERLINED),
        AnsiCode::BlinkOff => style
            .remove_modifier(Modifier::SLOW_BLINK)
            .remove_modifier(Modifier::RAPID_BLINK),
        AnsiCode::InvertOff => style.remove_modifier(Modifier::REVERSED),
        AnsiCode::Reveal => style.remove_modifier(Modifier::HIDDEN),
        AnsiCode::CrossedOutOff => style.remove_modifier(Modifier::CROSSED_OUT),
        AnsiCode::ForegroundColor(color) => style.fg(color),
        AnsiCode::DefaultForegroundColor => style.fg(Color::Reset),
        AnsiCode::BackgroundColor(color) => style.bg(color),
        AnsiCode::DefaultBackgroundColor => style.bg(Color::Reset),
        AnsiCode::SetForegroundColor => match color {
            Some(color) => style.fg(color),
            None => style,
        },
        AnsiCode::SetBackgroundColor => match color {
            Some(color) => style.bg(color),
            None => style,
        },
        AnsiCode::PrimaryFont
        | AnsiCode::AlternateFont
        | AnsiCode::AlternateFonts(_)
        | AnsiCode::Fraktur
        | AnsiCode::BoldOff
        | AnsiCode::Code(_) => style,
    }
}
