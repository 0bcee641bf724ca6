// Decimal numbers and single bytes that stand in front of bytes.
ghost use Rattle.std.specs.Prelude.{◌≡◌, ◌≤◌, ◌<◌, length, IfSome};
ghost use Rattle.std.specs.Option.{option_copied, option_map};
ghost use Rattle.ansi_text.specs.Numbers.{digit, number, byte, optional, required};
ghost use Rattle.ansi_text.specs.Reads.{number_read, capped};

/// A number that was read and what follows it. Every number that is too large for a byte is read as `MOST`.
#[derive(Clone, Copy)]
pub(crate) struct Numeral<'a> {
    pub(crate) value: u16,
    pub(crate) rest: &'a [u8],
}

/// What stands for every greater number.
const MOST: u16 = 1000;

/// What follows the byte, which has to stand in front.
pub(crate) fn required<'a>(byte: u8, bytes: &'a [u8]) -> Option<&'a [u8]>
    ensures { option_copied result ≡ required byte bytes.now }
{
    match bytes.split_first() {
        Some((first, rest)) if *first == byte => Some(rest),
        _ => None,
    }
}

/// What follows the byte, where it stands in front.
pub(crate) fn optional<'a>(byte: u8, bytes: &'a [u8]) -> &'a [u8]
    ensures { result.now ≡ optional byte bytes.now }
{
    match required(byte, bytes) {
        Some(rest) => rest,
        None => bytes,
    }
}

/// The digit in front.
fn digit<'a>(bytes: &'a [u8]) -> Option<Numeral<'a>>
    ensures digit { option_map number_read result ≡ digit bytes.now }
    ensures small { IfSome result (λ d. d.value ≤ 9) }
    ensures shorter { IfSome result (λ d. length d.rest.now < length bytes.now) }
{
    match bytes.split_first() {
        Some((first, rest)) if first.is_ascii_digit() => Some(Numeral {
            value: u16::from(*first - b'0'),
            rest,
        }),
        _ => None,
    }
}

/// The decimal number in front, which is all the digits that stand there.
pub(crate) fn number<'a>(bytes: &'a [u8]) -> Option<Numeral<'a>>
    ensures { option_map number_read result ≡ option_map capped (number bytes.now) }
{
    let first = digit(bytes)?;
    let mut value = first.value;
    let mut rest = first.rest;
    while let Some(next) = digit(rest) {
        value = (value * 10 + next.value).min(MOST);
        rest = next.rest;
    }
    Some(Numeral { value, rest })
}

/// The number of 0 to 255 in front.
pub(crate) fn byte<'a>(bytes: &'a [u8]) -> Option<Numeral<'a>>
    ensures value { option_map number_read result ≡ byte bytes.now }
    ensures small { IfSome result (λ n. n.value ≤ 255) }
{
    let number = number(bytes)?;
    if number.value <= 255 {
        Some(number)
    } else {
        None
    }
}
