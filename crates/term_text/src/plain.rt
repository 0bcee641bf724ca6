// Texts of plain characters, each of which is a grapheme of one or two columns.
ghost use Rattle.std.specs.Prelude.{◌≡◌, ◌≤◌, ◌&&◌, ◌∷◌, [], nat_le, chars, encode_utf8, MatchOption};
ghost use Rattle.std.specs.List.{list_all};
ghost use Rattle.term_text.specs.Plain.{is_narrow, is_wide, is_plain, plain_width};
ghost use Rattle.term_text.specs.Solid.{SolidFront, is_solid};

/// Whether each character is plain.
pub(crate) fn all_plain(text: &str) -> bool
    ensures { result ≡ list_all is_plain (chars text.now) }
{
    text.chars().all(|c| is_plain(c))
}

fn is_plain(c: char) -> bool
    ensures { result ≡ is_plain c }
{
    is_narrow(c) || is_wide(c)
}

/// Whether the character is a grapheme of one column.
#[tactic(auto, unfolding(ucd_table::specs::Rows::in_ranges))]
fn is_narrow(c: char) -> bool
    ensures { result ≡ is_narrow c }
{
    // Most others stand behind them all.
    if c > '\u{25A9}' {
        return false;
    }
    is_from(c, ' ', '~')
        || is_from(c, '\u{A1}', '\u{A8}')
        || is_from(c, '\u{AA}', '\u{AC}')
        || is_from(c, '\u{AF}', '\u{2FF}')
        || is_from(c, '\u{370}', '\u{482}')
        || is_from(c, '\u{48A}', '\u{52F}')
        || is_from(c, '\u{1E00}', '\u{1FFF}')
        || is_from(c, '\u{2010}', '\u{2027}')
        || is_from(c, '\u{2030}', '\u{203B}')
        || is_from(c, '\u{20A0}', '\u{20BF}')
        || is_from(c, '\u{2190}', '\u{2193}')
        || is_from(c, '\u{2200}', '\u{22FF}')
        || is_from(c, '\u{2500}', '\u{25A9}')
}

/// Whether the character is a grapheme of two columns.
#[tactic(auto, unfolding(ucd_table::specs::Rows::in_ranges))]
fn is_wide(c: char) -> bool
    ensures { result ≡ is_wide c }
{
    is_from(c, '\u{3001}', '\u{3029}')
        || is_from(c, '\u{3041}', '\u{3096}')
        || is_from(c, '\u{309B}', '\u{30FF}')
        || is_from(c, '\u{3400}', '\u{4DBF}')
        || is_from(c, '\u{4E00}', '\u{9FFF}')
        || is_from(c, '\u{FF01}', '\u{FF60}')
}

/// Whether the character is the first or the last, or between them.
fn is_from(c: char, first: char, last: char) -> bool
    ensures { result ≡ (nat_le first c && nat_le c last) }
{
    first <= c && c <= last
}

/// The columns of a plain character.
pub(crate) fn plain_width(c: char) -> usize
    ensures { result ≡ plain_width c }
{
    if is_narrow(c) { 1 } else { 2 }
}

/// Passes over the characters of one column in front, at most so many and up to a space, and gives how many they are and
/// the text behind them.
pub(crate) fn solid_front<'a>(text: &'a str, most: usize) -> (usize, &'a str)
    ensures front { SolidFront result.0 (chars text.now) (chars result.1.now) }
    ensures within { result.0 ≤ most }
{
    let mut count = 0usize;
    let mut rest = text;
    while count < most {
        match first_char(rest) {
            Some((c, _, behind)) if is_solid(c) => {
                count += 1;
                rest = behind;
            }
            _ => return (count, rest),
        }
    }
    (count, rest)
}

fn is_solid(c: char) -> bool
    ensures { result ≡ is_solid c }
{
    is_narrow(c) && c != ' '
}

/// The first character, and the text behind it; `None` of an empty text.
pub(crate) fn first_char<'a>(text: &'a str) -> Option<(char, &'a str, &'a str)>
    ensures { MatchOption result (text.now ≡ [])
        (λ parts. (chars text.now ≡ parts.0 ∷ chars parts.2.now) × (parts.1.now ≡ encode_utf8 parts.0)) }
{
    let mut chars = text.chars();
    let c = chars.next()?;
    let rest = chars.as_str();
    Some((c, &text[..text.len() - rest.len()], rest))
}
