// Parts of a line's text.
ghost use Rattle.std.specs.Prelude.{◌≡◌, ◌==◌, ◌≤◌, ◌<◌, ◌∷◌, [], not, length, take, drop, MatchOption, IfSome, IsTrue, slice_index_or};
ghost use Rattle.std.specs.List.{list_all, prefix_len, suffix_len, position_or_len};
ghost use Rattle.std.specs.Str.{IsCharBoundary};
ghost use Rattle.md_lines.specs.Blanks.{is_blank};
ghost use Rattle.md_rules.specs.Texts.{begins_with, ends_word, trimmed, without_start_blanks, words};

use md_lines::{is_blank, without_end_blanks};

/// How many of the bytes at the start are blanks.
fn blanks(bytes: &[u8]) -> usize
    ensures { result ≡ prefix_len is_blank bytes.now }
{
    bytes.iter().take_while(|b| is_blank(**b)).count()
}

/// How many of the bytes at the start are no blanks.
fn solids(bytes: &[u8]) -> usize
    ensures { result ≡ position_or_len is_blank bytes.now }
{
    bytes.iter().take_while(|b| !is_blank(**b)).count()
}

/// How many of the bytes at the start are this one.
pub(crate) fn run_length(mark: u8, bytes: &[u8]) -> usize
    ensures value { result ≡ prefix_len (λ b. b == mark) bytes.now }
    ensures within { result ≤ length bytes.now }
{
    bytes.iter().take_while(|b| **b == mark).count()
}

/// Whether each of the bytes is this one.
pub(crate) fn are_all(mark: u8, bytes: &[u8]) -> bool
    ensures { result ≡ list_all (λ b. b == mark) bytes.now }
{
    bytes.iter().all(|b| *b == mark)
}

/// Whether this byte stands in front.
pub(crate) fn begins_with(mark: u8, bytes: &[u8]) -> bool
    ensures { result ≡ begins_with mark bytes.now }
{
    !bytes.is_empty() && bytes[0] == mark
}

/// The text without the blanks at its start.
pub(crate) fn without_start_blanks<'a>(text: &'a str) -> &'a str
    ensures { result.now ≡ without_start_blanks text.now }
{
    &text[blanks(text.as_bytes())..]
}

/// The text without the blanks at both ends.
pub(crate) fn trimmed<'a>(text: &'a str) -> &'a str
    ensures { result.now ≡ trimmed text.now }
{
    without_end_blanks(without_start_blanks(text))
}

/// Whether a blank or the end stands in front.
pub(crate) fn ends_word(bytes: &[u8]) -> bool
    ensures { result ≡ ends_word bytes.now }
{
    bytes.is_empty() || is_blank(bytes[0])
}

/// The text behind a run of an ASCII character, which begins it.
pub(crate) fn after_run<'a>(mark: u8, text: &'a str) -> &'a str
    requires { mark < 128 }
    ensures { result.now ≡ drop (prefix_len (λ b. b == mark) text.now) text.now }
{
    &text[run_length(mark, text.as_bytes())..]
}

/// The text after its first byte, an ASCII character.
pub(crate) fn after_first<'a>(text: &'a str) -> &'a str
    requires within { 0 < length text.now }
    requires ascii { slice_index_or text.now 0 0 < 128 }
    ensures { result.now ≡ drop 1 text.now }
{
    &text[1..]
}

/// The first word of a text and what stands behind it, or `None` where no word is left.
pub(crate) fn next_word<'a>(text: &'a str) -> Option<(&'a str, &'a str)>
    ensures words { MatchOption result (words text.now ≡ []) (λ p. words text.now ≡ p.0.now ∷ words p.1.now) }
    ensures shorter { IfSome result (λ p. length p.1.now < length text.now) }
{
    let rest = without_start_blanks(text);
    if rest.is_empty() {
        return None;
    }
    Some(first_word(rest))
}

/// The word in front and what stands behind it.
fn first_word<'a>(text: &'a str) -> (&'a str, &'a str)
    requires { IsTrue (not (ends_word text.now)) }
    ensures words { words text.now ≡ result.0.now ∷ words result.1.now }
    ensures shorter { length result.1.now < length text.now }
{
    let end = solids(text.as_bytes());
    (&text[..end], &text[end..])
}
