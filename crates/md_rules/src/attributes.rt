// The attributes of a heading.
ghost use Rattle.std.specs.Prelude.{◌≡◌, ◌≤◌, ◌<◌, ◌-◌, not, length, IfOk, OnOk, IfSome, IsTrue, MatchOption};
ghost use Rattle.std.specs.List.{after_first, before_first, position_or_len, suffix_len};
ghost use Rattle.term_text.specs.LineEnds.{is_one_line};
ghost use Rattle.md_rules.specs.Texts.{words};
ghost use Rattle.md_rules.specs.Attributes.{Braced, attribute_of, attributes_in, braced, is_brace, is_equals, no_attributes, pair, with_attribute};

use crate::texts::{after_first, next_word};
use md_tree::{Attrs, Classes};
use std::alloc::{AllocError, Global};
use term_text::CowStr;

/// What an attribute word says.
#[derive(Drop)]
pub(crate) enum Attribute<'a> {
    Id(CowStr<'a>),
    Class(CowStr<'a>),
    /// A key, and its value where it has one.
    Pair(CowStr<'a>, Option<CowStr<'a>>),
}

/// What the attribute words of a heading say together.
#[derive(Drop)]
pub(crate) struct Attributes<'a> {
    /// The last id.
    pub id: Option<CowStr<'a>>,
    pub classes: Classes<'a>,
    pub attrs: Attrs<'a>,
}

impl<'a> Attributes<'a> {
    /// No attributes; takes no memory.
    pub(crate) fn new(alloc: Global) -> Attributes<'a>
        ensures { result ≡ no_attributes }
    {
        Attributes {
            id: None,
            classes: Classes::new(alloc),
            attrs: Attrs::new(alloc),
        }
    }

    /// Takes one attribute more.
    fn add(&mut self, attribute: Attribute<'a>) -> Result<(), AllocError>
        ensures { OnOk result (self.new ≡ with_attribute self.old attribute.entry) }
    {
        match attribute {
            Attribute::Id(id) => self.id = Some(id),
            Attribute::Class(class) => self.classes.push(class)?,
            Attribute::Pair(key, value) => self.attrs.push((key, value))?,
        }
        Ok(())
    }
}

/// What a word says by the first form that fits.
fn attribute_of<'a>(word: &'a str) -> Option<Attribute<'a>>
    ensures { result ≡ attribute_of word.now }
{
    let bytes = word.as_bytes();
    if bytes.is_empty() {
        return None;
    }
    match bytes[0] {
        b'#' if bytes.len() == 1 => None,
        b'#' => Some(Attribute::Id(CowStr::borrowed(after_first(word)))),
        b'.' if bytes.len() == 1 => None,
        b'.' => Some(Attribute::Class(CowStr::borrowed(after_first(word)))),
        _ => pair(word),
    }
}

/// A key with its value, or a key alone.
fn pair<'a>(word: &'a str) -> Option<Attribute<'a>>
    ensures { result ≡ pair word.now }
{
    let equals = first_equals(word.as_bytes());
    if equals == word.len() {
        Some(Attribute::Pair(CowStr::borrowed(word), None))
    } else if equals == 0 {
        None
    } else {
        let (key, value) = cut_at_equals(word, equals);
        Some(Attribute::Pair(CowStr::borrowed(key), Some(CowStr::borrowed(value))))
    }
}

/// How many bytes stand before the first `=`, or in all where there is none.
fn first_equals(bytes: &[u8]) -> usize
    ensures value { result ≡ position_or_len is_equals bytes.now }
    ensures within { result ≤ length bytes.now }
{
    bytes.iter().take_while(|b| **b != b'=').count()
}

/// A word cut at its first `=`, which stands at this place.
fn cut_at_equals<'a>(word: &'a str, equals: usize) -> (&'a str, &'a str)
    requires place { equals ≡ position_or_len is_equals word.now }
    requires within { equals < length word.now }
    ensures key { result.0.now ≡ before_first is_equals word.now }
    ensures value { result.1.now ≡ after_first is_equals word.now }
{
    (&word[..equals], &word[equals + 1..])
}

/// What the attribute words of a text say, or `None` where there is no word or one says nothing.
pub(crate) fn attributes_in<'a>(
    alloc: Global,
    text: &'a str,
) -> Result<Option<Attributes<'a>>, AllocError>
    ensures { IfOk result (λ a. a ≡ attributes_in (words text.now)) }
{
    if next_word(text).is_none() {
        return Ok(None);
    }
    let mut so_far = Attributes::new(alloc);
    let mut rest = text;
    while let Some((word, after)) = next_word(rest) {
        let Some(attribute) = attribute_of(word) else {
            return Ok(None);
        };
        so_far.add(attribute)?;
        rest = after;
    }
    Ok(Some(so_far))
}

fn is_brace(b: u8) -> bool
    ensures { result ≡ is_brace b }
{
    b == b'{' || b == b'}'
}

/// How many bytes stand behind the last brace.
fn behind_last_brace(bytes: &[u8]) -> usize
    ensures value { result ≡ suffix_len (λ b. not (is_brace b)) bytes.now }
    ensures within { result ≤ length bytes.now }
{
    bytes.iter().rev().take_while(|b| !is_brace(**b)).count()
}

/// The text before the braces at its end, and what stands between them.
pub(crate) fn braced<'a>(text: &'a str) -> Option<(&'a str, &'a str)>
    ensures parts { MatchOption result (braced text.now ≡ None) (λ p. braced text.now ≡ Some (record { before = p.0.now; inside = p.1.now })) }
    ensures one_line { IsTrue (is_one_line text.now) → IfSome result (λ p. IsTrue (is_one_line p.0.now)) }
{
    let bytes = text.as_bytes();
    if bytes.is_empty() || bytes[bytes.len() - 1] != b'}' {
        return None;
    }
    let last = bytes.len() - 1;
    let end = last - behind_last_brace(&bytes[..last]);
    if end == 0 || bytes[end - 1] != b'{' {
        return None;
    }
    Some((&text[..end - 1], &text[end..last]))
}
