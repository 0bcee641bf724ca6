// What stands in angle brackets: addresses and HTML tags.
ghost use Rattle.std.specs.Prelude.{◌≡◌, ◌<◌, length, IfSome};
ghost use Rattle.std.specs.List.{list_any};
ghost use Rattle.md_lines.specs.Blanks.{is_blank};
ghost use Rattle.md_leaves.specs.Angles.{angle, begins_address, ends_name, has_scheme, is_address, is_tag, lone_of, named};

use crate::bytes::{Class, byte_at, rest_of, stretch};
use crate::closer::angled;
use crate::cut::Cut;
use crate::leaf::{Kind, Lone};
use md_lines::is_blank;

/// Whether a text is a scheme and more.
fn has_scheme(text: &[u8], scheme: &str) -> bool
    ensures { result ≡ has_scheme text.now scheme.now }
{
    text.len() > scheme.len() && text.starts_with(scheme.as_bytes())
}

/// Whether a text is one of the schemes and more.
fn begins_address(text: &[u8]) -> bool
    ensures { result ≡ begins_address text.now }
{
    has_scheme(text, "http:") || has_scheme(text, "https:") || has_scheme(text, "mailto:")
}

fn has_blank(text: &[u8]) -> bool
    ensures { result ≡ list_any is_blank text.now }
{
    text.iter().any(|b| is_blank(*b))
}

/// Whether a text is an address: a scheme and more, without blanks.
fn is_address(text: &[u8]) -> bool
    ensures { result ≡ is_address text.now }
{
    begins_address(text) && !has_blank(text)
}

/// Whether a name ends before these bytes.
fn ends_name(bytes: &[u8]) -> bool
    ensures { result ≡ ends_name bytes.now }
{
    match bytes.first() {
        Some(b) => is_blank(*b) || *b == b'/',
        None => true,
    }
}

/// Whether a text begins with a name and what may follow one.
fn named(text: &[u8]) -> bool
    ensures { result ≡ named text.now }
{
    let name = stretch(text, Class::InName);
    byte_at(text, 0).is_ascii_alphabetic() && ends_name(rest_of(text, name))
}

/// Whether a text is that of a tag: a name, maybe behind `/`, and what may follow it.
fn is_tag(text: &[u8]) -> bool
    ensures { result ≡ is_tag text.now }
{
    if byte_at(text, 0) == b'/' {
        named(rest_of(text, 1))
    } else {
        named(text)
    }
}

/// What a text in angle brackets is, if it is an address or that of a tag.
fn lone_of(text: &[u8]) -> Option<Lone>
    ensures { result ≡ lone_of text.now }
{
    if is_address(text) {
        Some(Lone::Address)
    } else if is_tag(text) {
        Some(Lone::Html)
    } else {
        None
    }
}

/// The address or the tag in front, in its angle brackets.
pub fn angle(bytes: &[u8]) -> Option<Cut>
    ensures value { result ≡ angle bytes.now }
    ensures within { IfSome result (λ cut. cut.more < length bytes.now) }
{
    let form = angled(bytes)?;
    let lone = lone_of(&bytes[form.from..form.to])?;
    Some(Cut {
        kind: Kind::Lone(lone),
        more: form.to,
    })
}
