// Texts that are borrowed or owned.
ghost use Rattle.std.specs.Prelude.{◌≡◌, string_bytes, IfOk, IfSome};

use std::alloc::{AllocError, Global};
use std::marker::Model;

/// A text that is borrowed for `'a` or owned. A contract sees its bytes, and not whether it is borrowed.
#[derive(Drop)]
pub struct CowStr<'a> {
    inner: Inner<'a>,
}

#[derive(Drop)]
enum Inner<'a> {
    Borrowed(&'a str),
    Owned(String),
}

impl<'a> Model for CowStr<'a> {
    ghost use Rattle.std.specs.Prelude.{ℕ, List};

    ghost Value = { List ℕ };

    ghost use Rattle.term_text.specs.CowStr.{bytes_of};

    ghost view = { λ s. bytes_of s.inner };
}

impl<'a> CowStr<'a> {
    /// A borrowed text.
    pub fn borrowed(text: &'a str) -> CowStr<'a>
        ensures { result ≡ text.now }
    {
        CowStr {
            inner: Inner::Borrowed(text),
        }
    }

    /// An owned text.
    pub fn owned(text: String) -> CowStr<'a>
        ensures { result ≡ string_bytes text }
    {
        CowStr {
            inner: Inner::Owned(text),
        }
    }

    /// The text.
    pub fn as_str(&self) -> &str
        ensures { result.now ≡ self.now }
    {
        match &self.inner {
            Inner::Borrowed(text) => text,
            Inner::Owned(text) => text.as_str(),
        }
    }

    /// The text for as long as it is borrowed, or `None` where it is owned.
    pub fn as_borrowed(&self) -> Option<&'a str>
        ensures { IfSome result (λ text. text.now ≡ self.now) }
    {
        match &self.inner {
            Inner::Borrowed(text) => Some(*text),
            Inner::Owned(_) => None,
        }
    }

    /// The same text, borrowed again where it is borrowed, or want of memory.
    pub fn try_clone(&self, alloc: Global) -> Result<CowStr<'a>, AllocError>
        ensures { IfOk result (λ copy. copy ≡ self.now) }
    {
        match &self.inner {
            Inner::Borrowed(text) => Ok(CowStr::borrowed(text)),
            Inner::Owned(text) => Ok(CowStr::owned(String::from_str(alloc, text.as_str())?)),
        }
    }
}
