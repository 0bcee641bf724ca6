// The lists that tags carry.
ghost use Rattle.std.specs.Prelude.{◌≡◌, [], ◌∷◌, ◌++◌, OnOk, OnErr};

use std::alloc::{AllocError, Global};
use std::marker::Model;
use term_text::{Alignment, CowStr};

/// The classes of a heading, in the order of the source.
#[derive(Drop)]
pub struct Classes<'a> {
    items: Vec<CowStr<'a>>,
}

impl<'a> Model for Classes<'a> {
    ghost use Rattle.std.specs.Prelude.{ℕ, List};

    ghost Value = { List (List ℕ) };

    ghost view = { λ s. s.items.items };
}

impl<'a> Classes<'a> {
    /// The empty list; takes no memory.
    pub fn new(alloc: Global) -> Classes<'a>
        ensures { result ≡ [] }
    {
        Classes {
            items: Vec::new(alloc),
        }
    }

    /// The list.
    pub fn as_slice(&self) -> &[CowStr<'a>]
        ensures { result.now ≡ self.now }
    {
        self.items.as_slice()
    }

    /// Appends an item; after want of memory the list is as before.
    pub fn push(&mut self, item: CowStr<'a>) -> Result<(), AllocError>
        ensures ok { OnOk result (self.new ≡ self.old ++ item.entry ∷ []) }
        ensures err { OnErr result (self.new ≡ self.old) }
    {
        self.items.push(item)?;
        Ok(())
    }
}

/// The attributes of a heading: a key, and its value where it has one.
#[derive(Drop)]
pub struct Attrs<'a> {
    items: Vec<(CowStr<'a>, Option<CowStr<'a>>)>,
}

impl<'a> Model for Attrs<'a> {
    ghost use Rattle.std.specs.Prelude.{ℕ, List, Option};

    ghost Value = { List (List ℕ × Option (List ℕ)) };

    ghost view = { λ s. s.items.items };
}

impl<'a> Attrs<'a> {
    /// The empty list; takes no memory.
    pub fn new(alloc: Global) -> Attrs<'a>
        ensures { result ≡ [] }
    {
        Attrs {
            items: Vec::new(alloc),
        }
    }

    /// The list.
    pub fn as_slice(&self) -> &[(CowStr<'a>, Option<CowStr<'a>>)]
        ensures { result.now ≡ self.now }
    {
        self.items.as_slice()
    }

    /// Appends an item; after want of memory the list is as before.
    pub fn push(&mut self, item: (CowStr<'a>, Option<CowStr<'a>>)) -> Result<(), AllocError>
        ensures ok { OnOk result (self.new ≡ self.old ++ item.entry ∷ []) }
        ensures err { OnErr result (self.new ≡ self.old) }
    {
        self.items.push(item)?;
        Ok(())
    }
}

/// The alignments of a table's columns.
#[derive(Drop)]
pub struct Alignments {
    items: Vec<Alignment>,
}

impl Model for Alignments {
    ghost use Rattle.std.specs.Prelude.{List};
    ghost use Rattle.term_text.specs.declared.alignment.Alignment.{Alignment};

    ghost Value = { List Alignment };

    ghost view = { λ s. s.items.items };
}

impl Alignments {
    /// The empty list; takes no memory.
    pub fn new(alloc: Global) -> Alignments
        ensures { result ≡ [] }
    {
        Alignments {
            items: Vec::new(alloc),
        }
    }

    /// The list.
    pub fn as_slice(&self) -> &[Alignment]
        ensures { result.now ≡ self.now }
    {
        self.items.as_slice()
    }

    /// Appends an item; after want of memory the list is as before.
    pub fn push(&mut self, item: Alignment) -> Result<(), AllocError>
        ensures ok { OnOk result (self.new ≡ self.old ++ item ∷ []) }
        ensures err { OnErr result (self.new ≡ self.old) }
    {
        self.items.push(item)?;
        Ok(())
    }
}
