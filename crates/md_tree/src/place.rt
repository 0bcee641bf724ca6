// Places between the nodes of a tree, and what may stand there.
ghost use Rattle.std.specs.Prelude.{◌≡◌};
ghost use Rattle.md_tree.specs.Good.{may_stand, may_hold, may_end, level_of, document_place, place_inside, place_after, place_after_leaf, numbers_after, holds_blocks, holds_inlines};

use crate::event::{Event, Tag};

/// What a level of a tree holds.
#[derive(Clone, Copy)]
pub enum Holds {
    Blocks,
    /// Blocks, and runs of inlines between them.
    Mixed,
    Items,
    /// Titles and descriptions.
    Entries,
    /// A table's head, and then its rows.
    Head,
    Rows,
    Cells,
    Inlines,
    CodeTexts,
    HtmlTexts,
    MetadataTexts,
}

/// The number of a list's next item.
#[derive(Clone, Copy)]
pub enum Numbers {
    /// The items have no numbers.
    Free,
    Next(u64),
    /// The greatest number is used up.
    Full,
}

/// A place between the nodes of a level.
#[derive(Clone, Copy)]
pub struct Place {
    pub holds: Holds,
    /// Whether the place is inside a link, at any depth.
    pub in_link: bool,
    pub numbers: Numbers,
    /// Whether a task mark may come first here, as an inline.
    pub task_mark: bool,
}

impl Place {
    /// The first place of a document.
    pub fn document() -> Place
        ensures { result ≡ document_place }
    {
        Place::of(Holds::Blocks)
    }

    /// The first place of a level without links, numbers and task mark.
    fn of(holds: Holds) -> Place
        ensures { result ≡ level_of holds }
    {
        Place {
            holds,
            in_link: false,
            numbers: Numbers::Free,
            task_mark: false,
        }
    }

    /// Whether the element may stand here.
    pub fn may_stand(&self, tag: &Tag) -> bool
        ensures { result ≡ may_stand self.now tag.now }
    {
        match tag {
            Tag::Paragraph
            | Tag::Heading { .. }
            | Tag::BlockQuote(_)
            | Tag::CodeBlock(_)
            | Tag::HtmlBlock
            | Tag::List(_)
            | Tag::FootnoteDefinition(_)
            | Tag::DefinitionList
            | Tag::Table(_)
            | Tag::MetadataBlock => self.holds_blocks(),
            Tag::Item => {
                matches!(self.holds, Holds::Items) && !matches!(self.numbers, Numbers::Full)
            }
            Tag::DefinitionListTitle | Tag::DefinitionListDefinition => {
                matches!(self.holds, Holds::Entries)
            }
            Tag::TableHead => matches!(self.holds, Holds::Head),
            Tag::TableRow => matches!(self.holds, Holds::Rows),
            Tag::TableCell => matches!(self.holds, Holds::Cells),
            Tag::Emphasis
            | Tag::Strong
            | Tag::Strikethrough
            | Tag::Superscript
            | Tag::Subscript
            | Tag::Image { .. } => self.holds_inlines(),
            Tag::Link { .. } => self.holds_inlines() && !self.in_link,
        }
    }

    /// Whether the leaf may stand here.
    pub fn may_hold(&self, leaf: &Event) -> bool
        ensures { result ≡ may_hold self.now leaf.now }
    {
        match leaf {
            Event::Text(_) => matches!(
                self.holds,
                Holds::Inlines | Holds::Mixed | Holds::CodeTexts | Holds::MetadataTexts
            ),
            Event::SoftBreak => matches!(
                self.holds,
                Holds::Inlines | Holds::Mixed | Holds::MetadataTexts
            ),
            Event::Html(_) => matches!(self.holds, Holds::HtmlTexts),
            Event::Rule => self.holds_blocks(),
            Event::TaskListMarker(_) => self.holds_inlines() && self.task_mark,
            Event::Code(_)
            | Event::InlineHtml(_)
            | Event::InlineMath(_)
            | Event::DisplayMath(_)
            | Event::FootnoteReference(_)
            | Event::HardBreak => self.holds_inlines(),
            Event::Start(_) | Event::End(_) => false,
        }
    }

    /// Whether the level may end here.
    pub fn may_end(&self) -> bool
        ensures { result ≡ may_end self.now }
    {
        !matches!(self.holds, Holds::Head)
    }

    /// The first place inside an element.
    pub fn inside(&self, tag: &Tag) -> Place
        ensures { result ≡ place_inside self.now tag.now }
    {
        match tag {
            Tag::Paragraph => Place {
                task_mark: self.task_mark,
                ..Place::of(Holds::Inlines)
            },
            Tag::Heading { .. } | Tag::DefinitionListTitle | Tag::TableCell => {
                Place::of(Holds::Inlines)
            }
            Tag::BlockQuote(_) | Tag::FootnoteDefinition(_) => Place::of(Holds::Blocks),
            Tag::CodeBlock(_) => Place::of(Holds::CodeTexts),
            Tag::HtmlBlock => Place::of(Holds::HtmlTexts),
            Tag::List(start) => Place {
                numbers: match start {
                    None => Numbers::Free,
                    Some(number) => Numbers::Next(*number),
                },
                ..Place::of(Holds::Items)
            },
            Tag::Item => Place {
                task_mark: true,
                ..Place::of(Holds::Mixed)
            },
            Tag::DefinitionList => Place::of(Holds::Entries),
            Tag::DefinitionListDefinition => Place::of(Holds::Mixed),
            Tag::Table(_) => Place::of(Holds::Head),
            Tag::TableHead | Tag::TableRow => Place::of(Holds::Cells),
            Tag::Emphasis
            | Tag::Strong
            | Tag::Strikethrough
            | Tag::Superscript
            | Tag::Subscript
            | Tag::Image { .. } => Place {
                in_link: self.in_link,
                ..Place::of(Holds::Inlines)
            },
            Tag::Link { .. } => Place {
                in_link: true,
                ..Place::of(Holds::Inlines)
            },
            Tag::MetadataBlock => Place::of(Holds::MetadataTexts),
        }
    }

    /// The place behind an element.
    pub fn after(&self, tag: &Tag) -> Place
        ensures { result ≡ place_after self.now tag.now }
    {
        let place = self.after_leaf();
        match tag {
            Tag::Item => Place {
                numbers: place.numbers.after(),
                ..place
            },
            Tag::TableHead => Place {
                holds: Holds::Rows,
                ..place
            },
            _ => place,
        }
    }

    /// The place behind a leaf.
    pub fn after_leaf(&self) -> Place
        ensures { result ≡ place_after_leaf self.now }
    {
        Place {
            task_mark: false,
            ..*self
        }
    }

    fn holds_blocks(&self) -> bool
        ensures { result ≡ holds_blocks self.now.holds }
    {
        matches!(self.holds, Holds::Blocks | Holds::Mixed)
    }

    fn holds_inlines(&self) -> bool
        ensures { result ≡ holds_inlines self.now.holds }
    {
        matches!(self.holds, Holds::Inlines | Holds::Mixed)
    }
}

impl Numbers {
    /// The number behind this one.
    fn after(self) -> Numbers
        ensures { result ≡ numbers_after self }
    {
        match self {
            Numbers::Next(u64::MAX) | Numbers::Full => Numbers::Full,
            Numbers::Next(number) => Numbers::Next(number + 1),
            Numbers::Free => Numbers::Free,
        }
    }
}
