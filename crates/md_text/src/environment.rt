// What the layout hands down into elements, and what it passes along.
ghost use Rattle.std.specs.Prelude.{◌≡◌, ◌+◌, IfOk};
ghost use Rattle.md_tree.specs.Tree.{Empty};
ghost use Rattle.md_text.specs.Alerts.{alert_of};
ghost use Rattle.md_text.specs.Environment.{first_environment, first_spacing, styled, quote_style, environment_inside};
ghost use Rattle.md_text.specs.State.{restored_from, environment_behind};

use crate::marker::{marker_width, number_after};
use md_events::{BlockQuoteKind, Event, Tag};
use md_table::{AlertKind, StyleSheet};
use std::alloc::{AllocError, Global};
use term_text::Style;

/// What leaves stand in.
#[derive(Clone, Copy)]
pub enum Within {
    /// Lines that they add to.
    Lines,
    /// A block of code or HTML, whose content they are.
    Code,
    /// A table, to whose open cell they go.
    Cell,
    /// An image, whose description they are.
    Image,
}

/// What is handed down into elements, and never comes back from them.
#[derive(Clone, Copy)]
pub struct Environment {
    /// The number of open quotes.
    pub quotes: usize,
    /// The style under a whole line.
    pub line_style: Style,
    pub inline_style: Style,
    /// The number of open lists.
    pub depth: usize,
    /// The number of the innermost list's next item, if its items have numbers.
    pub number: Option<u64>,
    /// The number of columns of the innermost item's marker and task mark; 0 outside items.
    pub item_width: usize,
    pub within: Within,
    /// Whether a soft break begins a line, as it does in metadata.
    pub in_metadata: bool,
}

/// Whether an item's marker or a prefix is all that stands on the last line.
#[derive(Clone, Copy, PartialEq, Eq)]
pub enum Fresh {
    No,
    Marker,
    Prefix,
}

/// What is passed along from node to node.
#[derive(Clone, Copy)]
pub struct Spacing {
    /// Whether a line is due before what follows.
    pub due: bool,
    pub fresh: Fresh,
    /// Whether any line was opened.
    pub any_line: bool,
}

impl Environment {
    /// The environment of a document.
    pub fn first() -> Environment
        ensures { result ≡ first_environment }
    {
        Environment {
            quotes: 0,
            line_style: Style::new(),
            inline_style: Style::new(),
            depth: 0,
            number: None,
            item_width: 0,
            within: Within::Lines,
            in_metadata: false,
        }
    }

    /// The environment inside an element of which nothing inside is known yet, or want of memory where a number is too large.
    pub fn inside<S: StyleSheet>(
        self,
        alloc: Global,
        sheet: &S,
        tag: &Tag,
    ) -> Result<Environment, AllocError>
        ensures { IfOk result (λ env. env ≡ environment_inside (S.sheet sheet.now) self tag.now Empty) }
    {
        Ok(match tag {
            Tag::BlockQuote(kind) => Environment {
                quotes: one_more(self.quotes)?,
                line_style: quote_style(sheet, *kind),
                ..self
            },
            Tag::List(start) => Environment {
                depth: one_more(self.depth)?,
                number: *start,
                ..self
            },
            Tag::Item => Environment {
                item_width: marker_width(alloc, self.depth, self.number)?,
                ..self
            },
            Tag::Emphasis => self.styled(Style::new().italic()),
            Tag::Strong => self.styled(Style::new().bold()),
            Tag::Strikethrough => self.styled(Style::new().crossed_out()),
            Tag::Superscript | Tag::Subscript => self.styled(Style::new().dim().italic()),
            Tag::Link { .. } => self.styled(sheet.link()),
            Tag::Image { .. } => Environment {
                within: Within::Image,
                ..self.styled(sheet.image_alt())
            },
            Tag::FootnoteDefinition(_) => Environment {
                line_style: sheet.footnote_def(),
                ..self
            },
            Tag::DefinitionListTitle => self.styled(sheet.definition_term()),
            Tag::DefinitionListDefinition => self.styled(sheet.definition_description()),
            Tag::MetadataBlock => Environment {
                line_style: sheet.metadata_block(),
                in_metadata: true,
                ..self
            },
            Tag::CodeBlock(_) | Tag::HtmlBlock => Environment {
                within: Within::Code,
                ..self
            },
            Tag::Table(_) => Environment {
                within: Within::Cell,
                ..self
            },
            _ => self,
        })
    }

    /// The environment behind an element that was begun in this one, by that at its end. A task mark in a paragraph has told
    /// the width of the item round it.
    pub fn restored(self, tag: &Tag, inner: Environment) -> Environment
        ensures { result ≡ restored_from self tag.now inner }
    {
        match tag {
            Tag::Paragraph => Environment {
                item_width: inner.item_width,
                ..self
            },
            Tag::Item => Environment {
                number: number_after(self.number),
                ..self
            },
            _ => self,
        }
    }

    /// The environment behind a leaf, or want of memory where a number is too large. A task mark makes its item wider.
    pub fn behind(self, leaf: &Event) -> Result<Environment, AllocError>
        ensures { IfOk result (λ env. env ≡ environment_behind self leaf.now) }
    {
        match leaf {
            Event::TaskListMarker(_) => match self.item_width.checked_add(4) {
                Some(item_width) => Ok(Environment { item_width, ..self }),
                None => Err(AllocError),
            },
            _ => Ok(self),
        }
    }

    /// The inline style with this one over it.
    fn styled(self, style: Style) -> Environment
        ensures { result ≡ styled self style }
    {
        Environment {
            inline_style: self.inline_style.patch(style),
            ..self
        }
    }
}

impl Spacing {
    /// The spacing state before the first block.
    pub fn first() -> Spacing
        ensures { result ≡ first_spacing }
    {
        Spacing {
            due: false,
            fresh: Fresh::No,
            any_line: false,
        }
    }
}

/// The kind of alert that a quote is.
pub fn alert_of(kind: BlockQuoteKind) -> AlertKind
    ensures { result ≡ alert_of kind }
{
    match kind {
        BlockQuoteKind::Note => AlertKind::Note,
        BlockQuoteKind::Tip => AlertKind::Tip,
        BlockQuoteKind::Important => AlertKind::Important,
        BlockQuoteKind::Warning => AlertKind::Warning,
        BlockQuoteKind::Caution => AlertKind::Caution,
    }
}

fn quote_style<S: StyleSheet>(sheet: &S, kind: Option<BlockQuoteKind>) -> Style
    ensures { result ≡ quote_style (S.sheet sheet.now) kind }
{
    match kind {
        None => sheet.blockquote(),
        Some(kind) => sheet.alert(alert_of(kind)),
    }
}

/// One more than a count; what can't be counted finds no memory either.
pub fn one_more(count: usize) -> Result<usize, AllocError>
    ensures { IfOk result (λ more. more ≡ count + 1) }
{
    match count.checked_add(1) {
        Some(more) => Ok(more),
        None => Err(AllocError),
    }
}
