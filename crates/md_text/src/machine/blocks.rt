// What elements lay out before and behind what is inside them.
ghost use Rattle.std.specs.Prelude.{◌≡◌, OnOk};
ghost use Rattle.md_text.specs.Blocks.{paragraph, enter, leave};
ghost use Rattle.md_text.specs.State.{laid};

use super::Machine;
use crate::environment::Fresh;
use md_events::Tag;
use md_table::StyleSheet;
use std::alloc::AllocError;

impl<'e, 'a> Machine<'e, 'a> {
    /// What an element lays out before its inside.
    pub(super) fn enter<S: StyleSheet>(
        &mut self,
        sheet: &S,
        tag: &Tag<'a>,
    ) -> Result<(), AllocError>
        ensures { OnOk result (self.new
            ≡ laid self.old (enter (S.sheet sheet.now) self.old.environment self.old.spacing tag.now)) }
    {
        match tag {
            Tag::Heading { level, .. } => self.heading(sheet, *level),
            Tag::BlockQuote(kind) => self.quote(sheet, *kind),
            Tag::List(_) => self.list(),
            Tag::Item => self.item(sheet),
            Tag::Paragraph => self.paragraph(),
            Tag::FootnoteDefinition(label) => self.footnote(sheet, label),
            Tag::DefinitionList => self.join(),
            Tag::DefinitionListTitle => self.open(),
            Tag::DefinitionListDefinition => self.description(sheet),
            Tag::MetadataBlock => self.metadata(sheet),
            _ => Ok(()),
        }
    }

    /// A paragraph stands behind a marker or prefix on its line, or else on a line of its own
    /// with an empty one before it if a line is due.
    fn paragraph(&mut self) -> Result<(), AllocError>
        ensures { OnOk result (self.new ≡ laid self.old (paragraph self.old.environment self.old.spacing)) }
    {
        if self.spacing.fresh != Fresh::No && !self.spacing.due {
            return Ok(());
        }
        self.gap()?;
        self.open()?;
        self.spacing.due = false;
        Ok(())
    }

    /// What an element lays out behind its inside; blocks of code and HTML and tables are laid out elsewhere.
    pub(super) fn leave<S: StyleSheet>(
        &mut self,
        sheet: &S,
        tag: &Tag<'a>,
    ) -> Result<(), AllocError>
        ensures { OnOk result (self.new ≡ laid self.old (leave (S.sheet sheet.now) self.old.environment self.old.spacing tag.now)) }
    {
        match tag {
            Tag::Heading {
                id,
                classes,
                attrs,
                ..
            } => self.heading_end(sheet, id, classes, attrs),
            Tag::Link { dest_url } => self.link_end(sheet, dest_url),
            Tag::MetadataBlock => self.metadata_end(sheet),
            Tag::Paragraph
            | Tag::BlockQuote(_)
            | Tag::List(_)
            | Tag::FootnoteDefinition(_)
            | Tag::DefinitionList => {
                self.spacing.due = true;
                Ok(())
            }
            Tag::DefinitionListTitle | Tag::DefinitionListDefinition => {
                self.spacing.due = false;
                Ok(())
            }
            _ => Ok(()),
        }
    }
}
