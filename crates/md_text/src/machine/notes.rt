// What footnote definitions, the entries of definition lists and metadata lay out.
ghost use Rattle.std.specs.Prelude.{◌≡◌, OnOk};
ghost use Rattle.md_text.specs.Notes.{dashes, description, footnote, metadata, metadata_end, prefix};
ghost use Rattle.md_text.specs.State.{laid};

use super::Machine;
use super::inlines::between;
use crate::environment::Fresh;
use md_table::StyleSheet;
use std::alloc::AllocError;
use term_text::{CowStr, Span};

impl<'e, 'a> Machine<'e, 'a> {
    /// A footnote's line in its style, with the label, which is a fresh prefix.
    pub(super) fn footnote<S: StyleSheet>(
        &mut self,
        sheet: &S,
        label: &CowStr<'a>,
    ) -> Result<(), AllocError>
        ensures { OnOk result (self.new
            ≡ laid self.old (footnote (S.sheet sheet.now) self.old.environment self.old.spacing label.now)) }
    {
        self.gap()?;
        let style = sheet.footnote_def();
        self.open_styled(self.environment.quotes, style)?;
        let text = between(self.alloc, "[", label.as_str(), "]: ")?;
        self.prefix(Span::styled(CowStr::owned(text), style))
    }

    /// A description's line, with a colon, which is a fresh prefix.
    pub(super) fn description<S: StyleSheet>(&mut self, sheet: &S) -> Result<(), AllocError>
        ensures { OnOk result (self.new
            ≡ laid self.old (description (S.sheet sheet.now) self.old.environment self.old.spacing)) }
    {
        self.open()?;
        self.prefix(Span::styled(CowStr::borrowed(": "), sheet.definition_description()))
    }

    fn prefix(&mut self, span: Span<'a>) -> Result<(), AllocError>
        ensures { OnOk result (self.new ≡ laid self.old (prefix self.old.spacing span.entry)) }
    {
        self.put(span)?;
        self.spacing.due = false;
        self.spacing.fresh = Fresh::Prefix;
        Ok(())
    }

    /// A line of metadata with three dashes.
    fn dashes<S: StyleSheet>(&mut self, sheet: &S) -> Result<(), AllocError>
        ensures { OnOk result (self.new
            ≡ laid self.old (dashes (S.sheet sheet.now) self.old.environment self.old.spacing)) }
    {
        self.open_styled(self.environment.quotes, sheet.metadata_block())?;
        self.put(Span::raw(CowStr::borrowed("---")))
    }

    /// The dashes before metadata, and its first line.
    pub(super) fn metadata<S: StyleSheet>(&mut self, sheet: &S) -> Result<(), AllocError>
        ensures { OnOk result (self.new
            ≡ laid self.old (metadata (S.sheet sheet.now) self.old.environment self.old.spacing)) }
    {
        self.gap()?;
        self.dashes(sheet)?;
        self.open_styled(self.environment.quotes, sheet.metadata_block())
    }

    /// The dashes behind metadata.
    pub(super) fn metadata_end<S: StyleSheet>(&mut self, sheet: &S) -> Result<(), AllocError>
        ensures { OnOk result (self.new
            ≡ laid self.old (metadata_end (S.sheet sheet.now) self.old.environment self.old.spacing)) }
    {
        self.dashes(sheet)?;
        self.spacing.due = true;
        Ok(())
    }
}
