// What quotes, alerts, lists and items lay out before what is inside them.
ghost use Rattle.std.specs.Prelude.{◌≡◌, OnOk, IfOk, string_bytes};
ghost use Rattle.md_text.specs.Alerts.{alert_of};
ghost use Rattle.md_text.specs.Containers.{beside, alert_title, alert, quote, list, item};
ghost use Rattle.md_text.specs.State.{laid};

use super::Machine;
use crate::environment::{Fresh, alert_of, one_more};
use crate::marker::marker;
use md_events::BlockQuoteKind;
use md_table::{AlertKind, StyleSheet};
use std::alloc::{AllocError, Global};
use term_text::{CowStr, Span};

impl<'e, 'a> Machine<'e, 'a> {
    pub(super) fn quote<S: StyleSheet>(
        &mut self,
        sheet: &S,
        kind: Option<BlockQuoteKind>,
    ) -> Result<(), AllocError>
        ensures { OnOk result (self.new
            ≡ laid self.old (quote (S.sheet sheet.now) self.old.environment self.old.spacing kind)) }
    {
        match kind {
            None => self.join(),
            Some(kind) => self.alert(sheet, alert_of(kind)),
        }
    }

    /// An alert's first line has its icon and label.
    fn alert<S: StyleSheet>(&mut self, sheet: &S, kind: AlertKind) -> Result<(), AllocError>
        ensures { OnOk result (self.new
            ≡ laid self.old (alert (S.sheet sheet.now) self.old.environment self.old.spacing kind)) }
    {
        self.join()?;
        let quotes = one_more(self.environment.quotes)?;
        let style = sheet.alert(kind);
        self.open_styled(quotes, style)?;
        let title = beside(self.alloc, sheet.alert_icon(kind), sheet.alert_label(kind))?;
        self.put(Span::styled(CowStr::owned(title), style.bold()))?;
        self.spacing.due = false;
        Ok(())
    }

    /// Only a list that stands in no other begins with an empty line.
    pub(super) fn list(&mut self) -> Result<(), AllocError>
        ensures { OnOk result (self.new ≡ laid self.old (list self.old.environment self.old.spacing)) }
    {
        if self.environment.depth == 0 {
            self.gap()?;
        }
        Ok(())
    }

    /// An item's line, and its marker, which is fresh.
    pub(super) fn item<S: StyleSheet>(&mut self, sheet: &S) -> Result<(), AllocError>
        ensures { OnOk result (self.new
            ≡ laid self.old (item (S.sheet sheet.now) self.old.environment self.old.spacing)) }
    {
        self.open()?;
        let marker = marker(
            self.alloc,
            sheet,
            self.environment.depth,
            self.environment.number,
        )?;
        self.put(marker)?;
        self.spacing.due = false;
        self.spacing.fresh = Fresh::Marker;
        Ok(())
    }
}

/// Icon, blank and label; only the one that is not empty if one is.
fn beside(alloc: Global, icon: &str, label: &str) -> Result<String, AllocError>
    ensures { IfOk result (λ text. string_bytes text ≡ beside icon.now label.now) }
{
    let mut text = String::from_str(alloc, icon)?;
    if !icon.is_empty() && !label.is_empty() {
        text.push_str(" ")?;
    }
    text.push_str(label)?;
    Ok(text)
}
