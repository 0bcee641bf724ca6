// What headings lay out.
ghost use Rattle.std.specs.Prelude.{◌≡◌, ◌++◌, OnOk, IfOk, string_bytes, map};
ghost use Rattle.md_text.specs.Headings.{level_number, with_blank, heading, heading_end, attribute_suffix, class_word, attribute_word, id_words};
ghost use Rattle.md_text.specs.Words.{with_word, with_words, closed};
ghost use Rattle.md_text.specs.State.{laid};

use super::Machine;
use md_events::{Attrs, Classes, HeadingLevel};
use md_table::StyleSheet;
use std::alloc::{AllocError, Global};
use term_text::{CowStr, Span};

impl<'e, 'a> Machine<'e, 'a> {
    /// A heading's line, and its mark.
    pub(super) fn heading<S: StyleSheet>(
        &mut self,
        sheet: &S,
        level: HeadingLevel,
    ) -> Result<(), AllocError>
        ensures { OnOk result (self.new
            ≡ laid self.old (heading (S.sheet sheet.now) self.old.environment self.old.spacing level)) }
    {
        self.gap()?;
        let number = level_number(level);
        let style = sheet.heading(number).patch(self.environment.line_style);
        self.open_styled(self.environment.quotes, style)?;
        let marker = with_blank(self.alloc, sheet.heading_marker(number))?;
        self.put(Span::raw(CowStr::owned(marker)))?;
        self.spacing.due = false;
        Ok(())
    }

    /// A heading's attributes.
    pub(super) fn heading_end<S: StyleSheet>(
        &mut self,
        sheet: &S,
        id: &Option<CowStr<'a>>,
        classes: &Classes<'a>,
        attrs: &Attrs<'a>,
    ) -> Result<(), AllocError>
        ensures { OnOk result (self.new
            ≡ laid self.old (heading_end (S.sheet sheet.now) self.old.spacing id.now classes.now attrs.now)) }
    {
        let suffix = attribute_suffix(self.alloc, id, classes, attrs)?;
        self.put(Span::styled(CowStr::owned(suffix), sheet.heading_meta()))?;
        self.spacing.due = true;
        Ok(())
    }
}

fn level_number(level: HeadingLevel) -> u8
    ensures { result ≡ level_number level }
{
    match level {
        HeadingLevel::H1 => 1,
        HeadingLevel::H2 => 2,
        HeadingLevel::H3 => 3,
        HeadingLevel::H4 => 4,
        HeadingLevel::H5 => 5,
        HeadingLevel::H6 => 6,
    }
}

/// The mark and a blank, if there is a mark.
fn with_blank(alloc: Global, marker: &str) -> Result<String, AllocError>
    ensures { IfOk result (λ text. string_bytes text ≡ with_blank marker.now) }
{
    let mut text = String::from_str(alloc, marker)?;
    if !marker.is_empty() {
        text.push_str(" ")?;
    }
    Ok(text)
}

/// The attributes in braces behind a blank, and with blanks between them.
fn attribute_suffix(
    alloc: Global,
    id: &Option<CowStr>,
    classes: &Classes,
    attrs: &Attrs,
) -> Result<String, AllocError>
    ensures { IfOk result (λ text. string_bytes text ≡ attribute_suffix id.now classes.now attrs.now) }
{
    let mut text = String::new(alloc);
    push_id(&mut text, id)?;
    push_classes(&mut text, classes)?;
    push_attributes(&mut text, attrs)?;
    close(&mut text)?;
    Ok(text)
}

fn push_id(text: &mut String, id: &Option<CowStr>) -> Result<(), AllocError>
    ensures { OnOk result (string_bytes text.new ≡ with_words (string_bytes text.old) (id_words id.now)) }
{
    match id {
        Some(id) => push_word(text, "#", id.as_str()),
        None => Ok(()),
    }
}

fn push_classes(text: &mut String, classes: &Classes) -> Result<(), AllocError>
    ensures { OnOk result (string_bytes text.new ≡ with_words (string_bytes text.old) (map class_word classes.now)) }
{
    for class in classes.as_slice() {
        push_word(text, ".", class.as_str())?;
    }
    Ok(())
}

fn push_attributes(text: &mut String, attrs: &Attrs) -> Result<(), AllocError>
    ensures { OnOk result (string_bytes text.new ≡ with_words (string_bytes text.old) (map attribute_word attrs.now)) }
{
    for attribute in attrs.as_slice() {
        push_attribute(text, attribute)?;
    }
    Ok(())
}

fn push_attribute(text: &mut String, attribute: &(CowStr, Option<CowStr>)) -> Result<(), AllocError>
    ensures { OnOk result (string_bytes text.new ≡ with_word (string_bytes text.old) (attribute_word attribute.now)) }
{
    let (key, value) = attribute;
    push_word(text, "", key.as_str())?;
    if let Some(value) = value {
        text.push_str("=")?;
        text.push_str(value.as_str())?;
    }
    Ok(())
}

/// Adds a word with a sign before it.
fn push_word(text: &mut String, sign: &str, word: &str) -> Result<(), AllocError>
    ensures { OnOk result (string_bytes text.new ≡ with_word (string_bytes text.old) (sign.now ++ word.now)) }
{
    text.push_str(if text.is_empty() { " {" } else { " " })?;
    text.push_str(sign)?;
    text.push_str(word)?;
    Ok(())
}

fn close(text: &mut String) -> Result<(), AllocError>
    ensures { OnOk result (string_bytes text.new ≡ closed (string_bytes text.old)) }
{
    if !text.is_empty() {
        text.push_str("}")?;
    }
    Ok(())
}
