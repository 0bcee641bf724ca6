// What inlines lay out.
ghost use Rattle.std.specs.Prelude.{◌≡◌, ◌++◌, IfOk, OnOk, string_bytes};
ghost use Rattle.md_text.specs.Inlines.{begin_line, text_line, text, code, display, footnote_reference, html, joined_text, math, soft_break, rule, task_mark, link_end, text_lines, leaf};
ghost use Rattle.md_text.specs.State.{laid};
ghost use Rattle.std.specs.Str.Lines.{lines};

use super::Machine;
use md_events::Event;
use md_table::StyleSheet;
use std::alloc::{AllocError, Global};
use term_text::{CowStr, Span, Style};

impl<'e, 'a> Machine<'e, 'a> {
    /// What a leaf lays out; the lines of an HTML block are laid out with it.
    pub(super) fn leaf<S: StyleSheet>(
        &mut self,
        sheet: &S,
        event: &Event<'a>,
    ) -> Result<(), AllocError>
        ensures { OnOk result (self.new
            ≡ laid self.old (leaf (S.sheet sheet.now) self.old.environment self.old.spacing event.now)) }
    {
        match event {
            Event::Text(content) => self.text(content),
            Event::Code(content) => self.code(sheet, content),
            Event::InlineHtml(content) => self.html(sheet, content),
            Event::InlineMath(content) => self.math(sheet, content),
            Event::DisplayMath(content) => self.display(sheet, content),
            Event::FootnoteReference(label) => self.footnote_reference(sheet, label),
            Event::SoftBreak => self.soft_break(),
            Event::HardBreak => self.open(),
            Event::Rule => self.rule(),
            Event::TaskListMarker(is_done) => self.task_mark(*is_done),
            _ => Ok(()),
        }
    }

    /// The lines of a text, which are copied only where the text is owned.
    fn text(&mut self, content: &CowStr<'a>) -> Result<(), AllocError>
        ensures { OnOk result (self.new ≡ laid self.old (text self.old.environment self.old.spacing content.now)) }
    {
        match content.as_borrowed() {
            Some(borrowed) => self.borrowed_text(borrowed),
            None => self.copied_lines(true, content.as_str()),
        }
    }

    fn borrowed_text(&mut self, content: &'a str) -> Result<(), AllocError>
        ensures { OnOk result (self.new ≡ laid self.old (text self.old.environment self.old.spacing content.entry.now)) }
    {
        let mut is_first = true;
        for line in content.lines() {
            self.text_line(is_first, CowStr::borrowed(line))?;
            is_first = false;
        }
        Ok(())
    }

    /// The lines of a text, copied; the first one joins, or opens a line as the others do.
    pub(super) fn copied_lines(&mut self, joins: bool, content: &str) -> Result<(), AllocError>
        ensures { OnOk result (self.new ≡ laid self.old (text_lines joins self.old.environment self.old.spacing (lines content.now))) }
    {
        let mut is_first = joins;
        for line in content.lines() {
            let owned = String::from_str(self.alloc, line)?;
            self.text_line(is_first, CowStr::owned(owned))?;
            is_first = false;
        }
        Ok(())
    }

    fn text_line(&mut self, is_first: bool, line: CowStr<'a>) -> Result<(), AllocError>
        ensures { OnOk result (self.new ≡ laid self.old (text_line is_first self.old.environment self.old.spacing line.entry)) }
    {
        self.begin_line(is_first)?;
        self.put(Span::styled(line, self.environment.inline_style))
    }

    fn begin_line(&mut self, is_first: bool) -> Result<(), AllocError>
        ensures { OnOk result (self.new ≡ laid self.old (begin_line is_first self.old.environment self.old.spacing)) }
    {
        if is_first { self.join() } else { self.open() }
    }

    fn code<S: StyleSheet>(&mut self, sheet: &S, content: &CowStr<'a>) -> Result<(), AllocError>
        ensures { OnOk result (self.new
            ≡ laid self.old (code (S.sheet sheet.now) self.old.environment self.old.spacing content.now)) }
    {
        let text = content.try_clone(self.alloc)?;
        self.joined_text(text, sheet.code())
    }

    /// A text in a style; it begins a line if one is due.
    fn joined_text(&mut self, text: CowStr<'a>, style: Style) -> Result<(), AllocError>
        ensures { OnOk result (self.new
            ≡ laid self.old (joined_text self.old.environment self.old.spacing text.entry style)) }
    {
        self.join()?;
        self.put(Span::styled(text, style))
    }

    fn html<S: StyleSheet>(&mut self, sheet: &S, content: &CowStr<'a>) -> Result<(), AllocError>
        ensures { OnOk result (self.new
            ≡ laid self.old (html (S.sheet sheet.now) self.old.environment self.old.spacing content.now)) }
    {
        let text = content.try_clone(self.alloc)?;
        self.joined_text(text, self.environment.inline_style.patch(sheet.html()))
    }

    fn math<S: StyleSheet>(&mut self, sheet: &S, content: &CowStr<'a>) -> Result<(), AllocError>
        ensures { OnOk result (self.new
            ≡ laid self.old (math (S.sheet sheet.now) self.old.environment self.old.spacing content.now)) }
    {
        let text = between(self.alloc, "$", content.as_str(), "$")?;
        let style = self.environment.inline_style.patch(sheet.math_inline());
        self.joined_text(CowStr::owned(text), style)
    }

    fn footnote_reference<S: StyleSheet>(
        &mut self,
        sheet: &S,
        label: &CowStr<'a>,
    ) -> Result<(), AllocError>
        ensures { OnOk result (self.new
            ≡ laid self.old (footnote_reference (S.sheet sheet.now) self.old.environment self.old.spacing label.now)) }
    {
        let text = between(self.alloc, "[", label.as_str(), "]")?;
        let style = self.environment.inline_style.patch(sheet.footnote_ref());
        self.joined_text(CowStr::owned(text), style)
    }

    /// The lines of display math; a line is due behind them.
    fn display<S: StyleSheet>(&mut self, sheet: &S, content: &CowStr<'a>) -> Result<(), AllocError>
        ensures { OnOk result (self.new
            ≡ laid self.old (display (S.sheet sheet.now) self.old.environment self.old.spacing content.now)) }
    {
        let text = between(self.alloc, "$$", content.as_str(), "$$")?;
        let outer = self.environment;
        self.environment.inline_style = sheet.math_display();
        self.copied_lines(true, text.as_str())?;
        self.environment = outer;
        self.spacing.due = true;
        Ok(())
    }

    /// A blank, or in metadata a new line.
    fn soft_break(&mut self) -> Result<(), AllocError>
        ensures { OnOk result (self.new ≡ laid self.old (soft_break self.old.environment self.old.spacing)) }
    {
        if self.environment.in_metadata {
            return self.open();
        }
        self.put(Span::raw(CowStr::borrowed(" ")))
    }

    fn rule(&mut self) -> Result<(), AllocError>
        ensures { OnOk result (self.new ≡ laid self.old (rule self.old.environment self.old.spacing)) }
    {
        self.gap()?;
        self.open()?;
        self.put(Span::raw(CowStr::borrowed("---")))?;
        self.spacing.due = true;
        Ok(())
    }

    /// A task mark leaves a fresh marker fresh.
    fn task_mark(&mut self, is_done: bool) -> Result<(), AllocError>
        ensures { OnOk result (self.new ≡ laid self.old (task_mark self.old.spacing is_done)) }
    {
        let fresh = self.spacing.fresh;
        let text = if is_done { "[x] " } else { "[ ] " };
        self.put(Span::raw(CowStr::borrowed(text)))?;
        self.spacing.fresh = fresh;
        Ok(())
    }

    /// A link's destination in parentheses.
    pub(super) fn link_end<S: StyleSheet>(
        &mut self,
        sheet: &S,
        dest_url: &CowStr<'a>,
    ) -> Result<(), AllocError>
        ensures { OnOk result (self.new
            ≡ laid self.old (link_end (S.sheet sheet.now) self.old.spacing dest_url.now)) }
    {
        let destination = dest_url.try_clone(self.alloc)?;
        self.put(Span::raw(CowStr::borrowed(" (")))?;
        self.put(Span::styled(destination, sheet.link()))?;
        self.put(Span::raw(CowStr::borrowed(")")))
    }
}

/// A text between two others.
pub(super) fn between(
    alloc: Global,
    before: &str,
    content: &str,
    behind: &str,
) -> Result<String, AllocError>
    ensures { IfOk result (λ text. string_bytes text ≡ before.now ++ (content.now ++ behind.now)) }
{
    let mut text = String::from_str(alloc, before)?;
    text.push_str(content)?;
    text.push_str(behind)?;
    Ok(text)
}
