// What blocks of code lay out.
ghost use Rattle.std.specs.Prelude.{◌≡◌, OnOk, string_bytes};
ghost use Rattle.std.specs.Str.Lines.{lines};
ghost use Rattle.md_text.specs.Look.{look_of};
ghost use Rattle.md_text.specs.Laid.{each_laid, put_all};
ghost use Rattle.md_text.specs.Code.{info, recognised, code_environment, fence, coloured_line, coloured_text, answered_line, code_lines, fenced_lines, apart, code_block};
ghost use Rattle.md_text.specs.State.{laid};

use super::Machine;
use crate::environment::Environment;
use crate::highlight::Highlighter;
use crate::options::Options;
use ansi_text::{Error, IntoText};
use md_events::CodeBlockKind;
use md_table::StyleSheet;
use std::alloc::AllocError;
use term_text::{CowStr, Line, Span, Style};

impl<'e, 'a> Machine<'e, 'a> {
    /// A block of code with this content.
    pub(super) fn code_block<S: StyleSheet, H: Highlighter>(
        &mut self,
        options: &Options<S>,
        highlighter: &H,
        kind: &CodeBlockKind<'a>,
        content: &str,
    ) -> Result<(), AllocError>
        ensures { OnOk result (self.new
            ≡ laid self.old (code_block (look_of options.now S.sheet (H.known highlighter.now) (H.answer highlighter.now)) self.old.environment self.old.spacing kind.now content.now)) }
    {
        self.apart()?;
        let outer = self.environment;
        self.environment = code_environment(options, highlighter, outer, kind);
        self.fenced_lines(options, highlighter, kind, content)?;
        self.environment = outer;
        self.spacing.due = true;
        Ok(())
    }

    /// Begins a line if any line stands above.
    fn apart(&mut self) -> Result<(), AllocError>
        ensures { OnOk result (self.new ≡ laid self.old (apart self.old.environment self.old.spacing)) }
    {
        if self.spacing.any_line {
            self.open()?;
        }
        Ok(())
    }

    fn fenced_lines<S: StyleSheet, H: Highlighter>(
        &mut self,
        options: &Options<S>,
        highlighter: &H,
        kind: &CodeBlockKind<'a>,
        content: &str,
    ) -> Result<(), AllocError>
        ensures { OnOk result (self.new
            ≡ laid self.old (fenced_lines (look_of options.now S.sheet (H.known highlighter.now) (H.answer highlighter.now)) self.old.environment self.old.spacing kind.now content.now)) }
    {
        self.fence(options.styles(), info(kind))?;
        self.code_lines(highlighter, kind, content)?;
        self.fence(options.styles(), "")?;
        Ok(())
    }

    /// The fence with a text behind it, or nothing if the sheet has none.
    fn fence<S: StyleSheet>(&mut self, sheet: &S, text: &str) -> Result<(), AllocError>
        ensures { OnOk result (self.new
            ≡ laid self.old (fence (S.sheet sheet.now) self.old.environment self.old.spacing text.now)) }
    {
        let fence = sheet.code_block_fence();
        if fence.is_empty() {
            return Ok(());
        }
        self.open()?;
        let mut line = String::from_str(self.alloc, fence)?;
        line.push_str(text)?;
        self.put(Span::raw(CowStr::owned(line)))
    }

    fn code_lines<H: Highlighter>(
        &mut self,
        highlighter: &H,
        kind: &CodeBlockKind<'a>,
        content: &str,
    ) -> Result<(), AllocError>
        ensures { OnOk result (self.new
            ≡ laid self.old (code_lines (H.known highlighter.now) (H.answer highlighter.now) self.old.environment self.old.spacing kind.now (lines content.now))) }
    {
        if recognised(highlighter, kind) {
            self.answered_lines(highlighter, info(kind), content)
        } else {
            self.copied_lines(false, content)
        }
    }

    /// What the highlighter answers for each line.
    fn answered_lines<H: Highlighter>(
        &mut self,
        highlighter: &H,
        lang: &str,
        content: &str,
    ) -> Result<(), AllocError>
        ensures { OnOk result (self.new
            ≡ laid self.old (each_laid (answered_line (H.answer highlighter.now) lang.now) self.old.spacing (lines content.now))) }
    {
        for line in content.lines() {
            let answer = highlighter.line(self.alloc, lang, line)?;
            self.coloured_text(&answer)?;
        }
        Ok(())
    }

    /// The lines of a text with ANSI colours.
    fn coloured_text(&mut self, answer: &String) -> Result<(), AllocError>
        ensures { OnOk result (self.new ≡ laid self.old (coloured_text self.old.spacing (string_bytes answer.now))) }
    {
        let text = match answer.to_text(self.alloc) {
            Ok(text) => text,
            Err(Error::Memory) => return Err(AllocError),
            Err(Error::Utf8Error) => unreachable!(),
        };
        self.coloured_lines(text.lines())
    }

    fn coloured_lines(&mut self, lines: &[Line]) -> Result<(), AllocError>
        ensures { OnOk result (self.new ≡ laid self.old (each_laid coloured_line self.old.spacing lines.now)) }
    {
        for line in lines {
            self.coloured_line(line)?;
        }
        Ok(())
    }

    /// A line with colours stands behind no quote marks, in no line style.
    fn coloured_line(&mut self, line: &Line) -> Result<(), AllocError>
        ensures { OnOk result (self.new ≡ laid self.old (coloured_line self.old.spacing line.now)) }
    {
        self.open_styled(0, Style::new())?;
        self.put_copies(line.spans())
    }

    fn put_copies(&mut self, spans: &[Span]) -> Result<(), AllocError>
        ensures { OnOk result (self.new ≡ laid self.old (put_all self.old.spacing spans.now)) }
    {
        for span in spans {
            self.put(span.try_to_owned(self.alloc)?)?;
        }
        Ok(())
    }
}

fn info<'s>(kind: &'s CodeBlockKind) -> &'s str
    ensures { result.now ≡ info kind.now }
{
    match kind {
        CodeBlockKind::Indented => "",
        CodeBlockKind::Fenced(text) => text.as_str(),
    }
}

fn recognised<H: Highlighter>(highlighter: &H, kind: &CodeBlockKind) -> bool
    ensures { result ≡ recognised (H.known highlighter.now) kind.now }
{
    match kind {
        CodeBlockKind::Indented => false,
        CodeBlockKind::Fenced(text) => highlighter.recognises(text.as_str()),
    }
}

fn code_environment<S: StyleSheet, H: Highlighter>(
    options: &Options<S>,
    highlighter: &H,
    environment: Environment,
    kind: &CodeBlockKind,
) -> Environment
    ensures { result ≡ code_environment (look_of options.now S.sheet (H.known highlighter.now) (H.answer highlighter.now)) environment kind.now }
{
    if recognised(highlighter, kind) {
        return environment;
    }
    Environment {
        line_style: options.styles().code(),
        ..environment
    }
}
