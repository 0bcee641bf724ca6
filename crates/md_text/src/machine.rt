// The machine that draws the lines of a tree from its events.
ghost use Rattle.std.specs.Prelude.{◌≡◌, ◌<◌, length, OnOk, IfOk};
ghost use Rattle.md_text.specs.Marks.{quoted_line, put_last};
ghost use Rattle.md_text.specs.Laid.{open_styled, open_laid, gap_laid, join_laid, put_laid};
ghost use Rattle.md_text.specs.State.{State, laid, first_state};

use crate::environment::{Environment, Fresh, Spacing};
use crate::frame::Frame;
use md_table::TableBuilder;
use std::alloc::{AllocError, Global};
use std::marker::Model;
use term_text::{CowStr, Line, Span, Stack, Style, Text};

mod blocks;
mod code;
mod containers;
mod flat;
mod headings;
mod html;
mod images;
mod inlines;
mod notes;
mod tables;
mod walk;

/// The open elements, the environment and the spacing state here, what is known of the open block of code, table and
/// images, and the lines so far.
#[derive(Drop)]
pub struct Machine<'e, 'a> {
    alloc: Global,
    frames: Stack<Frame<'e, 'a>>,
    environment: Environment,
    spacing: Spacing,
    // The texts of the open block of code so far.
    content: String,
    // The open table so far.
    builder: TableBuilder<'a>,
    // The pieces of the open images so far, with a place for the marker of each.
    pieces: Vec<Span<'a>>,
    lines: Vec<Line<'a>>,
}

impl<'e, 'a> Model for Machine<'e, 'a> {
    ghost use Rattle.std.specs.Prelude.{string_bytes};
    ghost use Rattle.md_text.specs.State.{State};

    ghost Value = { State };

    ghost view = { λ m. record { open_elements = m.frames; environment = m.environment; spacing = m.spacing; content = string_bytes m.content; builder = m.builder; pieces = m.pieces.items; lines = m.lines.items } };
}

impl<'e, 'a> Machine<'e, 'a> {
    /// A machine at the beginning of a document; takes no memory.
    pub fn new(alloc: Global) -> Machine<'e, 'a>
        ensures { result ≡ first_state }
    {
        Machine {
            alloc,
            frames: Stack::new(alloc),
            environment: Environment::first(),
            spacing: Spacing::first(),
            content: String::new(alloc),
            builder: TableBuilder::new(alloc, Vec::new(alloc)),
            pieces: Vec::new(alloc),
            lines: Vec::new(alloc),
        }
    }

    /// The lines that were drawn.
    pub fn into_text(self) -> Result<Text<'a>, AllocError>
        ensures { IfOk result (λ text. text ≡ self.entry.lines) }
    {
        let Machine { alloc, lines, .. } = self;
        let mut text = Text::new(alloc);
        for line in lines {
            text.push_line(line)?;
        }
        Ok(text)
    }

    /// Begins a line.
    fn open(&mut self) -> Result<(), AllocError>
        ensures { OnOk result (self.new ≡ laid self.old (open_laid self.old.environment self.old.spacing)) }
    {
        let Environment {
            quotes,
            line_style,
            ..
        } = self.environment;
        self.open_styled(quotes, line_style)
    }

    /// Begins a line of this style, behind so many quote marks.
    fn open_styled(&mut self, quotes: usize, style: Style) -> Result<(), AllocError>
        ensures { OnOk result (self.new ≡ laid self.old (open_styled quotes style self.old.spacing)) }
    {
        self.lines.push(begun(self.alloc, quotes, style)?)?;
        self.spacing.fresh = Fresh::No;
        self.spacing.any_line = true;
        Ok(())
    }

    /// Begins a line if one is due.
    fn gap(&mut self) -> Result<(), AllocError>
        ensures { OnOk result (self.new ≡ laid self.old (gap_laid self.old.environment self.old.spacing)) }
    {
        if self.spacing.due {
            self.open()?;
        }
        Ok(())
    }

    /// Begins a line if one is due, and then none is due.
    fn join(&mut self) -> Result<(), AllocError>
        ensures { OnOk result (self.new ≡ laid self.old (join_laid self.old.environment self.old.spacing)) }
    {
        if self.spacing.due {
            self.open()?;
            self.spacing.due = false;
        }
        Ok(())
    }

    /// Adds a span that has a text to the last line.
    fn put(&mut self, span: Span<'a>) -> Result<(), AllocError>
        ensures { OnOk result (self.new ≡ laid self.old (put_laid self.old.spacing span.entry)) }
    {
        if span.text().is_empty() {
            return Ok(());
        }
        put_last(&mut self.lines, span)?;
        self.spacing.fresh = Fresh::No;
        Ok(())
    }
}

/// An empty line of this style behind its quote marks.
fn begun<'a>(alloc: Global, quotes: usize, style: Style) -> Result<Line<'a>, AllocError>
    ensures { IfOk result (λ line. line ≡ quoted_line quotes style) }
{
    let mut line = Line::new(alloc);
    line.set_style(style);
    for _ in 0..quotes {
        line.push_span(Span::raw(CowStr::borrowed(">")))?;
    }
    if quotes > 0 {
        line.push_span(Span::raw(CowStr::borrowed(" ")))?;
    }
    Ok(line)
}

/// Adds a span that has a text to the last line, if there is a line.
fn put_last<'a>(lines: &mut Vec<Line<'a>>, span: Span<'a>) -> Result<(), AllocError>
    requires { 0 < length span.text }
    ensures { OnOk result (lines.new.items ≡ put_last lines.old.items span.entry) }
{
    let count = lines.len();
    if count == 0 {
        return Ok(());
    }
    lines[count - 1].push_span(span)?;
    Ok(())
}
