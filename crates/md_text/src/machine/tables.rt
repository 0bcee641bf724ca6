// What tables lay out, and the cells that their events build.
ghost use Rattle.std.specs.Prelude.{◌≡◌, ◌-◌, OnOk, IfOk};
ghost use Rattle.md_text.specs.Laid.{each_laid, put_all};
ghost use Rattle.md_text.specs.Look.{look_of, knows_nothing, as_it_is};
ghost use Rattle.md_text.specs.Tables.{in_item, quotes_width, room_for_table, table_picture, indent, begin_picture_line, picture_line, table};
ghost use Rattle.md_text.specs.State.{started_in_table, ended_in_table, laid};

use super::{Machine, put_last};
use crate::environment::{Environment, Fresh};
use crate::marker::blanks;
use crate::options::Options;
use md_events::Tag;
use md_table::{StyleSheet, TableBuilder};
use std::alloc::AllocError;
use std::mem;
use term_text::{CowStr, Line, Span};

impl<'e, 'a> Machine<'e, 'a> {
    /// A table starts, or a cell.
    pub(super) fn started_in_table(&mut self, tag: &Tag<'a>) -> Result<(), AllocError>
        ensures { OnOk result (self.new ≡ record self.old { builder = started_in_table self.old.builder tag.now }) }
    {
        match tag {
            Tag::Table(alignments) => {
                let alignments = Vec::from_slice(self.alloc, alignments.as_slice())?;
                let builder = TableBuilder::new(self.alloc, alignments);
                let _ = mem::replace(&mut self.builder, builder);
            }
            Tag::TableCell => self.builder.start_cell(),
            _ => {}
        }
        Ok(())
    }

    /// A part of a table ends.
    pub(super) fn ended_in_table(&mut self, tag: &Tag<'a>) -> Result<(), AllocError>
        ensures { OnOk result (self.new
            ≡ record self.old { builder = ended_in_table self.old.builder tag.now }) }
    {
        match tag {
            Tag::TableCell => self.builder.finish_cell(),
            Tag::TableHead => {
                self.builder.finish_header();
                Ok(())
            }
            Tag::TableRow => self.builder.finish_row(),
            _ => Ok(()),
        }
    }

    /// The table that was built: the lines of its picture.
    pub(super) fn table<S: StyleSheet>(
        &mut self,
        options: &Options<S>,
        builder: TableBuilder<'a>,
    ) -> Result<(), AllocError>
        ensures { OnOk result (self.new
            ≡ laid self.old (table (look_of options.now S.sheet knows_nothing as_it_is) self.old.environment self.old.spacing builder.entry.table)) }
    {
        self.join()?;
        let picture = table_picture(options, self.environment, builder)?;
        self.picture_lines(picture)?;
        self.spacing.due = true;
        Ok(())
    }

    fn picture_lines(&mut self, picture: Vec<Line<'a>>) -> Result<(), AllocError>
        ensures { OnOk result (self.new ≡ laid self.old (each_laid (picture_line self.old.environment) self.old.spacing picture.entry.items)) }
    {
        for line in picture {
            self.picture_line(line)?;
        }
        Ok(())
    }

    fn picture_line(&mut self, line: Line<'a>) -> Result<(), AllocError>
        ensures { OnOk result (self.new ≡ laid self.old (picture_line self.old.environment self.old.spacing line.entry)) }
    {
        self.begin_picture_line()?;
        self.put_all(line.into_spans())
    }

    /// Begins a line, and inside an item its blanks; the first line of a picture stands on the line of a fresh marker.
    fn begin_picture_line(&mut self) -> Result<(), AllocError>
        ensures { OnOk result (self.new ≡ laid self.old (begin_picture_line self.old.environment self.old.spacing)) }
    {
        if in_item(self.environment) && self.spacing.fresh == Fresh::Marker {
            return Ok(());
        }
        self.open()?;
        self.indent()
    }

    /// Adds as many blanks to the last line as the item is wide; none outside items.
    fn indent(&mut self) -> Result<(), AllocError>
        ensures { OnOk result (self.new ≡ laid self.old (indent self.old.environment self.old.spacing)) }
    {
        if !in_item(self.environment) {
            return Ok(());
        }
        let text = blanks(self.alloc, self.environment.item_width)?;
        put_last(&mut self.lines, Span::raw(CowStr::owned(text)))?;
        self.spacing.fresh = Fresh::No;
        Ok(())
    }

    /// Adds spans to the last line.
    pub(super) fn put_all(&mut self, spans: Vec<Span<'a>>) -> Result<(), AllocError>
        ensures { OnOk result (self.new ≡ laid self.old (put_all self.old.spacing spans.entry.items)) }
    {
        for span in spans {
            self.put(span)?;
        }
        Ok(())
    }
}

/// The lines of the picture of the table that was built, in what there is of the width that is set.
fn table_picture<'a, S: StyleSheet>(
    options: &Options<S>,
    environment: Environment,
    builder: TableBuilder<'a>,
) -> Result<Vec<Line<'a>>, AllocError>
    ensures { IfOk result (λ lines. lines.items
        ≡ table_picture (look_of options.now S.sheet knows_nothing as_it_is) environment builder.entry.table) }
{
    let room = room_for_table(options.width_of_tables(), environment);
    builder.render(options.styles(), room, options.row_dividers())
}

/// What quote marks and an item's width leave of the width that is set for tables.
fn room_for_table(width: Option<u16>, environment: Environment) -> Option<usize>
    ensures { result ≡ room_for_table width environment }
{
    match width {
        None => None,
        Some(width) => {
            let behind_quotes = behind_quotes(usize::from(width), environment);
            Some(behind_quotes.saturating_sub(environment.item_width))
        }
    }
}

/// What quote marks and the blank behind them leave of a width.
fn behind_quotes(width: usize, environment: Environment) -> usize
    ensures { result ≡ width - quotes_width environment }
{
    if environment.quotes == 0 {
        return width;
    }
    width.saturating_sub(environment.quotes).saturating_sub(1)
}

fn in_item(environment: Environment) -> bool
    ensures { result ≡ in_item environment }
{
    environment.item_width != 0
}
