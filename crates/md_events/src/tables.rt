// Tables: a head and rows of cells.
ghost use Rattle.std.specs.Prelude.{◌≡◌, ◌++◌, ◌≤◌, IfOk, IsTrue, OnOk, [], ◌∷◌, false, length};
ghost use Rattle.term_text.specs.LineEnds.{is_one_line};
ghost use Rattle.md_tree.specs.Tree.{Branch, Empty, events};
ghost use Rattle.md_tree.specs.declared.event.Tag.TheVariants as tag;
ghost use Rattle.md_inline.specs.Inlines.{inlines};
ghost use Rattle.md_rules.specs.Tables.{cells, starts_table};
ghost use Rattle.md_events.specs.Node.{block_events};
ghost use Rattle.md_events.specs.Tables.{cell_nodes, row_nodes, table};

use md_inline::write_inlines;
use md_lines::Line;
use md_rules::{Cells, alignments, row_count};
use md_tree::{Event, Tag, TagEnd};
use std::alloc::{AllocError, Global};

/// Appends the events of the table that begins at a line, before these lines, and tells how many of them it takes.
pub(crate) fn write_table<'a>(
    alloc: Global,
    line: &Line<'a>,
    later: &[Line<'a>],
    nests: bool,
    out: &mut Vec<Event<'a>>,
) -> Result<usize, AllocError>
    requires { IsTrue (starts_table line.now later.now) }
    ensures written { OnOk result (out.new.items ≡ out.old.items ++ block_events false (table nests line.now later.now)) }
    ensures lines { IfOk result (λ n. n ≡ (table nests line.now later.now).more) }
    ensures within { IfOk result (λ n. n ≤ length later.now) }
{
    let behind = &later[1..];
    let rows = row_count(nests, behind);
    out.push(Event::Start(Tag::Table(alignments(alloc, &later[0])?)))?;
    write_head(alloc, line, out)?;
    write_rows(alloc, &behind[..rows], out)?;
    out.push(Event::End(TagEnd::Table))?;
    Ok(1 + rows)
}

/// Appends the events of the head with the cells of this line.
fn write_head<'a>(
    alloc: Global,
    line: &Line<'a>,
    out: &mut Vec<Event<'a>>,
) -> Result<(), AllocError>
    ensures { OnOk result (out.new.items ≡ out.old.items ++ events (Branch tag.TableHead (cell_nodes (cells line.now)) Empty)) }
{
    out.push(Event::Start(Tag::TableHead))?;
    write_cells(alloc, line, out)?;
    out.push(Event::End(TagEnd::TableHead))?;
    Ok(())
}

/// Appends the events of a row for each line.
fn write_rows<'a>(
    alloc: Global,
    lines: &[Line<'a>],
    out: &mut Vec<Event<'a>>,
) -> Result<(), AllocError>
    ensures { OnOk result (out.new.items ≡ out.old.items ++ events (row_nodes lines.now)) }
{
    let mut at = 0;
    while at < lines.len() {
        write_row(alloc, &lines[at], out)?;
        at += 1;
    }
    Ok(())
}

/// Appends the events of the row with the cells of this line.
fn write_row<'a>(alloc: Global, line: &Line<'a>, out: &mut Vec<Event<'a>>) -> Result<(), AllocError>
    ensures { OnOk result (out.new.items ≡ out.old.items ++ events (Branch tag.TableRow (cell_nodes (cells line.now)) Empty)) }
{
    out.push(Event::Start(Tag::TableRow))?;
    write_cells(alloc, line, out)?;
    out.push(Event::End(TagEnd::TableRow))?;
    Ok(())
}

/// Appends the events of the cells of a line.
fn write_cells<'a>(
    alloc: Global,
    line: &Line<'a>,
    out: &mut Vec<Event<'a>>,
) -> Result<(), AllocError>
    ensures { OnOk result (out.new.items ≡ out.old.items ++ events (cell_nodes (cells line.now))) }
{
    let mut cells = Cells::of(line);
    while let Some(cell) = cells.next_cell() {
        write_cell(alloc, cell, out)?;
    }
    Ok(())
}

/// Appends the events of a cell, whose source is this text.
fn write_cell<'a>(alloc: Global, text: &'a str, out: &mut Vec<Event<'a>>) -> Result<(), AllocError>
    requires { IsTrue (is_one_line text.now) }
    ensures { OnOk result (out.new.items ≡ out.old.items ++ events (Branch tag.TableCell (inlines (text.now ∷ [])) Empty)) }
{
    let source = [Line {
        indent: 0,
        body: text,
    }];
    out.push(Event::Start(Tag::TableCell))?;
    write_inlines(alloc, &source, out)?;
    out.push(Event::End(TagEnd::TableCell))?;
    Ok(())
}
