// The border lines of a table.
ghost use Rattle.std.specs.Prelude.{◌≡◌, ◌<◌, ◌++◌, ◌∷◌, [], IfOk, OnOk, length, string_bytes};
ghost use Rattle.md_picture.specs.Picture.{bar, border_line, border_text, cross_of, left_of, lengthened, right_of, stroke, strokes};

use crate::columns::{Column, picture_width};
use std::alloc::{AllocError, Global};
use term_text::{CowStr, Line, Span, Style};

/// Where a border line stands.
#[derive(Clone, Copy)]
pub(crate) enum Edge {
    Top,
    Middle,
    Bottom,
}

impl Edge {
    fn left(self) -> &'static str
        ensures { result.now ≡ left_of self }
    {
        match self {
            Edge::Top => "┌",
            Edge::Middle => "├",
            Edge::Bottom => "└",
        }
    }

    fn cross(self) -> &'static str
        ensures { result.now ≡ cross_of self }
    {
        match self {
            Edge::Top => "┬",
            Edge::Middle => "┼",
            Edge::Bottom => "┴",
        }
    }

    fn right(self) -> &'static str
        ensures { result.now ≡ right_of self }
    {
        match self {
            Edge::Top => "┐",
            Edge::Middle => "┤",
            Edge::Bottom => "┘",
        }
    }
}

/// The border between two cells.
pub(crate) fn bar<'a>(style: Style) -> Span<'a>
    ensures { result ≡ bar style }
{
    Span::styled(CowStr::borrowed("│"), style)
}

/// Adds the border between two cells to a line.
pub(crate) fn push_bar(line: &mut Line, style: Style) -> Result<(), AllocError>
    ensures { OnOk result (line.new ≡ lengthened line.old (bar style ∷ [])) }
{
    line.push_span(bar(style))?;
    Ok(())
}

/// The border line over or under the cells of these columns, of which there is one at least.
pub(crate) fn border_line<'a>(
    alloc: Global,
    style: Style,
    edge: Edge,
    columns: &[Column],
) -> Result<Line<'a>, AllocError>
    requires { 0 < length columns.now }
    ensures { IfOk result (λ line. line ≡ border_line style edge columns.now) }
{
    let span = Span::styled(CowStr::owned(border_text(alloc, edge, columns)?), style);
    let mut line = Line::new(alloc);
    line.push_span(span)?;
    Ok(line)
}

/// The text of a border line. A character of it takes one column, and as many bytes as a stroke.
fn border_text(alloc: Global, edge: Edge, columns: &[Column]) -> Result<String, AllocError>
    ensures { IfOk result (λ text. string_bytes text ≡ border_text edge columns.now) }
{
    let capacity = picture_width(columns)?.saturating_mul("─".len());
    let mut text = String::with_capacity(alloc, capacity)?;
    push_border(&mut text, edge, columns)?;
    Ok(text)
}

/// Adds the text of a border line.
fn push_border(text: &mut String, edge: Edge, columns: &[Column]) -> Result<(), AllocError>
    ensures { OnOk result (string_bytes text.new ≡ string_bytes text.old ++ border_text edge columns.now) }
{
    let Some(first) = columns.first() else {
        return Ok(());
    };
    text.push_str(edge.left())?;
    push_stroke(text, *first)?;
    push_strokes(text, edge, &columns[1..])?;
    text.push_str(edge.right())?;
    Ok(())
}

/// Adds the strokes over further columns, each behind a cross.
#[tactic(auto, unfolding(crate::specs::Picture::strokes))]
fn push_strokes(text: &mut String, edge: Edge, columns: &[Column]) -> Result<(), AllocError>
    ensures { OnOk result (string_bytes text.new ≡ string_bytes text.old ++ strokes edge columns.now) }
{
    for column in columns {
        text.push_str(edge.cross())?;
        push_stroke(text, *column)?;
    }
    Ok(())
}

/// Adds the stroke over a column and the blanks at its sides.
fn push_stroke(text: &mut String, column: Column) -> Result<(), AllocError>
    ensures { OnOk result (string_bytes text.new ≡ string_bytes text.old ++ stroke column) }
{
    for i in 0..column.width {
        text.push_str("─")?;
    }
    text.push_str("──")?;
    Ok(())
}
