// What stands for images.
ghost use Rattle.std.specs.Prelude.{◌≡◌, ◌+◌, ◌<◌, ◌≤◌, ◌++◌, [], ◌∷◌, drop, length, take, OnOk};
ghost use Rattle.md_text.specs.Images.{content, destination, image, in_parentheses, marker_before};
ghost use Rattle.md_text.specs.Look.{look_of, knows_nothing, as_it_is};
ghost use Rattle.md_text.specs.State.{image_ended, image_put, kept, with_place};
ghost use Rattle.md_text.specs.declared.environment.Within.TheVariants as within;

use super::Machine;
use super::flat::push_piece;
use super::inlines::between;
use crate::environment::Within;
use crate::options::{ImageFallback, Options};
use md_events::Tag;
use md_table::StyleSheet;
use std::alloc::{AllocError, Global};
use term_text::{CowStr, Span, Style};

impl<'e, 'a> Machine<'e, 'a> {
    /// An image leaves a place for its marker, which is known at its end.
    pub(super) fn keep_place(&mut self, tag: &Tag<'a>) -> Result<(), AllocError>
        ensures { OnOk result (self.new ≡ record self.old { pieces = with_place self.old.pieces tag.now }) }
    {
        if let Tag::Image { .. } = tag {
            self.pieces.push(Span::raw(CowStr::borrowed("")))?;
        }
        Ok(())
    }

    /// An image ends whose pieces stand behind so many others and its place.
    pub(super) fn image_end<S: StyleSheet>(
        &mut self,
        options: &Options<S>,
        start: usize,
        dest_url: &CowStr<'a>,
    ) -> Result<(), AllocError>
        ensures { OnOk result (self.new
            ≡ image_ended (look_of options.now S.sheet knows_nothing as_it_is) self.old start dest_url.now) }
    {
        if start >= self.pieces.len() {
            return Ok(());
        }
        let style = self
            .environment
            .inline_style
            .patch(options.styles().image_alt());
        let fallback = options.fallback();
        mend(
            self.alloc,
            &mut self.pieces,
            fallback,
            style,
            start,
            dest_url,
        )?;
        self.image_put(start)
    }

    /// The pieces from a place on are an image, which goes to the open cell, stays with the open image, or is laid out.
    fn image_put(&mut self, start: usize) -> Result<(), AllocError>
        requires { start ≤ length self.old.pieces }
        ensures { OnOk result (self.new
            ≡ image_put self.old.environment.within (record self.old { pieces = take start self.old.pieces }) (drop start self.old.pieces)) }
    {
        if let Within::Image = self.environment.within {
            return Ok(());
        }
        let pieces = self.pieces.split_off(start)?;
        if let Within::Cell = self.environment.within {
            return self.cell_all(pieces);
        }
        self.join()?;
        self.put_all(pieces)
    }

    /// Spans go to the open cell.
    fn cell_all(&mut self, spans: Vec<Span<'a>>) -> Result<(), AllocError>
        ensures { OnOk result (self.new ≡ kept within.Cell self.old spans.entry.items) }
    {
        for span in spans {
            self.cell_span(span)?;
        }
        Ok(())
    }

    fn cell_span(&mut self, span: Span<'a>) -> Result<(), AllocError>
        ensures { OnOk result (self.new ≡ kept within.Cell self.old (span.entry ∷ [])) }
    {
        self.builder.push_span(span)
    }
}

/// The place of a marker and the pieces behind it, those of a description, become those of the image.
fn mend<'a>(
    alloc: Global,
    pieces: &mut Vec<Span<'a>>,
    fallback: ImageFallback,
    style: Style,
    start: usize,
    dest_url: &CowStr<'a>,
) -> Result<(), AllocError>
    requires { start < length pieces.old.items }
    ensures { OnOk result (pieces.new.items
        ≡ take start pieces.old.items ++ image fallback style dest_url.now (drop (start + 1) pieces.old.items)) }
{
    fill(alloc, pieces, fallback, style, start + 1, dest_url)?;
    pieces[start] = marker(style, pieces.len() > start + 1);
    Ok(())
}

/// The marker of an image, with a blank if content follows.
fn marker<'a>(style: Style, follows: bool) -> Span<'a>
    ensures { result ≡ marker_before style follows }
{
    let text = if follows { "[img] " } else { "[img]" };
    Span::styled(CowStr::borrowed(text), style)
}

/// The pieces behind the first so many, those of a description, become the content of the image.
fn fill<'a>(
    alloc: Global,
    pieces: &mut Vec<Span<'a>>,
    fallback: ImageFallback,
    style: Style,
    count: usize,
    dest_url: &CowStr<'a>,
) -> Result<(), AllocError>
    requires { count ≤ length pieces.old.items }
    ensures { OnOk result (pieces.new.items
        ≡ take count pieces.old.items ++ content fallback style dest_url.now (drop count pieces.old.items)) }
{
    match fallback {
        ImageFallback::Url => {
            pieces.truncate(count);
            push_destination(alloc, pieces, style, dest_url)
        }
        _ if pieces.len() == count => push_destination(alloc, pieces, style, dest_url),
        ImageFallback::AltText => Ok(()),
        ImageFallback::AltTextAndUrl => push_in_parentheses(alloc, pieces, style, dest_url),
    }
}

fn push_destination<'a>(
    alloc: Global,
    pieces: &mut Vec<Span<'a>>,
    style: Style,
    dest_url: &CowStr<'a>,
) -> Result<(), AllocError>
    ensures { OnOk result (pieces.new.items ≡ pieces.old.items ++ destination style dest_url.now) }
{
    let text = dest_url.try_clone(alloc)?;
    push_piece(pieces, Span::styled(text, style))
}

fn push_in_parentheses<'a>(
    alloc: Global,
    pieces: &mut Vec<Span<'a>>,
    style: Style,
    dest_url: &CowStr<'a>,
) -> Result<(), AllocError>
    ensures { OnOk result (pieces.new.items ≡ pieces.old.items ++ in_parentheses style dest_url.now) }
{
    if dest_url.as_str().is_empty() {
        return Ok(());
    }
    let text = between(alloc, " (", dest_url.as_str(), ")")?;
    push_piece(pieces, Span::styled(CowStr::owned(text), style))
}
