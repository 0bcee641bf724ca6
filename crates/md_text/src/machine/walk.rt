// The walk over events.
ghost use Rattle.std.specs.Prelude.{◌≡◌, ◌++◌, [], OnOk};
ghost use Rattle.md_text.specs.Look.{look_of};
ghost use Rattle.md_text.specs.State.{started, ended, ended_within, left, builder_behind, leaf_step, laid, step, run};
ghost use Rattle.md_text.specs.Texts.{leaf_text};

use super::Machine;
use crate::environment::Within;
use crate::frame::Frame;
use crate::highlight::Highlighter;
use crate::options::Options;
use md_events::{Event, Tag};
use md_table::{StyleSheet, TableBuilder};
use std::alloc::AllocError;
use std::mem;

impl<'e, 'a> Machine<'e, 'a> {
    /// Lays out what the events say, one after another.
    pub fn run<S: StyleSheet, H: Highlighter>(
        &mut self,
        options: &Options<S>,
        highlighter: &H,
        events: &'e [Event<'a>],
    ) -> Result<(), AllocError>
        ensures { OnOk result (self.new
            ≡ run (look_of options.now S.sheet (H.known highlighter.now) (H.answer highlighter.now)) events.now self.old) }
    {
        for event in events {
            self.step(options, highlighter, event)?;
        }
        Ok(())
    }

    fn step<S: StyleSheet, H: Highlighter>(
        &mut self,
        options: &Options<S>,
        highlighter: &H,
        event: &'e Event<'a>,
    ) -> Result<(), AllocError>
        ensures { OnOk result (self.new
            ≡ step (look_of options.now S.sheet (H.known highlighter.now) (H.answer highlighter.now)) self.old event.now) }
    {
        match event {
            Event::Start(tag) => self.start(options.styles(), tag),
            Event::End(_) => self.end(options, highlighter),
            leaf => self.leaf_step(options.styles(), leaf),
        }
    }

    fn start<S: StyleSheet>(&mut self, sheet: &S, tag: &'e Tag<'a>) -> Result<(), AllocError>
        ensures { OnOk result (self.new ≡ started (S.sheet sheet.now) self.old tag.now) }
    {
        self.enter(sheet, tag)?;
        self.started_in_table(tag)?;
        self.frames.push(Frame {
            tag,
            environment: self.environment,
            start: self.pieces.len(),
        })?;
        self.keep_place(tag)?;
        self.environment = self.environment.inside(self.alloc, sheet, tag)?;
        Ok(())
    }

    /// A leaf is laid out, is content of the open block of code, or goes to the open cell or image.
    fn leaf_step<S: StyleSheet>(&mut self, sheet: &S, leaf: &Event<'a>) -> Result<(), AllocError>
        ensures { OnOk result (self.new ≡ leaf_step (S.sheet sheet.now) self.old leaf.now) }
    {
        match self.environment.within {
            Within::Lines => self.leaf(sheet, leaf)?,
            Within::Code => self.keep(leaf)?,
            Within::Cell | Within::Image => self.flat_leaf(sheet, leaf)?,
        }
        self.environment = self.environment.behind(leaf)?;
        Ok(())
    }

    /// The text of a leaf is content.
    fn keep(&mut self, leaf: &Event<'a>) -> Result<(), AllocError>
        ensures { OnOk result (self.new ≡ record self.old { content = self.old.content ++ leaf_text leaf.now }) }
    {
        if let Event::Text(text) | Event::Html(text) = leaf {
            self.content.push_str(text.as_str())?;
        }
        Ok(())
    }

    /// The innermost element ends, if there is one.
    fn end<S: StyleSheet, H: Highlighter>(
        &mut self,
        options: &Options<S>,
        highlighter: &H,
    ) -> Result<(), AllocError>
        ensures { OnOk result (self.new
            ≡ ended (look_of options.now S.sheet (H.known highlighter.now) (H.answer highlighter.now)) self.old) }
    {
        match self.frames.pop() {
            None => Ok(()),
            Some(frame) => {
                self.environment = frame.environment.restored(frame.tag, self.environment);
                match frame.tag {
                    Tag::Image { dest_url } => self.image_end(options, frame.start, dest_url),
                    tag => self.ended_within(options, highlighter, tag),
                }
            }
        }
    }

    /// An element ends in a table, in an image, or elsewhere.
    fn ended_within<S: StyleSheet, H: Highlighter>(
        &mut self,
        options: &Options<S>,
        highlighter: &H,
        tag: &Tag<'a>,
    ) -> Result<(), AllocError>
        ensures { OnOk result (self.new
            ≡ ended_within self.old.environment.within (look_of options.now S.sheet (H.known highlighter.now) (H.answer highlighter.now)) self.old tag.now) }
    {
        match (self.environment.within, tag) {
            (Within::Cell | Within::Image, Tag::Link { dest_url }) => {
                self.flat_link(options.styles(), dest_url)
            }
            (Within::Cell, _) => self.ended_in_table(tag),
            (Within::Image, _) => Ok(()),
            (Within::Lines | Within::Code, _) => self.left(options, highlighter, tag),
        }
    }

    /// What an element outside tables lays out at its end: blocks of code and HTML and tables as a whole. What was kept of them is gone
    /// then.
    fn left<S: StyleSheet, H: Highlighter>(
        &mut self,
        options: &Options<S>,
        highlighter: &H,
        tag: &Tag<'a>,
    ) -> Result<(), AllocError>
        ensures { OnOk result (self.new
            ≡ laid (record self.old { content = []; builder = builder_behind self.old.builder tag.now })
            (left (look_of options.now S.sheet (H.known highlighter.now) (H.answer highlighter.now)) self.old tag.now)) }
    {
        let content = mem::replace(&mut self.content, String::new(self.alloc));
        match tag {
            Tag::CodeBlock(kind) => self.code_block(options, highlighter, kind, content.as_str()),
            Tag::HtmlBlock => self.html_block(options.styles(), content.as_str()),
            Tag::Table(_) => {
                let none = TableBuilder::new(self.alloc, Vec::new(self.alloc));
                let builder = mem::replace(&mut self.builder, none);
                self.table(options, builder)
            }
            _ => self.leave(options.styles(), tag),
        }
    }
}
