// What is kept of the open elements.
use crate::environment::Environment;
use md_events::Tag;
use std::marker::Model;

/// An open element by its start, the environment round it, and its place among the pieces of images.
#[derive(Drop)]
pub struct Frame<'e, 'a> {
    pub tag: &'e Tag<'a>,
    pub environment: Environment,
    /// How many pieces stood before it.
    pub start: usize,
}

impl<'e, 'a> Model for Frame<'e, 'a> {
    ghost use Rattle.md_text.specs.State.{Begun};

    ghost Value = { Begun };

    ghost view = { λ f. record { tag = f.tag.now; environment = f.environment; start = f.start } };
}
