//! A Markdown text as a page of cells, and the program over any source and any sink.
#![tactic(auto)]

mod error;
mod output;
mod process;
mod program;
mod render;
mod view;

pub use ends::{Failed, MemorySink, MemorySource, Sink, Source, StdSink, StdSource};
pub use error::ViewError;
pub use process::view_process;
pub use program::run;
pub use programs::{Status, read_all, write_all};
pub use render::render_view;
pub use term_widgets::Page;
pub use view::{NoView, drawn_view};
pub use view_print::print_view;

#[cfg(test)]
mod tests;
