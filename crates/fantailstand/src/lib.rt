//! All that a program needs that shows Markdown or coloured text: styles and texts, cells and buffers, pages and widgets,
//! the style sheet, options and highlighters, tables, the calls that read a text and draw it, cells as text with SGR
//! sequences, and the last lines of a log.
#![tactic(auto)]

pub use ansi_feed::{Feed, FeedError};
pub use ansi_text::{AnsiCode, IntoText, bytes_into_text, bytes_to_text, line_into_text};
pub use md_events::{
    Alignments, Attrs, BlockQuoteKind, Classes, CodeBlockKind, Event, HeadingLevel, Tag, TagEnd,
    read, well_formed,
};
pub use md_page::{ViewError, render_view};
pub use md_table::{RowDividers, TableBuilder};
pub use md_text::{
    AlertKind, AnsiFence, CustomSheet, DefaultStyleSheet, Highlighter, ImageFallback, NoHighlight,
    Options, RenderError, StyleSheet, from_events, from_str, from_str_with_options,
};
pub use term_ansi::{PrintError, print_ansi, separable};
pub use term_core::{
    Alignment, Buffer, Caption, Cell, Color, Counted, CowStr, Cutter, Graph, Ledger, Line,
    Modifier, NoSteps, Paint, Rect, Row, RowIndex, Span, Steps, Style, Text, VisitedCells, Widget,
    WidgetError,
};
pub use term_widgets::{Block, MascotEyeColor, Page, Paragraph, RatatuiMascot};
pub use view_print::print_view;
