// What begins at a nonempty line.
ghost use Rattle.std.specs.Prelude.{◌≡◌, Some};
ghost use Rattle.md_rules.specs.Items.{marker_of};
ghost use Rattle.md_rules.specs.Starts.{block_start, container_or, counted, counts, interrupts, item_start, rule_of, start_of_text};

use crate::code::is_code;
use crate::definitions::starts_definitions;
use crate::fence::{Fence, fence_of};
use crate::footnote::footnote_label;
use crate::heading::heading_level;
use crate::html::{HtmlEnd, html_end};
use crate::item::{Marker, marker_of, may_interrupt};
use crate::quote::quotes;
use crate::rule::Rule;
use crate::table::starts_table;
use crate::thematic_break::is_thematic_break;
use md_lines::Line;
use md_tree::HeadingLevel;
use term_text::CowStr;

/// Which items count.
#[derive(Clone, Copy, Debug, PartialEq, Eq)]
pub enum Items {
    /// All of them.
    All,
    /// Those at which a paragraph ends.
    Interrupting,
}

/// What begins at a nonempty line: the first of the rules for blocks that holds there, with what it found.
#[derive(Drop)]
pub enum BlockStart<'a> {
    /// Code by its indent.
    Code,
    /// Code behind this fence.
    Fence(Fence<'a>),
    ThematicBreak,
    /// A heading of this level.
    Heading(HeadingLevel),
    Quote,
    /// The definition of the footnote of this label.
    Footnote(CowStr<'a>),
    /// A list whose first item has this marker.
    Item(Marker),
    /// An HTML block with this end.
    Html(HtmlEnd),
    Table,
    /// A definition list whose first title is the line.
    Definitions,
    /// What no other rule takes.
    Paragraph,
}

impl<'a> BlockStart<'a> {
    /// The rule by which it begins.
    pub fn rule(&self) -> Rule
        ensures { result ≡ rule_of self.now }
    {
        match self {
            BlockStart::Code => Rule::Code,
            BlockStart::Fence(_) => Rule::Fence,
            BlockStart::ThematicBreak => Rule::ThematicBreak,
            BlockStart::Heading(_) => Rule::Heading,
            BlockStart::Quote => Rule::Quote,
            BlockStart::Footnote(_) => Rule::Footnote,
            BlockStart::Item(_) => Rule::Item,
            BlockStart::Html(_) => Rule::Html,
            BlockStart::Table => Rule::Table,
            BlockStart::Definitions => Rule::Definitions,
            BlockStart::Paragraph => Rule::Paragraph,
        }
    }
}

/// Whether the item of this marker at the line counts.
fn counts(items: Items, line: &Line, marker: Marker) -> bool
    requires { marker_of line.now ≡ Some marker }
    ensures { result ≡ counts items line.now marker }
{
    match items {
        Items::All => true,
        Items::Interrupting => may_interrupt(line, marker),
    }
}

/// The marker of the item that begins at the line, if it counts.
fn item_start(items: Items, line: &Line) -> Option<Marker>
    ensures { result ≡ item_start items line.now }
{
    match marker_of(line) {
        Some(marker) if counts(items, line, marker) => Some(marker),
        _ => None,
    }
}

/// What begins at the line where no quote, footnote or item does, where containers may stand or not.
fn start_of_text<'a>(nests: bool, line: &Line<'a>, later: &[Line<'a>]) -> BlockStart<'a>
    ensures { result ≡ start_of_text nests line.now later.now }
{
    if let Some(end) = html_end(line) {
        return BlockStart::Html(end);
    }
    if starts_table(line, later) {
        BlockStart::Table
    } else if nests && starts_definitions(line, later) {
        BlockStart::Definitions
    } else {
        BlockStart::Paragraph
    }
}

/// What begins at the line, which these lines follow, where containers may stand or not.
pub fn block_start<'a>(
    nests: bool,
    items: Items,
    line: &Line<'a>,
    later: &[Line<'a>],
) -> BlockStart<'a>
    ensures { result ≡ block_start nests items line.now later.now }
{
    if is_code(line) {
        return BlockStart::Code;
    }
    if let Some(fence) = fence_of(line) {
        return BlockStart::Fence(fence);
    }
    if is_thematic_break(line) {
        return BlockStart::ThematicBreak;
    }
    if let Some(level) = heading_level(line) {
        return BlockStart::Heading(level);
    }
    if !nests {
        return start_of_text(nests, line, later);
    }
    if quotes(line) {
        return BlockStart::Quote;
    }
    if let Some(label) = footnote_label(line) {
        return BlockStart::Footnote(label);
    }
    match item_start(items, line) {
        Some(marker) => BlockStart::Item(marker),
        None => start_of_text(nests, line, later),
    }
}

/// Whether a paragraph ends at the line, which these lines follow, since another block begins there.
pub fn interrupts(nests: bool, line: &Line, later: &[Line]) -> bool
    ensures { result ≡ interrupts nests line.now later.now }
{
    block_start(nests, Items::Interrupting, line, later)
        .rule()
        .is_among(Rule::Fence, Rule::Definitions)
}
