// What a style sheet answers.
ghost use Rattle.std.specs.Prelude.{◌≡◌};
ghost use Rattle.md_table.specs.Sheet.{Sheet};

use crate::alert::AlertKind;
use term_text::Style;

/// The styles and marks that the elements of a Markdown text are drawn with.
///
/// Its meaning is one record of all answers, and every call answers what the record says. A sheet
/// may answer anything, so no function has a default body, which could be proved of one answer
/// alone. `CustomSheet` has the default answers and changes single ones.
pub trait StyleSheet {
    ghost sheet: { Self → Sheet };

    /// The style under a heading's line; the level is 1 to 6.
    fn heading(&self, level: u8) -> Style
        ensures { result ≡ (sheet self.now).heading level };

    /// The mark before a heading's text, without the blank behind it; if empty, there is no mark.
    fn heading_marker(&self, level: u8) -> &str
        ensures { result.now ≡ (sheet self.now).heading_marker level };

    /// The style under an alert's lines; its icon and label are bold besides.
    fn alert(&self, kind: AlertKind) -> Style
        ensures { result ≡ (sheet self.now).alert kind };

    /// The sign before an alert's label; if empty, the label stands alone.
    fn alert_icon(&self, kind: AlertKind) -> &str
        ensures { result.now ≡ (sheet self.now).alert_icon kind };

    /// The word in an alert's first line; if empty, the icon stands alone.
    fn alert_label(&self, kind: AlertKind) -> &str
        ensures { result.now ≡ (sheet self.now).alert_label kind };

    /// The mark in the lines before and behind a block of code; if empty, there are no such lines.
    fn code_block_fence(&self) -> &str
        ensures { result.now ≡ (sheet self.now).code_block_fence };

    /// The style of code, in a line or in a block.
    fn code(&self) -> Style
        ensures { result ≡ (sheet self.now).code };

    /// The style of a link's text, over the style that it stands in, and of its destination.
    fn link(&self) -> Style
        ensures { result ≡ (sheet self.now).link };

    /// The style under a quote's lines.
    fn blockquote(&self) -> Style
        ensures { result ≡ (sheet self.now).blockquote };

    /// The style of a heading's attributes.
    fn heading_meta(&self) -> Style
        ensures { result ≡ (sheet self.now).heading_meta };

    /// The style under a metadata block's lines.
    fn metadata_block(&self) -> Style
        ensures { result ≡ (sheet self.now).metadata_block };

    /// The style of HTML.
    fn html(&self) -> Style
        ensures { result ≡ (sheet self.now).html };

    /// The style of a formula in a line.
    fn math_inline(&self) -> Style
        ensures { result ≡ (sheet self.now).math_inline };

    /// The style of a formula on lines of its own.
    fn math_display(&self) -> Style
        ensures { result ≡ (sheet self.now).math_display };

    /// The style of a reference to a footnote.
    fn footnote_ref(&self) -> Style
        ensures { result ≡ (sheet self.now).footnote_ref };

    /// The style under a footnote's lines.
    fn footnote_def(&self) -> Style
        ensures { result ≡ (sheet self.now).footnote_def };

    /// The style of a term that is defined.
    fn definition_term(&self) -> Style
        ensures { result ≡ (sheet self.now).definition_term };

    /// The style of a term's description and of the mark before it.
    fn definition_description(&self) -> Style
        ensures { result ≡ (sheet self.now).definition_description };

    /// The style of the cells in a table's header.
    fn table_header(&self) -> Style
        ensures { result ≡ (sheet self.now).table_header };

    /// The style of the cells in a table's other rows.
    fn table_cell(&self) -> Style
        ensures { result ≡ (sheet self.now).table_cell };

    /// The style of the lines between and round a table's cells.
    fn table_border(&self) -> Style
        ensures { result ≡ (sheet self.now).table_border };

    /// The style of the numbers of ordered lists.
    fn list_marker(&self) -> Style
        ensures { result ≡ (sheet self.now).list_marker };

    /// The style of what is shown in place of an image.
    fn image_alt(&self) -> Style
        ensures { result ≡ (sheet self.now).image_alt };
}
