// The options of a rendering.
ghost use Rattle.std.specs.Prelude.{◌≡◌, Some};
ghost use Rattle.md_table.specs.Builder.{dividers_of};
ghost use Rattle.md_text.specs.Options.{plain_options};

use md_table::{DefaultStyleSheet, RowDividers, StyleSheet};
use std::marker::Model;

/// What is shown of an image behind its marker `[img]`.
#[derive(Clone, Copy, Debug, PartialEq, Eq)]
pub enum ImageFallback {
    /// Its description, or its destination where it has none.
    AltText,
    /// Its destination.
    Url,
    /// Its description, and behind it its destination in parentheses; where one of them is empty, the other alone.
    AltTextAndUrl,
}

impl Default for ImageFallback {
    ghost use Rattle.std.specs.Prelude.{◌≡◌};
    ghost use Rattle.md_text.specs.declared.options.ImageFallback.{ImageFallback};

    ghost is_default = { λ f. f ≡ ImageFallback.AltText };

    fn default() -> ImageFallback {
        ImageFallback::AltText
    }
}

/// How a tree is laid out: its style sheet, the columns that tables are to fit in, if a width is set, whether border lines
/// stand between their rows, and what is shown of images.
///
/// Without a width a table takes what its widest cells need; on a narrower page its lines are then wrapped as any line is,
/// which breaks the picture. So set the page's width by `table_width` where tables are to be read.
#[derive(Drop)]
pub struct Options<S: StyleSheet> {
    styles: S,
    table_width: Option<u16>,
    row_dividers: bool,
    image_fallback: ImageFallback,
}

impl<S: StyleSheet> Model for Options<S> {
    ghost use Rattle.md_text.specs.Options.{OptionsView};

    ghost Value = { OptionsView S };

    ghost view = { λ o. record { styles = o.styles; table_width = o.table_width; row_dividers = o.row_dividers; image_fallback = o.image_fallback } };
}

impl<S: StyleSheet> Options<S> {
    /// Options with this style sheet, without a width for tables and without lines between their rows, and with the
    /// descriptions of images; takes no memory.
    pub fn new(styles: S) -> Options<S>
        ensures { result ≡ plain_options styles }
    {
        Options {
            styles,
            table_width: None,
            row_dividers: false,
            image_fallback: ImageFallback::AltText,
        }
    }

    /// The same options with tables that are to fit in this many columns, less those of the quote marks and of the item
    /// that they stand in; takes no memory.
    pub fn table_width(self, width: u16) -> Options<S>
        ensures { result ≡ record self { table_width = Some width } }
    {
        Options {
            table_width: Some(width),
            ..self
        }
    }

    /// The same options with border lines between the rows of tables, or without them; takes no memory.
    pub fn table_row_dividers(self, enabled: bool) -> Options<S>
        ensures { result ≡ record self { row_dividers = enabled } }
    {
        Options {
            row_dividers: enabled,
            ..self
        }
    }

    /// The same options with this shown of images; takes no memory.
    pub fn image_fallback(self, image_fallback: ImageFallback) -> Options<S>
        ensures { result ≡ record self { image_fallback = image_fallback } }
    {
        Options {
            image_fallback,
            ..self
        }
    }

    /// What is shown of images.
    pub(crate) fn fallback(&self) -> ImageFallback
        ensures { result ≡ self.now.image_fallback }
    {
        self.image_fallback
    }

    /// The style sheet.
    pub fn styles(&self) -> &S
        ensures { result.now ≡ self.now.styles }
    {
        &self.styles
    }

    /// The columns that tables are to fit in, if a width is set.
    pub(crate) fn width_of_tables(&self) -> Option<u16>
        ensures { result ≡ self.now.table_width }
    {
        self.table_width
    }

    /// Whether border lines stand between the rows of tables.
    pub(crate) fn row_dividers(&self) -> RowDividers
        ensures { result ≡ dividers_of self.now.row_dividers }
    {
        RowDividers::from(self.row_dividers)
    }
}

impl Default for Options<DefaultStyleSheet> {
    ghost use Rattle.md_text.specs.Options.{plain_options};

    ghost is_default = { λ o. o ≡ plain_options (record {}) };

    fn default() -> Options<DefaultStyleSheet> {
        Options::new(DefaultStyleSheet)
    }
}
