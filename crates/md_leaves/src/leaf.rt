// The kinds and places of leaves.

/// The character of a run that may pair with another run.
#[derive(Clone, Copy, PartialEq, Eq)]
pub enum Mark {
    Star,
    Underscore,
    Tilde,
    Caret,
}

/// A place in the source: the destination of a link or an image.
#[derive(Clone, Copy)]
pub struct Target {
    /// The offset of the first byte.
    pub from: usize,
    /// The offset of the byte after the last.
    pub to: usize,
}

/// A leaf that stands for itself, whatever leaves stand beside it.
#[derive(Clone, Copy)]
pub enum Lone {
    /// Characters that stand for themselves.
    Text,
    /// A backslash and the punctuation behind it, which stands for itself.
    Escape,
    SoftBreak,
    HardBreak,
    /// Code, with so many backticks at either side.
    Code { ticks: usize },
    /// Math between `$$` and `$$`, which may stand on several lines.
    DisplayMath,
    /// Math between `$` and `$`.
    InlineMath,
    /// A link in angle brackets, whose text is its destination.
    Address,
    /// An HTML tag.
    Html,
    /// `[^label]`.
    FootnoteReference,
}

/// What a leaf is.
#[derive(Clone, Copy)]
pub enum Kind {
    Lone(Lone),
    /// `[`, or `![` of an image.
    Opener {
        is_image: bool,
    },
    /// `]`, with all that belongs to its destination if it has one.
    Closer {
        target: Option<Target>,
    },
    /// A run of one of `* _ ~ ^`: whether it may open and whether it may close a pair.
    Run {
        mark: Mark,
        opens: bool,
        closes: bool,
    },
}

/// A leaf: its kind and its place in the source.
#[derive(Clone, Copy)]
pub struct Leaf {
    pub kind: Kind,
    /// The offset of its first byte.
    pub from: usize,
    /// The offset of the byte after its last.
    pub to: usize,
}
