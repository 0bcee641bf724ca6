// The rules for blocks, in their order.
ghost use Rattle.std.specs.Prelude.{◌≡◌};
ghost use Rattle.md_rules.specs.Starts.{is_among, place};

/// The rules for blocks. At a line the first that holds is taken, in this order.
#[derive(Clone, Copy, Debug, PartialEq, Eq)]
pub enum Rule {
    Code,
    Fence,
    ThematicBreak,
    Heading,
    Quote,
    Footnote,
    Item,
    Html,
    Table,
    Definitions,
    Paragraph,
}

impl Rule {
    /// Its place in the order.
    fn place(self) -> u8
        ensures { result ≡ place self }
    {
        match self {
            Rule::Code => 0,
            Rule::Fence => 1,
            Rule::ThematicBreak => 2,
            Rule::Heading => 3,
            Rule::Quote => 4,
            Rule::Footnote => 5,
            Rule::Item => 6,
            Rule::Html => 7,
            Rule::Table => 8,
            Rule::Definitions => 9,
            Rule::Paragraph => 10,
        }
    }

    /// Whether it is one of the rules from the one to the other.
    pub(crate) fn is_among(self, first: Rule, last: Rule) -> bool
        ensures { result ≡ is_among first last self }
    {
        first.place() <= self.place() && self.place() <= last.place()
    }
}
