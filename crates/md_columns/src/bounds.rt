// What a column asks for.
ghost use Rattle.std.specs.Prelude.{◌≡◌, ◌+◌, IsTrue};
ghost use Rattle.md_columns.specs.Fair.{width_at, grows, width_of};

/// The bounds of a column's width, in columns of cells: the least that its contents can be shown in, and the most
/// that they need.
#[derive(Clone, Copy)]
pub struct Bounds {
    pub least: usize,
    pub most: usize,
}

/// One width for each column.
#[derive(Clone, Copy)]
pub enum Choice {
    Least,
    Most,
    /// The width at a level.
    At(usize),
}

impl Bounds {
    /// The level, but not over the most and not below the least.
    pub fn width_at(self, level: usize) -> usize
        ensures { result ≡ width_at level self }
    {
        self.least.max(self.most.min(level))
    }

    /// Whether the column is wider at the next level.
    pub fn grows(self, level: usize) -> bool
        ensures { result ≡ grows level self }
    {
        self.least <= level && level < self.most
    }

    /// The width at the next level of a column that is wider there.
    pub fn wider(self, level: usize) -> usize
        requires { IsTrue (grows level self) }
        ensures { result ≡ width_at level self + 1 }
    {
        level + 1
    }
}

impl Choice {
    /// The width that is chosen for a column.
    pub fn width_of(self, column: Bounds) -> usize
        ensures { result ≡ width_of self column }
    {
        match self {
            Choice::Least => column.least,
            Choice::Most => column.most,
            Choice::At(level) => column.width_at(level),
        }
    }
}
