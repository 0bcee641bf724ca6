// The sides that a table's column keeps to.

/// To which side the cells of a table's column keep, if the table says so.
#[derive(Clone, Copy, Debug, PartialEq, Eq)]
pub enum Alignment {
    None,
    Left,
    Center,
    Right,
}
