// The kinds of alerts.
ghost use Rattle.std.specs.Prelude.{◌≡◌};
ghost use Rattle.md_table.specs.AlertKind.{label};

/// The kind of an alert: a quote whose first line is a mark such as `[!NOTE]`.
#[derive(Clone, Copy, Debug, PartialEq, Eq, Hash)]
pub enum AlertKind {
    Note,
    Tip,
    Important,
    Warning,
    Caution,
}

impl AlertKind {
    /// The kind's name, as `Note`; takes no memory.
    pub fn label(self) -> &'static str
        ensures { result.now ≡ label self }
    {
        match self {
            AlertKind::Note => "Note",
            AlertKind::Tip => "Tip",
            AlertKind::Important => "Important",
            AlertKind::Warning => "Warning",
            AlertKind::Caution => "Caution",
        }
    }
}
