// Answers by a heading's level, and by an alert's kind.
ghost use Rattle.std.specs.Prelude.{◌≡◌, ℕ};
ghost use Rattle.md_table.specs.declared.alert.AlertKind.{AlertKind};
ghost use Rattle.md_table.specs.Answers.{by_level, by_kind, at_level, at_kind};

use crate::alert::AlertKind;

/// An answer for each level of a heading; level 6 shares its answer with all that are no level.
#[derive(Clone, Copy, Debug)]
pub struct ByLevel<T> {
    pub first: T,
    pub second: T,
    pub third: T,
    pub fourth: T,
    pub fifth: T,
    pub others: T,
}

/// An answer for each kind of alert.
#[derive(Clone, Copy, Debug)]
pub struct ByKind<T> {
    pub note: T,
    pub tip: T,
    pub important: T,
    pub warning: T,
    pub caution: T,
}

impl<T: Copy> ByLevel<T> {
    /// The answer at this level.
    pub fn at(&self, level: u8) -> T
        ensures { result ≡ by_level self.now level }
    {
        match level {
            1 => self.first,
            2 => self.second,
            3 => self.third,
            4 => self.fourth,
            5 => self.fifth,
            _ => self.others,
        }
    }

    /// These answers, but this one at the level.
    pub fn with(self, level: u8, answer: T) -> ByLevel<T>
        ensures { (other : ℕ) → by_level result other ≡ at_level level answer (by_level self) other }
    {
        match level {
            1 => ByLevel {
                first: answer,
                ..self
            },
            2 => ByLevel {
                second: answer,
                ..self
            },
            3 => ByLevel {
                third: answer,
                ..self
            },
            4 => ByLevel {
                fourth: answer,
                ..self
            },
            5 => ByLevel {
                fifth: answer,
                ..self
            },
            _ => ByLevel {
                others: answer,
                ..self
            },
        }
    }
}

impl<T: Copy> ByKind<T> {
    /// The answer at this kind.
    pub fn at(&self, kind: AlertKind) -> T
        ensures { result ≡ by_kind self.now kind }
    {
        match kind {
            AlertKind::Note => self.note,
            AlertKind::Tip => self.tip,
            AlertKind::Important => self.important,
            AlertKind::Warning => self.warning,
            AlertKind::Caution => self.caution,
        }
    }

    /// These answers, but this one at the kind.
    pub fn with(self, kind: AlertKind, answer: T) -> ByKind<T>
        ensures { (other : AlertKind) → by_kind result other ≡ at_kind kind answer (by_kind self) other }
    {
        match kind {
            AlertKind::Note => ByKind {
                note: answer,
                ..self
            },
            AlertKind::Tip => ByKind {
                tip: answer,
                ..self
            },
            AlertKind::Important => ByKind {
                important: answer,
                ..self
            },
            AlertKind::Warning => ByKind {
                warning: answer,
                ..self
            },
            AlertKind::Caution => ByKind {
                caution: answer,
                ..self
            },
        }
    }
}
