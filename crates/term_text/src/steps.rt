// Ledgers that note steps.
ghost use Rattle.std.specs.Prelude.{⊤, ◌≡◌, ℕ, ◌+◌, ◌-◌, ◌^◌, ◌<◌, ◌≤◌, min};

use std::marker::Model;

/// Notes the steps of calls whose work is promised: what a ledger does at a note is its own matter.
pub trait Ledger {
    // So many notes lead from the one state to the other.
    ghost noted: { ℕ → Self → Self → Type 0 };

    /// Notes one step.
    fn note(&mut self)
        ensures { noted 1 self.old self.new };

    // No note leaves a state as it is.
    ghost noted_none: { (a : Self) → noted 0 a a };

    // Notes add up.
    ghost noted_sum: { (m n : ℕ) (a b c : Self) → noted m a b → noted n b c → noted (m + n) a c };
}

/// A ledger that keeps nothing.
#[derive(Drop)]
pub struct NoSteps;

impl Ledger for NoSteps {
    ghost noted = { λ _ _ _. ⊤ };

    fn note(&mut self) {}

    ghost noted_none = { λ _. tt };

    ghost noted_sum = { λ _ _ _ _ _ _ _. tt };
}

/// A ledger that counts its notes, and stays at the greatest number once it is reached.
#[derive(Drop)]
pub struct Counted {
    count: u64,
}

impl Model for Counted {
    ghost Value = { ℕ };

    ghost view = { λ counted. counted.count };
}

impl Counted {
    /// A count of 0.
    pub fn new() -> Counted
        ensures { result ≡ 0 }
    {
        Counted { count: 0 }
    }

    /// The number of notes, or the greatest number if there were more.
    pub fn count(&self) -> u64
        ensures { result ≡ self.now }
    {
        self.count
    }
}

impl Ledger for Counted {
    ghost use Rattle.term_text.specs.Counted.{counted_none, counted_sum};

    ghost noted = { λ n a b. a < 2 ^ 64 → b ≡ min (a + n) (2 ^ 64 - 1) };

    fn note(&mut self) {
        self.count = self.count.saturating_add(1);
    }

    ghost noted_none = { λ a. counted_none a };

    ghost noted_sum = { λ m n a b c p q. counted_sum m n a b c p q };
}

/// Steps that are noted in a ledger. A contract sees its ledger, and says by `noted` how many steps a call takes.
#[derive(Drop)]
pub struct Steps<L: Ledger> {
    ledger: L,
}

impl<L: Ledger> Model for Steps<L> {
    ghost Value = { L };

    ghost view = { λ s. s.ledger };
}

impl<L: Ledger> Steps<L> {
    /// Steps that the ledger will note.
    pub fn new(ledger: L) -> Steps<L>
        ensures { result ≡ ledger }
    {
        Steps { ledger }
    }

    /// The ledger.
    pub fn ledger(&self) -> &L
        ensures { result.now ≡ self.now }
    {
        &self.ledger
    }

    /// Notes one step.
    pub(crate) fn tick(&mut self)
        ensures { L.noted 1 self.old self.new }
    {
        self.ledger.note();
    }
}
