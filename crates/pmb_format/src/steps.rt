//! A count of the work that an encoder does.
//!
//! Its rows: `tests_numbers`, `src/formats/steps.rt`.
ghost use Rattle.std.specs.Prelude.{◌≡◌, ◌+◌, min};

use std::marker::Model;

/// How many turns of a loop and divisions encoders have taken: a count that stays at `u64::MAX`.
#[derive(Clone, Copy, Debug, PartialEq, Eq)]
pub struct Steps {
    taken: u64,
}

impl Model for Steps {
    ghost use Rattle.std.specs.Prelude.{ℕ};

    ghost Value = { ℕ };

    ghost view = { λ s. s.taken };

    ghost inverse = { λ n. record { taken = n } };
}

impl Steps {
    /// None taken yet.
    pub const fn new() -> Steps
        ensures { result ≡ 0 }
    {
        Steps { taken: 0 }
    }

    /// How many were taken, or `u64::MAX` for that many or more.
    pub const fn taken(&self) -> u64
        ensures { result ≡ self.now }
    {
        self.taken
    }

    /// Counts one more.
    pub fn tick(&mut self)
        ensures { self.new ≡ min (self.old + 1) u64.MAX }
    {
        self.taken = self.taken.saturating_add(1);
    }
}
