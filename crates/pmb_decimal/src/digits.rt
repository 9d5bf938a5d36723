//! The number of digits after the point.
//!
//! Its rows: `tests_numbers`, `src/decimals/rows.rt` and `compared.rt`.
ghost use Rattle.std.specs.Prelude.{◌≡◌, ◌≤◌, ◌<◌};

use std::marker::Model;

/// The most digits after the point.
const MOST: u8 = 12;

/// The most digits that a decimal has after the point: 0 to 12, by default 6.
#[derive(Clone, Copy, Debug, PartialEq, Eq)]
pub struct Digits {
    count: u8,
}

impl Model for Digits {
    ghost use Rattle.std.specs.Prelude.{ℕ, ◌≤◌};

    ghost Value = { ℕ };

    ghost view = { λ d. d.count };

    ghost invariant = { λ d. d.count ≤ 12 };

    ghost inverse = { λ n. record { count = n } };
}

impl Digits {
    /// That many digits, or `None` for more than 12.
    pub const fn new(count: u8) -> Option<Digits>
        ensures some { count ≤ 12 → result ≡ Some count }
        ensures none { 12 < count → result ≡ None }
    {
        if count <= MOST {
            Some(Digits { count })
        } else {
            None
        }
    }

    /// How many digits.
    pub const fn count(self) -> u8
        ensures value { result ≡ self }
        ensures few { result ≤ 12 }
    {
        self.count
    }
}

impl Default for Digits {
    /// Six digits.
    fn default() -> Digits
        ensures { result ≡ 6 }
    {
        Digits { count: 6 }
    }
}
