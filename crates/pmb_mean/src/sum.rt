//! The sum of the numerators of values.

use crate::denominators::Denominators;
use crate::number::Number;

/// The sum of the numerators of values over one denominator.
#[derive(Clone, Copy, Debug, PartialEq, Eq)]
pub(crate) enum Sum {
    /// No value has come.
    Empty,
    /// All have come over these denominators.
    Of(Denominators, i128),
    /// Values have come that are not put together.
    Mixed,
}

impl Sum {
    ghost use Rattle.std.specs.Prelude.{◌≡◌, ◌+◌, ◌-◌, ◌^◌, ◌<◌, ◌≤◌, unsigned_abs};
    ghost use Rattle.pmb_mean.specs.machine.History.{added, fewest, total_of};

    /// The sum with a value more.
    pub fn with(self, number: &Number) -> Sum
        requires { unsigned_abs (total_of self) < 2 ^ 126 }
        ensures value { result ≡ added self number.now }
        ensures bounded { unsigned_abs (total_of result) ≤ unsigned_abs (total_of self) + (2 ^ 62 - 1) }
        ensures one { fewest result ≤ 1 }
    {
        match self {
            Sum::Empty => Sum::Of(number.over(), i128::from(number.numerator())),
            Sum::Of(over, total) => {
                if number.over().same(&over) {
                    Sum::Of(over, total + i128::from(number.numerator()))
                } else {
                    Sum::Mixed
                }
            }
            Sum::Mixed => Sum::Mixed,
        }
    }
}
