//! Division that rounds once.
ghost use Rattle.std.specs.Prelude.{◌≡◌, ◌^◌, ◌<◌};
ghost use Rattle.pmb_format.specs.Steps.{steps_counted};
ghost use Rattle.pmb_format.specs.Rounding.{Rounds};

use crate::steps::Steps;

/// The whole number nearest to `dividend / divisor`, the even one at a tie. The division ticks.
pub fn rounded_quotient(dividend: u128, divisor: u128, steps: &mut Steps) -> u128
    requires dividend_is_small { dividend < 2 ^ 126 }
    requires divisor_is_small { divisor < 2 ^ 126 }
    requires divisor_is_some { 0 < divisor }
    ensures value { Rounds dividend divisor result }
    ensures steps { steps.new ≡ steps_counted steps.old 1 }
{
    steps.tick();
    let quotient = dividend / divisor;
    let twice_the_rest = 2 * (dividend - quotient * divisor);
    if twice_the_rest > divisor || (twice_the_rest == divisor && quotient & 1 == 1) {
        quotient + 1
    } else {
        quotient
    }
}
