//! What a number format is.
//!
//! Its rows: `tests_numbers`, `src/formats/checks.rt`; `tests_codes`, `src/every_code.rt`.
ghost use Rattle.std.specs.Prelude.{◌≡◌, ◌↔◌, IfOk, IsOk};
ghost use Rattle.pmb_format.specs.Coding.{Coding, value_of, IsNearest, IsInRange, IsBelow, IsAbove};
ghost use Rattle.pmb_format.specs.Laws.{HasCanonicalCodes, HasOneCode, HasOneEvenNeighbour};
ghost use Rattle.pmb_format.specs.Steps.{TakesSteps, most_steps};

use crate::steps::Steps;
use pmb_quantity::Quantity;

/// On which side of a format's range a quantity lies.
#[derive(Clone, Copy, Debug, PartialEq, Eq)]
pub enum RangeFault {
    /// Under the least value.
    Below,
    /// Over the greatest value.
    Above,
}

/// A format of two bytes for a quantity.
pub trait Format {
    ghost use Rattle.pmb_format.specs.declared.format.RangeFault.TheVariants.{Below, Above};

    /// The values of its codes, and which code is written for each.
    ghost coding: { Self → Coding };

    /// The exact value of a code.
    fn decode(&self, code: u16) -> Quantity
        ensures { result ≡ value_of (coding self.now) code };

    /// The code nearest to a quantity, the even one at a tie. A quantity outside the range is
    /// refused, however little it is outside. `steps` counts each turn of a loop and each division:
    /// at most 33, and at least one for a code.
    fn encode(&self, quantity: &Quantity, steps: &mut Steps) -> Result<u16, RangeFault>
        ensures nearest { IfOk result (IsNearest (coding self.now) quantity.now) }
        ensures in_range { IsOk result ↔ IsInRange (coding self.now) quantity.now }
        ensures below { (result ≡ Err Below) ↔ IsBelow (coding self.now) quantity.now }
        ensures above { (result ≡ Err Above) ↔ IsAbove (coding self.now) quantity.now }
        ensures steps { TakesSteps 0 most_steps steps.old steps.new }
        ensures some_step { IsOk result → TakesSteps 1 most_steps steps.old steps.new };

    /// The laws of a format's codes: canonical codes of equal value are equal, each code has a
    /// canonical one of its value, and of two neighbouring values exactly one has an even canonical
    /// code. It does nothing.
    fn obeys_laws(&self)
        ensures one_code { HasOneCode (coding self.now) }
        ensures canonical_codes { HasCanonicalCodes (coding self.now) }
        ensures one_even { HasOneEvenNeighbour (coding self.now) };
}
