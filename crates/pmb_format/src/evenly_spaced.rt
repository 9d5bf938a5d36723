//! The encoder of formats whose values are evenly spaced.
//!
//! It measures how far a quantity is from the first code, and one division by the distance of two
//! neighbours rounds that to an index.
//!
//! Its rows: `tests_numbers`, `src/formats/compared.rt`, `direct.rt`, `linear16.rt`.
ghost use Rattle.std.specs.Prelude.{◌≡◌, ◌↔◌, ◌^◌, ◌<◌, ◌≤◌, IfOk, IsOk};
ghost use Rattle.pmb_format.specs.Coding.{IsNearest, IsInRange, IsBelow, IsAbove};
ghost use Rattle.pmb_format.specs.Laws.{HasCanonicalCodes, HasOneCode, HasOneEvenNeighbour};
ghost use Rattle.pmb_format.specs.Steps.{TakesSteps, steps_counted};
ghost use Rattle.pmb_format.specs.Row.{Row, IsRow};
ghost use Rattle.pmb_format.specs.declared.format.RangeFault.TheVariants.{Below, Above};

use crate::codes::{self, Codes};
use crate::format::RangeFault;
use crate::rounding::rounded_quotient;
use crate::steps::Steps;
use pmb_quantity::Quantity;

/// A format whose values are evenly spaced.
pub trait EvenlySpaced: Codes {
    /// Its codes in the order of their values, upwards or downwards.
    ghost row: { Self → Row };

    /// How far the values of neighbours are apart, over the format's denominator.
    fn spacing(&self) -> u64
        ensures value { result ≡ (row self.now).spacing }
        ensures small { result < 2 ^ 62 }
        ensures in_order { IsRow (Self.coding self.now) (row self.now) }
        ensures last { (row self.now).last < 2 ^ 16 };

    /// The code at an index.
    fn code_at(&self, index: u16) -> u16
        requires { index ≤ (row self.now).last }
        ensures { result ≡ (row self.now).code_at index };
}

/// The code nearest to a quantity, or the fault of one outside the range.
pub fn encode<E: EvenlySpaced>(
    format: &E,
    quantity: &Quantity,
    steps: &mut Steps,
) -> Result<u16, RangeFault>
    ensures nearest { IfOk result (IsNearest (E.coding format.now) quantity.now) }
    ensures in_range { IsOk result ↔ IsInRange (E.coding format.now) quantity.now }
    ensures below { (result ≡ Err Below) ↔ IsBelow (E.coding format.now) quantity.now }
    ensures above { (result ≡ Err Above) ↔ IsAbove (E.coding format.now) quantity.now }
    ensures steps { TakesSteps 0 1 steps.old steps.new }
    ensures some_step { IsOk result → TakesSteps 1 1 steps.old steps.new }
{
    match codes::fault_of(format, quantity) {
        Some(fault) => Err(fault),
        None => Ok(nearest(format, quantity, steps)),
    }
}

/// The code nearest to a quantity in range.
fn nearest<E: EvenlySpaced>(format: &E, quantity: &Quantity, steps: &mut Steps) -> u16
    requires { IsInRange (E.coding format.now) quantity.now }
    ensures nearest { IsNearest (E.coding format.now) quantity.now result }
    ensures steps { steps.new ≡ steps_counted steps.old 1 }
{
    let from_first = codes::distance(format, quantity, format.code_at(0));
    let spacing = u128::from(quantity.den().unsigned_abs()) * u128::from(format.spacing());
    let index = rounded_quotient(from_first, spacing, steps);
    format.code_at(index as u16)
}

/// The laws of the codes: it does nothing.
pub fn obeys_laws<E: EvenlySpaced>(format: &E)
    ensures one_code { HasOneCode (E.coding format.now) }
    ensures canonical_codes { HasCanonicalCodes (E.coding format.now) }
    ensures one_even { HasOneEvenNeighbour (E.coding format.now) }
{
    let _in_order = format.spacing();
}
