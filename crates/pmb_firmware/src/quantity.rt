//! A quantity as C has it.
//!
//! Its rows: `tests_bytes`, `src/firmware/doc.rt`.
ghost use Rattle.std.specs.Prelude.{◌≡◌};
ghost use Rattle.pmb_quantity.specs.Quantity.{quotient};
ghost use Rattle.pmb_firmware.specs.Quantity.{numbers};

use pmb_value::{Quantity, QuantityFault};

/// A fraction. What a call returns is in lowest terms with a denominator of 1 or more; what it is
/// given may be any fraction.
#[repr(C)]
#[derive(Clone, Copy)]
pub struct PmbQuantity {
    /// The numerator.
    pub numerator: i64,
    /// The denominator.
    pub denominator: i64,
}

impl PmbQuantity {
    /// A quantity's two numbers.
    pub fn of(quantity: &Quantity) -> PmbQuantity
        ensures { result ≡ numbers quantity.now }
    {
        PmbQuantity {
            numerator: quantity.num(),
            denominator: quantity.den(),
        }
    }

    /// The quantity of these two numbers, or `ZeroDenominator` or `TooLarge`.
    pub fn value(&self) -> Result<Quantity, QuantityFault>
        ensures { result ≡ quotient self.now.numerator self.now.denominator }
    {
        Quantity::new(self.numerator, self.denominator)
    }
}
