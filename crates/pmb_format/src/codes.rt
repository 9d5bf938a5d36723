//! The values of a format's codes as whole numbers over one denominator.
//!
//! Its rows: `tests_numbers`, `src/formats/compared.rt`; `tests_codes`, `src/every_code.rt`.
ghost use Rattle.std.specs.Prelude.{◌≡◌, ◌↔◌, ◌^◌, ◌<◌, unsigned_abs, ◌-ℤ◌, IsNone, MatchBool};
ghost use Rattle.pmb_format.specs.Coding.{Coding, value_of, scaled, scaled_code, distance, IsInRange, IsBelow, IsAbove, ReachesSome, IsReachedBySome};
ghost use Rattle.pmb_format.specs.Row.{IsLeast, IsGreatest};
ghost use Rattle.pmb_format.specs.Written.{HasCode};
ghost use Rattle.pmb_format.specs.declared.format.RangeFault.TheVariants.{Below, Above};

use crate::format::RangeFault;
use pmb_quantity::Quantity;

/// What an encoder asks of a format.
pub trait Codes {
    /// The values of its codes, and which code is written for each.
    ghost coding: { Self → Coding };

    /// The numerator of a code's value, over the format's denominator.
    fn numerator(&self, code: u16) -> i64
        ensures value { result ≡ (coding self.now).numerator code }
        ensures small { unsigned_abs result < 2 ^ 62 };

    /// The denominator of every value.
    fn denominator(&self) -> u64
        ensures value { result ≡ (coding self.now).denominator }
        ensures small { result < 2 ^ 62 }
        ensures positive { 0 < (coding self.now).denominator };

    /// A code of the least value.
    fn least(&self) -> u16
        ensures { IsLeast (coding self.now) result };

    /// A code of the greatest value.
    fn greatest(&self) -> u16
        ensures { IsGreatest (coding self.now) result };
}

/// The exact value of a code.
pub fn decode<C: Codes>(codes: &C, code: u16) -> Quantity
    ensures { result ≡ value_of (C.coding codes.now) code }
{
    match Quantity::new(codes.numerator(code), codes.denominator() as i64) {
        Ok(quantity) => quantity,
        Err(_) => unreachable!(),
    }
}

/// The fault of a quantity that is outside the range.
pub fn fault_of<C: Codes>(codes: &C, quantity: &Quantity) -> Option<RangeFault>
    ensures in_range { IsNone result ↔ IsInRange (C.coding codes.now) quantity.now }
    ensures below { (result ≡ Some Below) ↔ IsBelow (C.coding codes.now) quantity.now }
    ensures above { (result ≡ Some Above) ↔ IsAbove (C.coding codes.now) quantity.now }
{
    if is_below(codes, quantity) {
        Some(RangeFault::Below)
    } else if is_above(codes, quantity) {
        Some(RangeFault::Above)
    } else {
        None
    }
}

/// Whether the quantity is under every value.
fn is_below<C: Codes>(codes: &C, quantity: &Quantity) -> bool
    ensures value { MatchBool result (IsBelow (C.coding codes.now) quantity.now)
        (ReachesSome (C.coding codes.now) quantity.now) }
    ensures some_code { HasCode (C.coding codes.now) }
{
    scaled(codes, quantity) < scaled_code(codes, quantity, codes.least())
}

/// Whether the quantity is over every value.
fn is_above<C: Codes>(codes: &C, quantity: &Quantity) -> bool
    ensures value { MatchBool result (IsAbove (C.coding codes.now) quantity.now)
        (IsReachedBySome (C.coding codes.now) quantity.now) }
    ensures some_code { HasCode (C.coding codes.now) }
{
    scaled_code(codes, quantity, codes.greatest()) < scaled(codes, quantity)
}

/// How far a quantity is from a code, times both denominators.
pub fn distance<C: Codes>(codes: &C, quantity: &Quantity, code: u16) -> u128
    ensures value { result ≡ distance (C.coding codes.now) quantity.now code }
    ensures small { result < 2 ^ 126 }
{
    (scaled(codes, quantity) - scaled_code(codes, quantity, code)).unsigned_abs()
}

/// A quantity, times both denominators.
pub fn scaled<C: Codes>(codes: &C, quantity: &Quantity) -> i128
    ensures value { result ≡ scaled (C.coding codes.now) quantity.now }
    ensures small { unsigned_abs result < 2 ^ 124 }
    ensures positive { 0 < quantity.now.denominator }
{
    i128::from(quantity.num()) * i128::from(codes.denominator())
}

/// The value of a code, times both denominators.
fn scaled_code<C: Codes>(codes: &C, quantity: &Quantity, code: u16) -> i128
    ensures value { result ≡ scaled_code (C.coding codes.now) quantity.now code }
    ensures small { unsigned_abs result < 2 ^ 124 }
{
    i128::from(quantity.den()) * i128::from(codes.numerator(code))
}
