//! The number of units of the last digit that is nearest to a quantity.
//!
//! Its rows: `tests_numbers`, `src/decimals/rows.rt` and `compared.rt`.
ghost use Rattle.std.specs.Prelude.{◌≡◌, ◌*◌, ◌^◌, ◌<◌, ◌≤◌};
ghost use Rattle.pmb_decimal.specs.Decimal.{half_even};

/// A fraction in units of 1 / `unit`, rounded half to even. Most products have 64 bits, and are
/// divided several times as fast as such.
pub(crate) fn nearest_units(numerator: u64, denominator: u64, unit: u64) -> u128
    requires numerator_fits { numerator < 2 ^ 62 }
    requires positive { 0 < denominator }
    ensures value { result ≡ half_even (numerator * unit) denominator }
    ensures small { result ≤ numerator * unit }
{
    match numerator.checked_mul(unit) {
        Some(dividend) => u128::from(rounded_word(dividend, denominator)),
        None => rounded(
            u128::from(numerator) * u128::from(unit),
            u128::from(denominator),
        ),
    }
}

/// A quotient to the nearest whole number, half to even.
fn rounded(dividend: u128, divisor: u128) -> u128
    requires positive { 0 < divisor }
    ensures value { result ≡ half_even dividend divisor }
    ensures small { result ≤ dividend }
{
    let whole = dividend / divisor;
    let rest = dividend % divisor;
    let lacking = divisor - rest;
    if rest < lacking {
        whole
    } else if rest > lacking {
        whole + 1
    } else {
        whole + whole % 2
    }
}

/// The same of numbers of 64 bits.
fn rounded_word(dividend: u64, divisor: u64) -> u64
    requires positive { 0 < divisor }
    ensures value { result ≡ half_even dividend divisor }
    ensures small { result ≤ dividend }
{
    let quotient = dividend / divisor;
    let rest = dividend % divisor;
    let lacking = divisor - rest;
    if rest < lacking {
        quotient
    } else if rest > lacking {
        quotient + 1
    } else {
        quotient + quotient % 2
    }
}
