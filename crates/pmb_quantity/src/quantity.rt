//! Quantities: exact fractions.
//!
//! Its rows: `tests_numbers`, `src/formats/quantity.rt`.
ghost use Rattle.std.specs.Prelude.{◌≡◌, ℕ, ◌-◌, ◌*◌, ◌^◌, ◌<◌, ◌≤◌, pos, unsigned_abs, IfOk};
ghost use Rattle.pmb_quantity.specs.Fraction.{Fraction, HasValue, IsQuantity, gcd, lowest_terms};

use std::marker::Model;

/// Both numbers of a quantity are below this one.
pub(crate) const LIMIT: u128 = 1 << 62;

/// Why two numbers or a text make no [`Quantity`].
#[derive(Clone, Copy, Debug, PartialEq, Eq)]
pub enum QuantityFault {
    /// The text has no byte.
    Empty,
    /// The text is not a quantity's.
    BadDigit,
    /// The denominator is 0.
    ZeroDenominator,
    /// The quantity, or a number that it is written with, is out of range.
    TooLarge,
}

/// A fraction in lowest terms: the numerator is above -2^62 and below 2^62, the denominator from 1
/// to 2^62 - 1.
#[derive(Clone, Copy, Debug, PartialEq, Eq)]
pub struct Quantity {
    numerator: i64,
    denominator: u64,
}

impl Model for Quantity {
    ghost use Rattle.pmb_quantity.specs.Fraction.{Fraction, IsQuantity};

    ghost Value = { Fraction };

    ghost view = { λ q. record { numerator = q.numerator; denominator = q.denominator } };

    ghost invariant = { λ q. IsQuantity (record { numerator = q.numerator; denominator = q.denominator }) };

    ghost inverse = { λ q. record { numerator = q.numerator; denominator = q.denominator } };
}

impl Quantity {
    ghost use Rattle.pmb_quantity.specs.Quantity.{fitted, negative, quotient};

    /// `numerator / denominator`. The fault is `ZeroDenominator`, or else `TooLarge` where a number
    /// of the fraction in lowest terms, with the sign in its numerator, is out of range. Two
    /// numbers in range always make a quantity.
    pub fn new(numerator: i64, denominator: i64) -> Result<Quantity, QuantityFault>
        ensures value { result ≡ quotient numerator denominator }
        ensures same_value { IfOk result (HasValue numerator denominator) }
        ensures too_large { result ≡ Err QuantityFault.TooLarge → (q : Fraction) → IsQuantity q →
            HasValue numerator denominator q → ⊥ }
        ensures in_range { (d : ℕ) → denominator ≡ pos d → 0 < d → d < 2 ^ 62 → unsigned_abs numerator < 2 ^ 62 →
            result ≡ Ok (lowest_terms numerator d) }
    {
        Quantity::divided(numerator, denominator)
    }

    /// The numerator in lowest terms, negative for a negative quantity.
    pub const fn num(&self) -> i64
        ensures value { result ≡ self.now.numerator }
        ensures holds { IsQuantity self.now }
    {
        self.numerator
    }

    /// The denominator in lowest terms, 1 or more.
    pub const fn den(&self) -> i64
        ensures value { result ≡ pos self.now.denominator }
        ensures holds { IsQuantity self.now }
    {
        self.denominator as i64
    }

    /// One number by another.
    fn divided(numerator: i64, denominator: i64) -> Result<Quantity, QuantityFault>
        ensures { result ≡ quotient numerator denominator }
    {
        if denominator == 0 {
            return Err(QuantityFault::ZeroDenominator);
        }
        let magnitude = Quantity::from_words(numerator.unsigned_abs(), denominator.unsigned_abs())?;
        if (numerator < 0) == (denominator < 0) {
            Ok(magnitude)
        } else {
            Ok(magnitude.negated())
        }
    }

    /// A fraction, or `TooLarge`.
    pub(crate) fn from_parts(numerator: u128, denominator: u128) -> Result<Quantity, QuantityFault>
        requires { 0 < denominator }
        ensures { result ≡ fitted (lowest_terms (pos numerator) denominator) }
    {
        let divisor = gcd(numerator, denominator);
        let numerator = numerator / divisor;
        let denominator = denominator / divisor;
        if numerator >= LIMIT || denominator >= LIMIT {
            return Err(QuantityFault::TooLarge);
        }
        Ok(Quantity {
            numerator: numerator as i64,
            denominator: denominator as u64,
        })
    }

    /// A fraction of numbers of 64 bits, or `TooLarge`. With a power of two, as the denominators of
    /// the linear formats are, a number has only twos in common, and shifts take them out.
    pub(crate) fn from_words(numerator: u64, denominator: u64) -> Result<Quantity, QuantityFault>
        requires { 0 < denominator }
        ensures { result ≡ fitted (lowest_terms (pos numerator) denominator) }
    {
        let halvings = denominator.trailing_zeros();
        if denominator == 1 << halvings {
            let common = common_halvings(numerator, halvings);
            return Quantity::from_lowest(numerator >> common, 1 << (halvings - common));
        }
        let divisor = gcd_of_words(numerator, denominator);
        Quantity::from_lowest(numerator / divisor, denominator / divisor)
    }

    /// A number with so many digits after a point. With a power of ten it has only twos and fives
    /// in common.
    pub(crate) fn from_decimal(number: u64, places: u32) -> Quantity
        requires number_fits { number < 2 ^ 62 }
        requires few { places ≤ 18 }
        ensures { result ≡ lowest_terms (pos number) (10 ^ places) }
    {
        let twos = common_halvings(number, places);
        let (numerator, fives) = without_fives(number >> twos, places);
        Quantity {
            numerator: numerator as i64,
            denominator: power_of_five(fives) << (places - twos),
        }
    }

    /// A fraction in lowest terms, or `TooLarge`.
    fn from_lowest(numerator: u64, denominator: u64) -> Result<Quantity, QuantityFault>
        requires positive { 0 < denominator }
        requires lowest { gcd numerator denominator ≡ 1 }
        ensures { result ≡ fitted (record { numerator = pos numerator; denominator = denominator }) }
    {
        if u128::from(numerator) >= LIMIT || u128::from(denominator) >= LIMIT {
            return Err(QuantityFault::TooLarge);
        }
        Ok(Quantity {
            numerator: numerator as i64,
            denominator,
        })
    }

    /// The quantity with the other sign.
    pub(crate) fn negated(self) -> Quantity
        ensures { result ≡ negative self }
    {
        Quantity {
            numerator: -self.numerator,
            denominator: self.denominator,
        }
    }
}

/// The greatest common divisor. Numbers of 64 bits are divided as such, which is several times as
/// fast.
pub(crate) fn gcd(mut a: u128, mut b: u128) -> u128
    ensures { result ≡ gcd a b }
{
    while b > u128::from(u64::MAX) {
        let rest = a % b;
        a = b;
        b = rest;
    }
    if b == 0 {
        return a;
    }
    u128::from(gcd_of_words(b as u64, (a % b) as u64))
}

/// How many twos a number and two to a power have in common: two to so many is their greatest common
/// divisor.
fn common_halvings(number: u64, halvings: u32) -> u32
    requires { halvings ≤ 64 }
    ensures value { gcd number (2 ^ halvings) ≡ 2 ^ result }
    ensures few { result ≤ halvings }
{
    number.trailing_zeros().min(halvings)
}

/// The greatest common divisor of numbers of 64 bits.
fn gcd_of_words(mut a: u64, mut b: u64) -> u64
    ensures { result ≡ gcd a b }
{
    while b != 0 {
        let rest = a % b;
        a = b;
        b = rest;
    }
    a
}

/// Takes out of a number the fives that it has in common with a power of five: the rest, and how
/// many fives are left of the power.
pub(crate) fn without_fives(number: u64, fives: u32) -> (u64, u32)
    ensures fewer { result.1 ≤ fives }
    ensures value { result.0 * 5 ^ (fives - result.1) ≡ number }
    ensures lowest { gcd result.0 (5 ^ result.1) ≡ 1 }
{
    let mut rest = number;
    let mut left = fives;
    while left > 0 && rest % 5 == 0 {
        rest /= 5;
        left -= 1;
    }
    (rest, left)
}

/// Five to each power up to 18.
const POWERS_OF_FIVE: [u64; 19] = [
    1,
    5,
    25,
    125,
    625,
    3_125,
    15_625,
    78_125,
    390_625,
    1_953_125,
    9_765_625,
    48_828_125,
    244_140_625,
    1_220_703_125,
    6_103_515_625,
    30_517_578_125,
    152_587_890_625,
    762_939_453_125,
    3_814_697_265_625,
];

/// Five to a power.
pub(crate) fn power_of_five(power: u32) -> u64
    requires { power ≤ 18 }
    ensures { result ≡ 5 ^ power }
{
    POWERS_OF_FIVE[power as usize]
}
