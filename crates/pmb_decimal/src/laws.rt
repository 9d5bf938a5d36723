//! Laws over the definitions that the contracts cite: each is the contract of a function that does
//! nothing.
//!
//! Its rows: `tests_numbers`, `src/decimals/example.rt`, where each law is called.
ghost use Rattle.std.specs.Prelude.{ℕ, ℤ, ◌<◌, ◌≤◌};
ghost use Rattle.pmb_quantity.specs.Fraction.{Fraction, IsQuantity};
ghost use Rattle.pmb_decimal.specs.Laws.{HasOneNearest, ReadsBack, WritesExactText, WritesJsonNumber, WritesNearest};

/// What is written for a fraction is the decimal nearest to it.
pub fn decimals_are_nearest()
    ensures { (digits : ℕ) (q : Fraction) → 0 < q.denominator → WritesNearest digits q }
{}

/// Each fraction has only one nearest decimal.
pub fn one_decimal_is_nearest()
    ensures { (digits : ℕ) (q : Fraction) → 0 < q.denominator → HasOneNearest digits q }
{}

/// A decimal reads back as its number of units of the last digit, where that is a quantity.
pub fn decimals_read_back()
    ensures { (digits : ℕ) (n : ℤ) → digits ≤ 24 → ReadsBack digits n }
{}

/// What is written for a quantity is a number of JSON.
pub fn decimals_are_numbers()
    ensures { (digits : ℕ) (q : Fraction) → IsQuantity q → WritesJsonNumber digits q }
{}

/// A quantity whose text has no more digits after the point is written as that text, which reads
/// back as the quantity.
pub fn exact_decimals_are_texts()
    ensures { (digits : ℕ) (q : Fraction) → IsQuantity q → WritesExactText digits q }
{}
