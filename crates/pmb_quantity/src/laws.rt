//! Laws over the definitions that the contracts cite: each is the contract of a function that does
//! nothing.
ghost use Rattle.std.specs.Prelude.{ℕ, ℤ, ◌<◌};
ghost use Rattle.pmb_quantity.specs.Fraction.{Fraction, IsQuantity};
ghost use Rattle.pmb_quantity.specs.Laws.{AreLowestTerms, IsShortest, ReadsBack};

/// Lowest terms are the same fraction, and have no common divisor but 1.
pub fn lowest_terms()
    ensures { (n : ℤ) (d : ℕ) → 0 < d → AreLowestTerms n d }
{}

/// The text of each quantity reads back as exactly that quantity.
pub fn text_reads_back()
    ensures { (q : Fraction) → IsQuantity q → ReadsBack q }
{}

/// No shorter decimal reads as the quantity that a text writes.
pub fn text_is_shortest()
    ensures { (q : Fraction) → IsShortest q }
{}
