//! Laws over the definitions that the contracts cite: each is the contract of a function that does
//! nothing.
ghost use Rattle.std.specs.Prelude.{◌≢◌, ℕ, ℤ, pos};
ghost use Rattle.pmb_coefficients.specs.Coefficients.{Coefficients};
ghost use Rattle.pmb_format.specs.Direct.{direct};
ghost use Rattle.pmb_format.specs.Laws.{HasOneNearest, KeepsValues};
ghost use Rattle.pmb_linear.specs.Linear.{IsExponent, linear11, linear11_fixed, ulinear16, slinear16};
ghost use Rattle.pmb_half.specs.Half.{half};
ghost use Rattle.pmb_vid.specs.Vid.{vid};
ghost use Rattle.pmb_vid.specs.declared.table.VidTable.{VidTable};
ghost use Rattle.pmb_value.specs.Answers.{HasAnswers};

/// LINEAR11: a code nearest to the value of a code has that value.
pub fn linear11_keeps_values()
    ensures { KeepsValues linear11 }
{}

/// LINEAR11 with one exponent, from -16 to 15: a code nearest to the value of a code has that
/// value.
pub fn linear11_fixed_keeps_values()
    ensures { (exponent : ℤ) → IsExponent exponent → KeepsValues (linear11_fixed exponent) }
{}

/// ULINEAR16, at every exponent from -16 to 15: a code nearest to the value of a code has that
/// value.
pub fn ulinear16_keeps_values()
    ensures { (exponent : ℤ) → IsExponent exponent → KeepsValues (ulinear16 exponent) }
{}

/// SLINEAR16, at every exponent from -16 to 15: a code nearest to the value of a code has that
/// value.
pub fn slinear16_keeps_values()
    ensures { (exponent : ℤ) → IsExponent exponent → KeepsValues (slinear16 exponent) }
{}

/// DIRECT, with every slope but 0: a code nearest to the value of a code has that value.
pub fn direct_keeps_values()
    ensures { (d : Coefficients) → d.m ≢ pos 0 → KeepsValues (direct d) }
{}

/// Half precision: a code nearest to the value of a code has that value.
pub fn half_keeps_values()
    ensures { KeepsValues half }
{}

/// Each VID table: a code nearest to the value of a code has that value.
pub fn vid_keeps_values()
    ensures { (table : VidTable) → KeepsValues (vid table) }
{}

/// LINEAR11: only one code is nearest to a quantity.
pub fn linear11_has_one_nearest()
    ensures { HasOneNearest linear11 }
{}

/// LINEAR11 with one exponent, from -16 to 15: only one code is nearest to a quantity.
pub fn linear11_fixed_has_one_nearest()
    ensures { (exponent : ℤ) → IsExponent exponent → HasOneNearest (linear11_fixed exponent) }
{}

/// LINEAR11 with one exponent, from -16 to 15: some word is a code.
pub fn linear11_fixed_has_codes()
    ensures { (exponent : ℤ) → IsExponent exponent → (code : ℕ) × (linear11_fixed exponent).IsCode code }
{}

/// ULINEAR16, at every exponent from -16 to 15: only one code is nearest to a quantity.
pub fn ulinear16_has_one_nearest()
    ensures { (exponent : ℤ) → IsExponent exponent → HasOneNearest (ulinear16 exponent) }
{}

/// SLINEAR16, at every exponent from -16 to 15: only one code is nearest to a quantity.
pub fn slinear16_has_one_nearest()
    ensures { (exponent : ℤ) → IsExponent exponent → HasOneNearest (slinear16 exponent) }
{}

/// DIRECT, with every slope but 0: only one code is nearest to a quantity.
pub fn direct_has_one_nearest()
    ensures { (d : Coefficients) → d.m ≢ pos 0 → HasOneNearest (direct d) }
{}

/// Half precision: only one code is nearest to a quantity.
pub fn half_has_one_nearest()
    ensures { HasOneNearest half }
{}

/// Each VID table: only one code is nearest to a quantity.
pub fn vid_has_one_nearest()
    ensures { (table : VidTable) → HasOneNearest (vid table) }
{}

/// In each format, at every exponent from -16 to 15 and with every slope but 0, a quantity is in
/// range and has a nearest code, or it is below or above all values.
pub fn quantities_have_answers()
    ensures linear11 { HasAnswers linear11 }
    ensures fixed { (exponent : ℤ) → IsExponent exponent → HasAnswers (linear11_fixed exponent) }
    ensures unsigned { (exponent : ℤ) → IsExponent exponent → HasAnswers (ulinear16 exponent) }
    ensures signed { (exponent : ℤ) → IsExponent exponent → HasAnswers (slinear16 exponent) }
    ensures direct { (d : Coefficients) → d.m ≢ pos 0 → HasAnswers (direct d) }
    ensures half { HasAnswers half }
    ensures vid { (table : VidTable) → HasAnswers (vid table) }
{
    linear11_fixed_has_codes();
}
