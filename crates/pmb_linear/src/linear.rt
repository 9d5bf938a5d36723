//! What the linear formats share.
ghost use Rattle.std.specs.Prelude.{◌≡◌, ◌-◌, ◌^◌, ◌<◌, ◌≤◌, unsigned_abs, pos, negsuc, ◌≤ℤ◌};
ghost use Rattle.pmb_format.specs.Words.{twos_complement};
ghost use Rattle.pmb_linear.specs.Linear.{power};

use pmb_format::twos_complement;

/// An exponent is not from -16 to 15.
#[derive(Clone, Copy, Debug, PartialEq, Eq)]
pub struct BadExponent;

/// The least exponent of two.
pub(crate) const LEAST_EXPONENT: i8 = -16;

/// The greatest exponent of two.
pub(crate) const GREATEST_EXPONENT: i8 = 15;

/// The denominator of every linear value: 2^16.
pub(crate) const DENOMINATOR: u64 = 1 << 16;

/// A five-bit exponent.
pub fn exponent_of(field: u16) -> i8
    requires { field < 2 ^ 5 }
    ensures value { result ≡ twos_complement 5 field }
    ensures least { negsuc 15 ≤ℤ result }
    ensures greatest { result ≤ℤ pos 15 }
{
    twos_complement(5, field) as i8
}

/// `2^exponent` over 2^16.
pub(crate) fn power(exponent: i8) -> u32
    requires least { negsuc 15 ≤ℤ exponent }
    requires greatest { exponent ≤ℤ pos 15 }
    ensures value { result ≡ power exponent }
{
    1 << (exponent - LEAST_EXPONENT)
}
