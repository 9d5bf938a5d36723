//! Quantities as the nearest decimals with a given number of digits.
//!
//! [`append_decimal`] writes the decimal that is nearest to a [`Quantity`](pmb_quantity::Quantity),
//! with at most as many digits after the point as [`Digits`] says. Of two decimals that are equally
//! near, it writes the one whose last digit is even. Zeros at the end are left out, and zero has no
//! sign. What it writes is a number of JSON, and where a quantity's own text has no more digits
//! than that after the point, it is that text.
//!
//! ```rust
//! let third = Quantity::new(-1, 3)?;
//! let mut text = ArrayVec::<u8, 33>::new();
//! append_decimal(&third, Digits::new(4).ok_or("digits")?, &mut text);
//! assert_eq!(rt; text.as_slice(), b"-0.3333".as_slice());
//! ```
#![tactic(auto)]

mod decimal;
mod digits;
pub mod laws;
mod rounding;

pub use decimal::append_decimal;
pub use digits::Digits;
