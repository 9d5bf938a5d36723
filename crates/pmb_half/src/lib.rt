//! IEEE 754 half precision, binary16.
//!
//! A word has a sign, a field of five bits for the exponent and ten bits of a fraction. Where the
//! field is 31 it is an infinity or no number, and has no value: [`has_no_value`] tells, and so does
//! `NumberFormat::value` of `pmb_value`. [`Half`] is a [`Format`](pmb_format::Format), whose `decode` is
//! for words that have a value.
//!
//! ```rust
//! let wanted = Quantity::new(1, 3)?;
//! assert_eq!(rt; Half.encode(&wanted, &mut Steps::new()), Ok(0x3555));
//! assert_eq!(rt; Half.decode(0xc000), Quantity::new(-2, 1)?);
//! assert!(rt; has_no_value(0x7c00));
//! ```
#![tactic(auto)]

mod half;

pub use half::{Half, has_no_value};
