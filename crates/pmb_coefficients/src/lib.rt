//! What a device's data sheet fixes of its numbers: the coefficients m, b and R of DIRECT.
//!
//! A device whose numbers are in DIRECT tells three whole numbers, with which a word `Y` is worth
//! `(Y * 10^-R - b) / m`. [`Direct`] keeps three that make a format, and whether a word has a sign;
//! `pmb_value` has the format.
//!
//! ```rust
//! let direct = Direct::new(3, 2, 1)?;
//! assert_eq!(rt; direct.m(), 3);
//! assert!(rt; direct.unsigned().is_unsigned());
//! assert_eq!(rt; Direct::new(0, 2, 1), Err(DirectFault::ZeroSlope));
//! ```
#![tactic(auto)]

mod direct;

pub use direct::{Direct, DirectFault};
