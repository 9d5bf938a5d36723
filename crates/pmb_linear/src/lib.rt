//! The linear formats: LINEAR11, LINEAR11 with one exponent, ULINEAR16 and SLINEAR16.
//!
//! A value is a whole number times a power of two. In [`Linear11`] the exponent stands in the word,
//! and a value may have several codes; in [`Linear11Fixed`] a data sheet fixes it; in [`Ulinear16`]
//! and [`Slinear16`] VOUT_MODE gives it. Each is a [`Format`](pmb_format::Format).
//!
//! ```rust
//! let wanted = Quantity::new(-1, 3)?;
//! assert_eq!(rt; Linear11.encode(&wanted, &mut Steps::new()), Ok(0xad55));
//! let format = Linear11Fixed::new(-3)?;
//! assert_eq!(rt; format.encode(&wanted, &mut Steps::new()), Ok(0xeffd));
//! ```
#![tactic(auto)]

mod linear;
mod linear11;
mod linear11_fixed;
mod linear16;

pub use linear::{BadExponent, exponent_of};
pub use linear11::Linear11;
pub use linear11_fixed::Linear11Fixed;
pub use linear16::{Linear16, Slinear16, Ulinear16};
