//! The number formats of PMBus.
//!
//! A [`Format`] of two bytes (LINEAR11, ULINEAR16, SLINEAR16, DIRECT, half precision or a VID table)
//! says which [`Quantity`] a code is worth, exactly, and which code is nearest to a quantity: the even
//! one at a tie, and none for a quantity outside the range. A [`NumberFormat`] is any of them, and
//! [`vout_format`] answers the one that a VOUT_MODE names. [`NumberFormat::value`] is the quantity of a
//! word, or why it has none, as some words of half precision and of VID tables have none.
//! [`Quantity::parse`] reads a quantity and [`Quantity::text`] writes it, with nothing lost: its text
//! reads back as exactly that quantity.
//!
//! ```rust
//! let format = vout_format(0x17, false, None)?;
//! let wanted = Quantity::parse(b"3.3")?;
//! let code = format.encode(&wanted, &mut Steps::new())?;
//! assert_eq!(rt; code, 0x069a);
//! let set = format.decode(code).text();
//! assert_eq!(rt; set.as_str(), "3.30078125");
//! ```
#![tactic(auto)]

pub mod laws;
mod number_format;
mod sign;
mod vout;

pub use number_format::{NumberFormat, WordFault};
pub use pmb_coefficients::{Direct, DirectFault};
pub use pmb_format::{Format, RangeFault, Steps};
pub use pmb_half::Half;
pub use pmb_linear::{BadExponent, Linear11, Linear11Fixed, Slinear16, Ulinear16};
pub use pmb_quantity::{Quantity, QuantityFault, QuantityText};
pub use pmb_vid::VidTable;
pub use sign::Sign;
pub use vout::{ModeFault, VoutFormat, vout_format};
