//! Quantities as exact fractions, and their texts.
//!
//! A [`Quantity`] is a fraction in lowest terms. [`Quantity::new`] makes one of two numbers,
//! [`Quantity::parse`] reads one and [`Quantity::text`] writes it, with nothing lost: its text
//! reads back as exactly that quantity.
//!
//! ```rust
//! let wanted = Quantity::parse(b"-6/4")?;
//! assert_eq!(rt; (wanted.num(), wanted.den()), (-3, 2));
//! let text = wanted.text();
//! assert_eq!(rt; text.as_str(), "-1.5");
//! ```
#![tactic(auto)]

pub mod laws;
mod numeral;
mod parse;
mod quantity;
mod text;

pub use quantity::{Quantity, QuantityFault};
pub use text::QuantityText;
