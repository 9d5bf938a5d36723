//! What a number format of two bytes is, the encoder of those whose values are evenly spaced, and
//! DIRECT, which is one.
//!
//! A [`Format`] says which quantity a code is worth, exactly, and which code is nearest to a
//! quantity. A format tells its codes by [`Codes`](codes::Codes): from these come the value of a code
//! and the fault of a quantity outside the range. Where its values are evenly spaced it also tells
//! its codes in the order of their values, by [`EvenlySpaced`](evenly_spaced::EvenlySpaced), and one
//! division finds the nearest. [`Steps`] counts the work of an encoder.
//!
//! ```rust
//! let mut steps = Steps::new();
//! assert_eq!(rt; rounding::rounded_quotient(7, 2, &mut steps), 4);
//! assert_eq!(rt; steps.taken(), 1);
//! ```
#![tactic(auto)]

pub mod codes;
mod direct;
pub mod evenly_spaced;
mod format;
pub mod rounding;
mod steps;
mod word;

pub use format::{Format, RangeFault};
pub use steps::Steps;
pub use word::{SignedWord, UnsignedWord, Word, twos_complement};
