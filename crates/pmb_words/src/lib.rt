//! Words and numbers of a text, as programs print them in lines.
//!
//! ```rust
//! let mut words = Words::of(b"  i2c-0 #0 a=058");
//! assert_eq!(rt; words.next_word(), Some(b"i2c-0".as_slice()));
//! assert_eq!(rt; decimal(b"1510"), Some(1510));
//! ```
#![tactic(auto)]

mod numbers;
mod parts;
mod words;

pub use numbers::{byte, decimal, fitting_decimal, hexadecimal, hexadecimal_digit};
pub use parts::{behind, part};
pub use words::{Pieces, Words};
