//! What is kept of the values of one command on one page: how often it came, how many of its values
//! rest on an assumed VOUT_MODE, the least, the greatest and the last of them, and their exact mean.
//!
//! A [`Number`] is the value of a word in a number format. A [`NumberHistory`] takes one after the
//! other, and needs no memory for them: it adds up their numerators over one denominator. So the
//! mean is exact, and its text is rounded once. Values over different [`Denominators`] have no mean.
//!
//! ```rust
//! let mut history = NumberHistory::new();
//! for word in [0xf800, 0xf801, 0xf803] {
//!     if let Some(number) = Number::of_word(&NumberFormat::Linear11, word, false) {
//!         history.see(&number);
//!     }
//! }
//! let mut text = ArrayVec::<u8, 33>::new();
//! history.append_mean(Digits::default(), &mut text);
//! assert_eq!(rt; text.as_slice(), b"0.666667".as_slice());
//! ```
#![tactic(auto)]

mod decimal;
mod denominators;
mod division;
mod history;
pub mod laws;
mod number;
mod order;
mod sum;

pub use denominators::Denominators;
pub use history::NumberHistory;
pub use number::Number;
