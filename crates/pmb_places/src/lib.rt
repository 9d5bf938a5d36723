//! Places of words in the text of a capture, by line and column, and the word under way at its end.
//!
//! [`Places`] is given the bytes of a text in pieces of any size, or the rest of a line of canonical text
//! by its length. It says where the next byte stands, where the last word began and where it ended.
//! [`OpenWord`] is given the bytes too, and keeps the first ones of the word that is under way.
//! [`short_word`] has what tells whether bytes are a short word and a space, which most bytes come as.
//!
//! ```rust
//! let mut places = Places::new();
//! places.take(b"S b0 A # alert\n  21");
//! assert_eq!(rt; places.word(), Place { line: 2, column: 3 });
//! assert_eq!(rt; places.end(), Place { line: 2, column: 5 });
//! let mut word = OpenWord::new();
//! word.take(b"S b0 A # alert\n  21");
//! assert_eq!(rt; word.bytes(), b"21".as_slice());
//! ```
#![tactic(auto)]

pub mod laws;
mod open_word;
mod places;
pub mod short_word;

pub use open_word::{OpenWord, WORD};
pub use places::{Place, Places};
