//! Times that comments of a capture tell.
//!
//! A time line is a comment on a line of its own, such as `# 0.000025 s` or
//! `# 2026-11-27T10:00:00.25Z`. The time of a word is that of the last time line in the gap before
//! it. [`Times`] is given the bytes of a text in pieces of any size, or the rest of a line of canonical
//! text at once, and says which time the last word has, and which the next one would have.
//!
//! ```rust
//! let mut times = Times::new();
//! times.take(b"# 0.5 s\nS ");
//! assert_eq!(rt; times.of_last_word(), Some(b"0.5".as_slice()));
//! times.take(b"P\n# 2 s\n");
//! assert_eq!(rt; times.of_last_word(), None);
//! assert_eq!(rt; times.of_next_word(), Some(b"2".as_slice()));
//! ```
#![tactic(auto)]

pub mod laws;
mod line;
mod times;

pub use times::{TIME, Times};
