//! The profile that a capture is read under: the one before it, up to the first line `%%`, or the
//! sample.
//!
//! ```rust
//! let mut reader = Io::new(b"# none\n%%\nS P\n".as_slice());
//! let front = front(rt.alloc(), &mut reader)?;
//! assert_eq!(rt; front.profile(), b"# none\n".as_slice());
//! assert_eq!(rt; front.rest(), b"S P\n".as_slice());
//! ```
#![tactic(auto)]

mod front_parts;
mod front_reader;
pub mod laws;
mod sample;

pub use front_parts::Front;
pub use front_reader::front;
pub use sample::sample_profile;
