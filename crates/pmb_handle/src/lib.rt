//! What a handle for C is made of: a value on the heap behind a pointer that may be null.
//!
//! A handle of the library stands in C's memory as one pointer. A [`Maybe`] is that pointer with what is
//! behind it: null is a closed handle and owns nothing, any other pointer owns a box. C can't be
//! given a type with a parameter, so the static library has a struct of its own with the pointer in it;
//! it takes that one apart into a `Maybe`, and puts it together again.
//! [`Maybe::of`] takes the pointer of a box, and [`Maybe::into_box`] gives the box back, or nothing at null.
//! [`Parts`] is a box in the same form that is never null: for a struct that keeps a value and what
//! borrows it, each in a block of its own.
//!
//! ```rust
//! let held = Maybe::of(Box::new(rt.alloc(), 7u8)?);
//! assert_eq!(rt; held.into_box().map(|held| *held), Some(7));
//! assert!(rt; Maybe::<u8>::closed(rt.alloc()).into_box().is_none());
//! ```
#![tactic(auto)]

mod maybe;
mod parts;

pub use maybe::Maybe;
pub use parts::Parts;
