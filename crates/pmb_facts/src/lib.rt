//! The facts of a capture: what it says, one after the other.
//!
//! A [`Fact`] is a part of a write, a read, a call, a leg that was refused, an alert, a packet to an
//! address that speaks no PMBus, an event that no packet can have there, or a word that is no token,
//! with where and when it begins. It borrows what it says, so it takes no memory. [`append_object`]
//! appends its object as a line of JSON. By the [`laws`] the objects of a packet are those of its facts.
#![tactic(auto)]

mod fact;
pub mod laws;
mod object;

pub use fact::{CommandAt, Fact, What};
pub use object::append_object;
