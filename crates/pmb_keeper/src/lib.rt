//! What is kept of the facts of a capture.
//!
//! Who reads a capture hands each fact to a [`Keeper`], in the order of the capture, with what is known
//! where its packet begins. A keeper says what it keeps of a list of facts; [`Nothing`] keeps nothing.
#![tactic(auto)]

mod keeper;
mod nothing;

pub use keeper::Keeper;
pub use nothing::Nothing;
