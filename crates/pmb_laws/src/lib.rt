//! What the subcommands say of each other.
//!
//! Each law is a public function with an empty body, whose contract speaks of every profile and all
//! bytes. A capture can be shown, edited as lines and built again: where nothing in it is refused,
//! `build` makes of the lines that `show` wrote the events that they were shown from. And what `run`
//! writes is a capture: `check` counts the packets that were recorded, and refuses nothing.
#![tactic(auto)]

pub mod laws;
