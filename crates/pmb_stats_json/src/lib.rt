//! Laws of what `stats --json` writes: its lines are JSON.
//!
//! Under what a text says as a profile, the numbers and times that facts tell fit the objects of their
//! sums, whatever bytes are read. See [`laws`]. Nothing runs here.
#![tactic(auto)]

pub mod laws;
