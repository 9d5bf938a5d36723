//! Laws that join the program and the library for C: what the library puts for an input that is at
//! hand is what the program writes that reads the profile, its line `%%` and that input. See [`laws`].
//! Nothing runs here.
#![tactic(auto)]

pub mod laws;
