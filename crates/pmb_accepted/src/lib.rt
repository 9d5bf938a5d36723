//! Laws of what a text says as a profile.
//!
//! The definitions of `pmb_keys` and `pmb_table` say key by key what a text says as a profile. That is a
//! bus that is accepted, in the sense of `pmb_command`, whatever reads the text: so laws that hold under
//! accepted profiles hold under each that is said, with no premise on it. See [`laws`]. Nothing runs
//! here.
#![tactic(auto)]

pub mod laws;
