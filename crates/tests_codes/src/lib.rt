//! Every code of every format, decoded and encoded again, in a run of its own.
//!
//! It takes a blink. An encoder that tried all codes for each would take minutes: `.ci/run` gives the
//! run 20 seconds.
#![tactic(auto)]

#[cfg(test)]
mod compare;
#[cfg(test)]
mod every_code;
