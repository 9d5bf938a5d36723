//! `stats`: what a capture comes to, as a table for people or as objects of JSON.
//!
//! [`write_table`] and [`write_objects`] take memory for the sums of a profile's devices, read the
//! capture to its end, or to a bad token, and then write. By [`SumsChoice`] a user chooses what is known
//! at first, how numbers are rounded, whose paragraphs or objects are wanted, and what makes the status
//! 1: then the tally has one refusal.
#![tactic(auto)]

mod choice;
mod summary;

pub use choice::SumsChoice;
pub use pmb_stats_counts::Fail;
pub use pmb_telling::AfterBadToken;
pub use summary::{write_objects, write_table};
