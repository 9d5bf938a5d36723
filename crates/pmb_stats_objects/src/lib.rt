//! What `pmb stats --json` writes: one object for each device for which something was counted, and one
//! of the whole, each a line of JSON.
//!
//! [`put_objects`] puts them out from [`Statistics`](pmb_stats::Statistics). A device's object may have
//! more than waits at most, since it has each bit that was read set and the numbers of each command on
//! each page, in each phase. So it goes out item by item, and takes no memory. What is 0 or empty is left out.
//! `specs/Objects` is the text that is put out, as a function of the facts. By the [`laws`] each line is
//! one JSON object with distinct keys, and LF.
#![tactic(auto)]

mod bit;
mod command;
mod counts;
mod items;
pub mod laws;
mod member;
mod numbers;
mod objects;
mod page;
mod pages;

pub use objects::put_objects;
