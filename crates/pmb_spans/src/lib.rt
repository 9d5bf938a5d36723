//! What a list of events reads as, each outcome with its events.
//!
//! A reading tells packets and refusals in their order. A span tells also where each of them
//! stands: how many events came before it, and which events are its own. [`laws`] ties the two:
//! events read as the outcomes of their spans, each reading has spans, and under an accepted
//! profile a list of events has one list of spans.
#![tactic(auto)]

pub mod laws;
