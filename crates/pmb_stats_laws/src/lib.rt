//! Laws of what is counted of captures.
//!
//! What a fact counts as is by what it says alone, not by where and when its packet begins. So the counts of
//! two pieces of a capture, cut behind a STOP, add up to those of the whole. The counts of devices, and of what
//! names none, add up to those of the capture, and those that `json` tells of it are among them; so these of two
//! pieces add up too. Some fact tells of a fault exactly where a bit that tells of one was found set. See
//! [`laws`]. Nothing runs here.
#![tactic(auto)]

pub mod laws;
