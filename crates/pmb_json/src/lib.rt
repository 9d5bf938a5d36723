//! Laws of what is told, and above all as objects of `json`.
//!
//! Where the [`Telling`](pmb_fact_stream::Telling) of a choice is `Objects`, what
//! [`tell`](pmb_telling::tell) writes is the lines of the objects of the capture's facts. By the [`laws`]
//! each line is JSON, and a piece of a capture says nothing that the whole denies, nor does one that has lost
//! lines say what was not so on the bus. However facts are told, those of two pieces say what those of the whole
//! say. Nothing runs here.
#![tactic(auto)]

pub mod laws;
