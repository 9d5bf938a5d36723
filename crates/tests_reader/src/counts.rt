//! Tests of `pmb_count`: the packets and refusals of captures, counted by hand. And of `pmb_reader`
//! on large captures: the longest group, events without sense, and one event over and over.

mod counted;
mod large;
