//! Tests of packets by the names of `pmb_packet` alone: each name once.

mod names;
mod rows;
