//! Tests of `pmb_partial_packet`: what packets under way had said, told by hand, where an event is refused.

mod example;
mod rows;
mod told;
