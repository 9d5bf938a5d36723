//! Tests of `pmb_canonical`: packets by hand, texts that are no whole canonical packet, and every capture
//! with whole packets at once compared with event by event.

mod compared;
mod example;
mod rows;
