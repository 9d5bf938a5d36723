//! Tests of `pmb_exchange`: requests on the devices of the sample profile, with what is recorded of them
//! and how they end, told by hand.

mod bench;
mod rows;
