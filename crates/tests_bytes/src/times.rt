//! Tests of `pmb_times`.

mod example;
mod lines;
mod rests;
mod rows;
