//! Tests of `pmb_reader`: captures with what they read as, told by hand, however they are cut.

mod example;
mod rows;
mod told;
