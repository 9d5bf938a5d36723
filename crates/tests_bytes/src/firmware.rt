//! The program at the head of `pmb_firmware`, numbers in formats that C names, and texts that are cut.

mod cuts;
mod doc;
mod numbers;
