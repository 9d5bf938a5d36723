//! Tests of `pmb_io`: text that waits for a writer, calls that are interrupted, what the reader for
//! tests gives, and the texts of faults.

mod faults;
mod giving;
mod interrupted;
mod waiting;
