//! Which way numbers are converted.
//!
//! Its rows: `tests/rows/arguments.txt`, `tests/rows/numbers.txt`.

/// Which way the numbers of lines are converted.
#[derive(Clone, Copy, Debug, PartialEq, Eq)]
pub enum Direction {
    /// From a quantity to its code.
    Encode,
    /// From a code to its quantity.
    Decode,
}
