//! How tests compare: what ends a test tells the row and both values.
//!
//! A call of these is a fifth of what `assert_eq!` costs to prove, since a proof of a test carries
//! the code that the macro writes in each place. Each crate of tests has this file: a crate of its
//! own would be a library that may end the process, which none may.

use std::fmt::Debug;
use std::process::Abort;

/// Ends the test where these two differ.
pub(crate) fn same<R: Abort, N: Debug + Drop, T: PartialEq + Debug + Drop>(
    rt: &R,
    row: N,
    found: T,
    wanted: T,
) {
    if found != wanted {
        panic!(*rt; "{row:?}: found {found:?}, wanted {wanted:?}")
    }
}

/// Ends the test where this does not hold.
pub(crate) fn ensure<R: Abort, N: Debug + Drop>(rt: &R, row: N, fact: bool) {
    if !fact {
        panic!(*rt; "{row:?}: does not hold")
    }
}
