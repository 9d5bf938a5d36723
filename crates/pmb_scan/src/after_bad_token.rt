//! What is done after a bad token.
//!
//! Its rows: `tests/rows/json_objects.txt`.

/// What is done after a word that is no token.
#[derive(Clone, Copy, Debug, PartialEq, Eq)]
pub enum AfterBadToken {
    /// Reading ends there.
    End,
    /// The rest of its line and the packet under way are dropped, and reading begins anew with the
    /// next line.
    Continue,
}
