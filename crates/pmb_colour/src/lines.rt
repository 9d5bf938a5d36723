//! What lines are painted.

/// What lines are painted.
#[derive(Clone, Copy, Debug, PartialEq, Eq)]
pub enum Lines {
    /// Those of `log`.
    Log,
    /// Those of the table of `stats`.
    Table,
}
