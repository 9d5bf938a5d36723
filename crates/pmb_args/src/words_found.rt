//! What words come to, where nothing is written about them.

/// What words come to, where nothing is written about them.
#[derive(Clone, Copy, Debug, PartialEq, Eq)]
pub enum WordsFound {
    /// They have a fault, of which a call for help or the version is one.
    Fault,
    /// They have none, and ask for nothing.
    Nothing,
    /// They ask for something to be done.
    Task,
}
