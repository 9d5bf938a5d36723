//! What a subcommand takes files for, or values.

/// What a subcommand takes files for, or values.
#[derive(Clone, Copy, Debug, PartialEq, Eq)]
pub enum FileUse {
    /// Captures, each read on its own: `show`, `check`, `json`, `log` and `stats`.
    Captures,
    /// One input under a profile: `build`, `run` and `profile`.
    Input,
    /// One recording, which needs no profile: `import`.
    Recording,
    /// One capture, which needs no profile: `scan`.
    Bare,
    /// No files, but values, a word each: `encode` and `decode`.
    Values,
}
