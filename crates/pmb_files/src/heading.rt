//! How a file is announced among several.

/// How a file is announced.
#[derive(Clone, Copy, Debug, PartialEq, Eq)]
pub(crate) enum Heading {
    /// By a line `# file NAME`.
    Comment,
    /// By an object with its name.
    Object,
}
