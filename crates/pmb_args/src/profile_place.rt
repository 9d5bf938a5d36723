//! Where a profile is.

/// Where the profile is under which something is done.
#[derive(Clone, Copy, Debug, PartialEq, Eq)]
pub enum ProfilePlace {
    /// It is the one that is built in.
    Sample,
    /// It comes first in the input, up to a line `%%`.
    Front,
}
