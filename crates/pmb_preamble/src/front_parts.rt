//! What comes before a line `%%`, and what was read after it.
//!
//! Its rows: `tests/rows/preambles.txt`.

ghost use Rattle.std.specs.Prelude.{◌≡◌, ◌≤◌, [], true, false, length, take, drop};

use std::marker::Model;

/// What was read of a capture up to its first line `%%`, and with it.
#[derive(Debug, Drop)]
pub struct Front {
    /// All that was read.
    bytes: Vec<u8>,
    /// Where the profile ends.
    profile_end: usize,
    /// Where what follows the profile and the line `%%` starts.
    rest_start: usize,
    /// Whether there is such a line.
    marked: bool,
}

impl Model for Front {
    ghost use Rattle.std.specs.Prelude.{◌≤◌, length, take, drop};
    ghost use Rattle.pmb_preamble.specs.Front.{Parts};

    ghost Value = { Parts };

    ghost view = { λ front. record { profile = take front.profile_end front.bytes.items; rest = drop front.rest_start front.bytes.items; marked = front.marked } };

    ghost invariant = { λ front. (front.profile_end ≤ length front.bytes.items) × (front.rest_start ≤ length front.bytes.items) };
}

impl Front {
    /// The front of what was read, with a line `%%` from one place to another.
    pub(crate) fn at_mark(bytes: Vec<u8>, start: usize, end: usize) -> Front
        requires start { start ≤ length bytes.items }
        requires end { end ≤ length bytes.items }
        ensures profile { result.profile ≡ take start bytes.items }
        ensures rest { result.rest ≡ drop end bytes.items }
        ensures marked { result.marked ≡ true }
    {
        Front {
            bytes,
            profile_end: start,
            rest_start: end,
            marked: true,
        }
    }

    /// The front of what was read, where all of it is profile.
    pub(crate) fn all(bytes: Vec<u8>) -> Front
        ensures profile { result.profile ≡ bytes.items }
        ensures rest { result.rest ≡ [] }
        ensures marked { result.marked ≡ false }
    {
        let end = bytes.len();
        Front {
            bytes,
            profile_end: end,
            rest_start: end,
            marked: false,
        }
    }

    /// The profile: the bytes before the first line `%%`, or all where there is none.
    pub fn profile(&self) -> &[u8]
        ensures { result.now ≡ self.now.profile }
    {
        &self.bytes.as_slice()[..self.profile_end]
    }

    /// What was read after the line `%%`. What the reader has left follows it.
    pub fn rest(&self) -> &[u8]
        ensures { result.now ≡ self.now.rest }
    {
        &self.bytes.as_slice()[self.rest_start..]
    }

    /// Whether a line `%%` was read, so that a capture follows it, if an empty one. Without one the
    /// reader ended after the profile.
    pub fn has_capture(&self) -> bool
        ensures { result ≡ self.now.marked }
    {
        self.marked
    }
}
