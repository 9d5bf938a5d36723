//! Levels of wires.

ghost use Rattle.std.specs.Prelude.{◌≡◌};
ghost use Rattle.pmb_wires.specs.Changes.{has as has_level};

/// A level of a wire.
#[derive(Clone, Copy, Debug, PartialEq, Eq)]
pub enum Level {
    /// The wire is pulled down: 0.
    Low,
    /// Nothing pulls the wire down: 1.
    High,
    /// What the wire is isn't known: x.
    Unknown,
}

/// The levels of both wires. A wire that was not written has none.
#[derive(Clone, Copy, Debug)]
pub struct Levels {
    /// That of SCL.
    pub scl: Option<Level>,
    /// That of SDA.
    pub sda: Option<Level>,
}

/// Whether a wire has a level already.
pub fn has(now: Option<Level>, level: Level) -> bool
    ensures { result ≡ has_level now level }
{
    match now {
        Some(now) => now == level,
        None => false,
    }
}
