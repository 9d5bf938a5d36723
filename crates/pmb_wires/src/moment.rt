//! What changes at a time.

use crate::level::Level;

/// A level that a wire gets.
#[derive(Clone, Copy, Debug, PartialEq, Eq)]
pub struct Edge {
    /// The number of the line of the recording that says so.
    pub line: u64,
    /// The level.
    pub level: Level,
}

/// What the wires get at a time.
#[derive(Clone, Copy, Debug, PartialEq, Eq)]
pub struct Moment {
    /// The time, in femtoseconds.
    pub time: u128,
    /// What SCL gets.
    pub scl: Option<Edge>,
    /// What SDA gets.
    pub sda: Option<Edge>,
}

/// Up to two moments: there is a second one only behind a first one.
#[derive(Clone, Copy, Debug)]
pub struct Moments {
    /// The earlier one.
    pub first: Option<Moment>,
    /// The later one.
    pub second: Option<Moment>,
}
