//! Where a leg is written in its packet. Its rows: `tests_packets`, `src/legs/written.rt`.

/// Which of the written legs of a packet one is. In the first leg a write, a read or a call may
/// stand, in a later one a write alone.
#[derive(Clone, Copy, Debug, PartialEq, Eq)]
pub enum LegPlace {
    /// The first leg.
    First,
    /// A leg after complete parts.
    Later,
}
