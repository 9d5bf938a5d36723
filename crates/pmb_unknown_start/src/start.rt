//! What is known at first.
//!
//! Its rows: `tests_lines`, `src/late/starts.rt`; `tests/rows/json_objects.txt`.

/// What is known of PAGE and VOUT_MODE of each device before the first transaction.
#[derive(Debug, Clone, Copy, PartialEq, Eq, Drop)]
pub enum Start {
    /// All: PAGE is 0, and VOUT_MODE on each page is the one of the profile. The capture begins with
    /// the power-up of the devices.
    AllKnown,
    /// Nothing. The capture begins in the middle.
    Late,
    /// VOUT_MODE on each page, which is the one of the profile, and not PAGE.
    LateFixedMode,
}
