//! Where a profile is wrong.
//!
//! Its rows: `tests/rows/profiles.txt`.

use pmb_keys::FaultKind;

/// What is wrong with a profile, and in which device and which command of it, both counted from 0,
/// where it lies within one.
#[derive(Clone, Copy, Debug, PartialEq, Eq)]
pub struct ProfileFault {
    pub what: FaultKind,
    pub device: Option<u8>,
    pub command: Option<u16>,
}
