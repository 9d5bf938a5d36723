//! Why there is no board.
//!
//! Its rows: `.ci/boards`.

use pmb_table::ProfileFault;

/// Why parts make no board.
#[derive(Clone, Copy, Debug, PartialEq, Eq)]
pub enum BoardFault {
    /// There was no memory.
    Memory,
    /// The profile of the part at this place, from 0 on, has a fault.
    Part { part: usize, fault: ProfileFault },
    /// The tables of the part at this place are not told apart by lines `[[device]]`, or its first one has
    /// no line `address = ..` of its own.
    Tables { part: usize },
    /// What comes out has a fault.
    Board(ProfileFault),
    /// What comes out has more bytes than a profile may have.
    TooLong,
    /// What comes out has no device at the address of some part: a mistake in this program.
    Refused,
}
