//! What data belong to.
//!
//! Its rows: `tests/rows/stats.txt`, pages and phases.

/// The page that data of a command belong to.
#[derive(Clone, Copy)]
pub enum PageKey {
    /// One of the device's, counted from 0.
    OnPage(u8),
    /// All of them: PAGE was ffh.
    AllPages,
    /// PAGE was not known, or the device has no such page.
    UnknownPage,
    /// None: the command is not paged.
    Unpaged,
}

/// The phase that data of a command belong to.
#[derive(Clone, Copy)]
pub enum PhaseKey {
    /// One of the device's, counted from 0.
    OnPhase(u8),
    /// All of them: PHASE was ffh.
    AllPhases,
    /// PHASE was not known, or the device has no such phase.
    UnknownPhase,
    /// None: the command has one value for all phases.
    Unphased,
}

/// A command of a device, on a page, in a phase.
#[derive(Clone, Copy)]
pub struct Spot {
    /// The address of the device, of seven bits.
    pub addr: u8,
    /// The command code.
    pub code: u8,
    pub page: PageKey,
    pub phase: PhaseKey,
}
