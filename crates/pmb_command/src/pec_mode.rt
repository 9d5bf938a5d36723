//! Whether packets carry a packet error code.
//!
//! Its rows: `tests_commands`, `src/modes.rt`.

ghost use Rattle.std.specs.Prelude.{◌↔◌, IsTrue, true};
ghost use Rattle.pmb_command.specs.PecMode.{AllowsPec};

/// Whether the packets of a device carry a packet error code (SMBus 3.0 section 6.4).
#[derive(Clone, Copy, Debug, PartialEq, Eq)]
pub enum PecMode {
    /// None does.
    Off,
    /// Each does.
    On,
    /// Each may.
    Optional,
}

impl PecMode {
    /// Whether a packet, or a part of one, may be with a packet error code, or without.
    #[inline]
    pub const fn allows(self, with_pec: bool) -> bool
        ensures { IsTrue result ↔ AllowsPec self with_pec }
    {
        match self {
            PecMode::Off => !with_pec,
            PecMode::On => with_pec,
            PecMode::Optional => true,
        }
    }

    /// Whether a packet error code may follow the data.
    #[inline]
    pub const fn may_carry(self) -> bool
        ensures { IsTrue result ↔ AllowsPec self true }
    {
        self.allows(true)
    }
}
