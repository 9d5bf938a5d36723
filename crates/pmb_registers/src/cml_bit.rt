//! The bits of STATUS_CML that a simulated device sets.
//!
//! Its rows: `tests_devices`, `src/registers/written.rt`, `src/registers/answers.rt`.

ghost use Rattle.std.specs.Prelude.{◌≡◌};
ghost use Rattle.pmb_registers.specs.Apply.{bit_value};

/// A fault of communication, with its bit of STATUS_CML (PMBus Part II 1.3 chapter 17).
#[derive(Clone, Copy, Debug, PartialEq, Eq)]
pub enum CmlBit {
    /// Bit 7: a command that is not there, or can't be used so.
    BadCommand,
    /// Bit 6: data that the command does not take.
    BadValue,
    /// Bit 5: a wrong packet error code.
    PecFailed,
}

impl CmlBit {
    /// The bit's value in STATUS_CML: 80h, 40h or 20h.
    pub const fn value(self) -> u8
        ensures { result ≡ bit_value self }
    {
        match self {
            CmlBit::BadCommand => 0x80,
            CmlBit::BadValue => 0x40,
            CmlBit::PecFailed => 0x20,
        }
    }
}
