//! What a device replies to a read or a call.
//!
//! Its rows: `tests_devices`, `src/registers/answers.rt`.

ghost use Rattle.std.specs.Prelude.{◌≡◌};
ghost use Rattle.pmb_registers.specs.Reply.{reply_bytes};

/// The data of a reply, without the count of a block and without a packet error code.
#[derive(Clone, Copy, Debug)]
pub enum Reply<'a> {
    /// What a register holds, up to 255 bytes.
    Held(&'a [u8]),
    /// m and b of DIRECT as words, low byte first, and R (PMBus Part II 1.3 section 14.1).
    Coefficients([u8; 5]),
}

impl<'a> Reply<'a> {
    /// The bytes.
    pub fn as_slice(&self) -> &[u8]
        ensures { result.now ≡ reply_bytes self.now }
    {
        match self {
            Reply::Held(bytes) => bytes,
            Reply::Coefficients(bytes) => bytes.as_slice(),
        }
    }
}
