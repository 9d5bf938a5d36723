//! What the bytes of a leg say, borrowed from it.
//!
//! Its rows: `tests_packets`, `src/legs/written.rt` and `answers.rt`.

/// What a write body says, after the address.
#[derive(Clone, Copy, Debug)]
pub struct WriteContent<'a> {
    /// The command code.
    pub code: u8,
    /// The data after the code, without the count of a block and without a packet error code.
    pub bytes: &'a [u8],
    /// Whether a packet error code follows them.
    pub pec: bool,
}

/// What a first leg asks of a device.
#[derive(Clone, Copy, Debug)]
pub enum Asked<'a> {
    /// To be read by a command code.
    Read { code: u8 },
    /// To answer a command code and the data after it, without the count of a block.
    Call { code: u8, bytes: &'a [u8] },
}

/// What a device answered.
#[derive(Clone, Copy, Debug)]
pub struct ReplyContent<'a> {
    /// The data, without the count of a block and without a packet error code.
    pub bytes: &'a [u8],
    /// Whether a packet error code follows them.
    pub pec: bool,
}
