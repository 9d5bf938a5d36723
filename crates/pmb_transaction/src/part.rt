use arrayvec::ArrayVec;

/// What is written to one device: START, its address, a command code, data and STOP, or the START
/// of the next part of a group (PMBus Part I 1.3 section 5.2.3).
#[derive(Clone, Debug, Default, Drop, PartialEq, Eq)]
pub struct Part {
    /// The device's address, of seven bits.
    pub addr: u8,
    /// The command code.
    pub code: u8,
    /// The data after the code, without count and packet error code.
    pub bytes: ArrayVec<u8, 255>,
    /// Whether a packet error code follows them.
    pub pec: bool,
}
