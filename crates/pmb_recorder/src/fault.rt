/// Why no recording is read so.
#[derive(Clone, Copy, Debug, PartialEq, Eq)]
pub enum RecorderFault {
    /// The rate is not from 1 to 18,446,744,073 samples in a second.
    BadRate,
    /// A rate, or whole bytes as addresses, for another source than sigrok.
    SigrokOnly,
    /// A bus for a Beagle's recording, which has one bus without a name.
    NoBus,
}
