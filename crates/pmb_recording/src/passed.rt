/// Lines of which kind are passed over, because of their name.
#[derive(Clone, Copy, Debug, PartialEq, Eq)]
pub enum Kind {
    /// Events of messages.
    I2c,
    /// Events of SMBus transfers.
    Smbus,
}
