/// What wrote a recording.
#[derive(Clone, Copy, Debug, PartialEq, Eq)]
pub enum Source {
    /// sigrok's I2C decoder: its text.
    Sigrok,
    /// Saleae's Logic 2: the table of an I2C analyzer.
    Saleae,
    /// Total Phase's Data Center: its CSV of transactions.
    Beagle,
    /// The Linux kernel: its events of `i2c`.
    Kernel,
    /// The Linux kernel: its events of `smbus`.
    Smbus,
}
