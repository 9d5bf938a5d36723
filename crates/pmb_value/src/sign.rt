//! The sign of an output voltage.

/// Whether the words of an output voltage are signed: in the linear formats of VOUT_MODE (PMBus Part II
/// 1.3 section 8.4.1), and in DIRECT where the coefficients count words without a sign.
#[derive(Clone, Copy, Debug, PartialEq, Eq)]
pub enum Sign {
    Unsigned,
    Signed,
}
