//! Why a text names no number format.
//!
//! Its rows: `tests/rows/numbers.txt`.

use thiserror::Error;

/// Why a text names no number format, in the order in which the faults are looked for. The text of
/// each is its name.
#[derive(Clone, Copy, Debug, PartialEq, Eq, Error)]
pub enum FormatFault {
    /// The text is no format's, or a number in it is out of its range.
    #[error("BadFormat")]
    BadFormat,
    /// The exponent of a linear format is not from -16 to 15.
    #[error("BadExponent")]
    BadExponent,
    /// The slope of a DIRECT format is 0.
    #[error("ZeroSlope")]
    ZeroSlope,
    /// The power of ten of a DIRECT format is not from -9 to 9.
    #[error("BadScale")]
    BadScale,
    /// Values under this VOUT_MODE are relative to VOUT_COMMAND.
    #[error("Relative")]
    Relative,
    /// Values under this VOUT_MODE are VID codes.
    #[error("Vid")]
    Vid,
    /// Values under this VOUT_MODE are IEEE half precision numbers.
    #[error("Ieee")]
    Ieee,
    /// Values under this VOUT_MODE are DIRECT, and there are no coefficients.
    #[error("NoCoefficients")]
    NoCoefficients,
}
