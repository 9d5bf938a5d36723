//! Why a line is not converted, and the name of that.
//!
//! Its rows: `tests/rows/numbers.txt`.

ghost use Rattle.std.specs.Prelude.{◌≡◌};
ghost use Rattle.pmb_convert.specs.Answer.{fault_name};

/// Why a line has no quantity or code.
#[derive(Clone, Copy, Debug, PartialEq, Eq)]
pub enum ConvertFault {
    /// It is over 256 bytes long.
    TooLong,
    /// Nothing stands where a quantity is to.
    Empty,
    /// The text is not a quantity's.
    BadDigit,
    /// The denominator of the quantity is 0.
    ZeroDenominator,
    /// The quantity is out of range of all quantities.
    TooLarge,
    /// The quantity is under the least value of the format.
    Below,
    /// The quantity is over the greatest value of the format.
    Above,
    /// The text is not four hexadecimal digits.
    BadCode,
    /// The code is an infinity of half precision, or no number.
    NotANumber,
    /// The VID table has no voltage for the code.
    NoCode,
    /// The code stands for an output that is off.
    Off,
}

impl ConvertFault {
    /// The fault's name, as it is written.
    pub(crate) fn name(self) -> &'static [u8]
        ensures { result.now ≡ fault_name self }
    {
        match self {
            ConvertFault::TooLong => b"TooLong",
            ConvertFault::Empty => b"Empty",
            ConvertFault::BadDigit => b"BadDigit",
            ConvertFault::ZeroDenominator => b"ZeroDenominator",
            ConvertFault::TooLarge => b"TooLarge",
            ConvertFault::Below => b"Below",
            ConvertFault::Above => b"Above",
            ConvertFault::BadCode => b"BadCode",
            ConvertFault::NotANumber => b"NotANumber",
            ConvertFault::NoCode => b"NoCode",
            ConvertFault::Off => b"Off",
        }
    }
}
