//! The status of a call, as the number that C gets.
ghost use Rattle.std.specs.Prelude.{◌≡◌};
ghost use Rattle.pmb_firmware.specs.CallStatus.{number_of};

use pmb_convert::FormatFault;
use pmb_value::{QuantityFault, RangeFault, WordFault};

/// The status of a call.
#[derive(Clone, Copy)]
pub enum CallStatus {
    /// All went well.
    Done,
    /// The quantity is outside the format's range.
    Range(RangeFault),
    /// The struct names no format.
    Format(FormatFault),
    /// The numbers or the text make no quantity.
    Quantity(QuantityFault),
    /// The standard has no such name.
    NoName,
    /// The text, and the NUL after it where it has one, don't fit into the caller's room.
    NoRoom,
    /// The profile has a fault.
    BadProfile,
    /// There was no memory.
    NoMemory,
    /// A field of a choice has a number that says nothing there.
    BadChoice,
    /// No word has ended in the text so far.
    NoEvent,
    /// A word of the text is no token.
    BadToken,
    /// The code has no value in its format.
    Word(WordFault),
    /// The handle is not open.
    Closed,
    /// The text has ended, or reading has: no more of it is taken.
    Ended,
    /// A transfer is under way: its last message was not sent.
    Busy,
    /// More digits are chosen than a number may have after its point.
    BadDigits,
    /// The address of a wanted device has more than seven bits.
    BadDevice,
    /// No recorder has this number.
    BadSource,
    /// So many samples a second are none that a recording may have.
    BadRate,
    /// What is said of the recording is for those of sigrok alone.
    SigrokOnly,
    /// A bus is named of a recording that has one without a name.
    NoBus,
}

impl CallStatus {
    /// The number that the header gives it.
    pub const fn number(self) -> i32
        ensures { result ≡ number_of self }
    {
        match self {
            CallStatus::Done => 0,
            CallStatus::Range(RangeFault::Below) => 1,
            CallStatus::Range(RangeFault::Above) => 2,
            CallStatus::Format(FormatFault::BadFormat) => 3,
            CallStatus::Format(FormatFault::BadExponent) => 4,
            CallStatus::Format(FormatFault::ZeroSlope) => 5,
            CallStatus::Format(FormatFault::BadScale) => 6,
            CallStatus::Format(FormatFault::Relative) => 7,
            CallStatus::Format(FormatFault::Vid) => 8,
            CallStatus::Format(FormatFault::Ieee) => 9,
            CallStatus::Format(FormatFault::NoCoefficients) => 10,
            CallStatus::Quantity(QuantityFault::Empty) => 11,
            CallStatus::Quantity(QuantityFault::BadDigit) => 12,
            CallStatus::Quantity(QuantityFault::ZeroDenominator) => 13,
            CallStatus::Quantity(QuantityFault::TooLarge) => 14,
            CallStatus::NoName => 15,
            CallStatus::NoRoom => 16,
            CallStatus::BadProfile => 17,
            CallStatus::NoMemory => 18,
            CallStatus::BadChoice => 19,
            CallStatus::NoEvent => 20,
            CallStatus::BadToken => 21,
            CallStatus::Word(WordFault::NotANumber) => 22,
            CallStatus::Word(WordFault::NoCode) => 23,
            CallStatus::Word(WordFault::Off) => 24,
            CallStatus::Closed => 25,
            CallStatus::Ended => 26,
            CallStatus::Busy => 27,
            CallStatus::BadDigits => 28,
            CallStatus::BadDevice => 29,
            CallStatus::BadSource => 30,
            CallStatus::BadRate => 31,
            CallStatus::SigrokOnly => 32,
            CallStatus::NoBus => 33,
        }
    }
}
