//! What is said of the faults of FORMAT and of lines of `encode` and `decode`.

use crate::said::Said;
use crate::said_of_lines::of_quantity;
use pmb_convert::{ConvertFault, FormatFault};
use pmb_quantity::QuantityFault;

/// The page of `encode` and `decode`.
const PAGE: &str = "docs/program.md#what-pmb-encode-format-and-pmb-decode-format-write";

/// The page of words that have no value.
const VALUELESS: &str = "docs/numbers.md#words-without-a-value";

/// The page of VOUT_MODE.
const MODES: &str = "docs/numbers.md#vout_mode";

/// Of a line of numbers.
pub(crate) fn of_number(fault: ConvertFault) -> Said {
    match fault {
        ConvertFault::TooLong => Said {
            text: "The line has more than 256 bytes.",
            page: PAGE,
        },
        ConvertFault::Empty => of_quantity(QuantityFault::Empty),
        ConvertFault::BadDigit => of_quantity(QuantityFault::BadDigit),
        ConvertFault::ZeroDenominator => of_quantity(QuantityFault::ZeroDenominator),
        ConvertFault::TooLarge => of_quantity(QuantityFault::TooLarge),
        ConvertFault::Below => Said {
            text: "The quantity is below the least value of the format.",
            page: PAGE,
        },
        ConvertFault::Above => Said {
            text: "The quantity is above the greatest value of the format.",
            page: PAGE,
        },
        ConvertFault::BadCode => Said {
            text: "A code is four hexadecimal digits without 0x, its high byte first: d300 for the bytes 00 d3.",
            page: PAGE,
        },
        ConvertFault::NotANumber => Said {
            text: "In half precision the code is an infinity, or no number.",
            page: VALUELESS,
        },
        ConvertFault::NoCode => Said {
            text: "The VID table has no voltage for the code.",
            page: VALUELESS,
        },
        ConvertFault::Off => Said {
            text: "In the VID table the code stands for an output that is off.",
            page: VALUELESS,
        },
    }
}

/// Of a FORMAT.
pub(crate) fn of_format(fault: FormatFault) -> Said {
    match fault {
        FormatFault::BadFormat => Said {
            text: "FORMAT is linear11, linear11:E, ulinear16:E, slinear16:E, vout:HH, half, direct:M,B,R,\n\
                   udirect:M,B,R or vid:TABLE. E is the exponent, HH is VOUT_MODE in two hexadecimal digits, and\n\
                   M, B, R are the coefficients of DIRECT, without blanks.",
            page: PAGE,
        },
        FormatFault::BadExponent => Said {
            text: "An exponent is from -16 to 15.",
            page: PAGE,
        },
        FormatFault::ZeroSlope => Said {
            text: "M of DIRECT is 0: X = (Y * 10^-R - B) / M.",
            page: PAGE,
        },
        FormatFault::BadScale => Said {
            text: "R of DIRECT is from -9 to 9.",
            page: PAGE,
        },
        FormatFault::Relative => Said {
            text: "Bit 7 of VOUT_MODE says that limits are factors of VOUT_COMMAND.",
            page: MODES,
        },
        FormatFault::Vid => Said {
            text: "VOUT_MODE says VID, but not which table: FORMAT vid:TABLE does.",
            page: MODES,
        },
        FormatFault::Ieee => Said {
            text: "VOUT_MODE says IEEE half precision: FORMAT half.",
            page: MODES,
        },
        FormatFault::NoCoefficients => Said {
            text: "VOUT_MODE says DIRECT, whose coefficients the data sheet has: FORMAT direct:M,B,R.",
            page: MODES,
        },
    }
}
