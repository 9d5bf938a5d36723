//! What is said of the faults of lines of `build` and `run`, and of results.

use crate::said::Said;
use pmb_host::HostFault;
use pmb_line::LineFault;
use pmb_quantity::QuantityFault;
use pmb_value::{ModeFault, RangeFault};
use pmb_writer::Invalid;

/// The page of transaction lines.
const LINES: &str = "docs/text.md#transaction-lines";

/// The page of requests and their results.
const RESULTS: &str = "docs/requests.md#results";

/// The page of quantities.
const TEXTS: &str = "docs/numbers.md#texts";

/// The page of VOUT_MODE.
const MODES: &str = "docs/numbers.md#vout_mode";

/// Of a line's fault.
pub(crate) fn of_line(fault: LineFault) -> Said {
    match fault {
        LineFault::Blank => Said {
            text: "The line has no word: it is empty, or a comment. build and run pass over it.",
            page: LINES,
        },
        LineFault::BadWord(_) => Said {
            text: "The word at this byte, counted from 0, can't stand there, or words are missing at the end:\n\
                   write 58 21 00 18, read 58 88 : 00 d3, and for run set 58 21 12. Addresses have 7 bits;\n\
                   addresses, codes and bytes are two hexadecimal digits without 0x.",
            page: LINES,
        },
        LineFault::TooLong(_) => Said {
            text: "There is no room for the word at this byte: a write has 16 parts, a block 255 bytes, and a line\n\
                   32768 bytes.",
            page: LINES,
        },
        LineFault::Invalid(invalid) => of_invalid(invalid),
    }
}

/// Of a transaction that has no packet.
fn of_invalid(invalid: Invalid) -> Said {
    Said {
        text: match invalid {
            Invalid::NoParts => "A write has no part.",
            Invalid::UnknownDevice => {
                "The profile has no device at this address. An address has 7 bits: 58, and not b0 or b1."
            }
            Invalid::AddressTwice => "A group addresses a device twice.",
            Invalid::UnknownCommand => {
                "The device has no command with this code: one of the manufacturer belongs into the profile."
            }
            Invalid::NotAllowed => {
                "The command isn't written, read or called so: READ_VIN can only be read."
            }
            Invalid::WrongLength => {
                "The command takes data of another length: VOUT_COMMAND takes two bytes, the low one first. A\n\
                 packet error code is the word pec, and the count of a block is left out."
            }
            Invalid::PecMode => {
                "pec stands in the line though the profile says pec = \"off\", or is missing where it says\n\
                 pec = \"on\"."
            }
        },
        page: LINES,
    }
}

/// Of a request that can't be made, or failed.
pub(crate) fn of_host(fault: HostFault) -> Said {
    match fault {
        HostFault::Invalid(invalid) => of_invalid(invalid),
        HostFault::NotAQuantity => Said {
            text: "The data of the command are no number, so that set and get can't have it: read and write do.",
            page: RESULTS,
        },
        HostFault::ModeUnknown => Said {
            text: "The number is in the format of VOUT_MODE, and that is not known: PAGE is ff and the pages have\n\
                   different ones, or there is no such page.",
            page: RESULTS,
        },
        HostFault::Mode(fault) => Said {
            text: match fault {
                ModeFault::Relative => {
                    "VOUT_MODE says that limits are factors of VOUT_COMMAND: set and get don't take those."
                }
                ModeFault::Vid => "VOUT_MODE says VID: set and get don't take voltages in it.",
                ModeFault::Ieee => {
                    "VOUT_MODE says IEEE half precision: set and get don't take voltages in it."
                }
                ModeFault::NoCoefficients => {
                    "VOUT_MODE says DIRECT, and the profile has no vout_direct."
                }
            },
            page: MODES,
        },
        HostFault::Range(fault) => Said {
            text: match fault {
                RangeFault::Below => {
                    "The quantity is below the least value of the command's format."
                }
                RangeFault::Above => {
                    "The quantity is above the greatest value of the command's format."
                }
            },
            page: RESULTS,
        },
        HostFault::Refused { .. } => Said {
            text: "A device did not acknowledge a byte. Legs count from 1, one for each START; byte 0 of a leg is\n\
                   the address, and byte 1 the command code. STATUS_CML, read 58 7e, says why.",
            page: RESULTS,
        },
        HostFault::NoByte => Said {
            text: "The device gave no byte where one was read.",
            page: RESULTS,
        },
        HostFault::BadPec => Said {
            text: "The packet error code of the reply is wrong.",
            page: RESULTS,
        },
    }
}

/// Of a text that spells no quantity.
pub(crate) fn of_quantity(fault: QuantityFault) -> Said {
    Said {
        text: match fault {
            QuantityFault::Empty => "A quantity is missing: 12, -0.5 or 1/3.",
            QuantityFault::BadDigit => {
                "The text is no quantity. A quantity is digits, with - before them, and with a point and digits or\n\
                 a slash and digits after them: 12, -0.5, 1/3. There are no units, blanks, + or powers of ten."
            }
            QuantityFault::ZeroDenominator => "The number after the slash is 0.",
            QuantityFault::TooLarge => {
                "The quantity has more than 24 digits after its point, or a number of 2^62 or more."
            }
        },
        page: TEXTS,
    }
}
