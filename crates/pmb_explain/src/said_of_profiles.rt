//! What is said of mistakes in a profile.

use crate::said::Said;
use pmb_keys::FaultKind;

/// The page of mistakes in a profile.
const PAGE: &str = "docs/mistakes.md#names-of-mistakes";

/// Of a mistake in a profile. `pmb profile` says more, with its place in the text.
pub(crate) fn of_profile(what: FaultKind) -> Said {
    Said {
        text: text_of(what),
        page: PAGE,
    }
}

fn text_of(what: FaultKind) -> &'static str {
    match what {
        FaultKind::NotToml => {
            "The profile is no TOML. -p names a file that has it: pmb log -p board.toml capture.txt.\n\
             Without -p and --sample the input begins with a profile, then comes a line %%, and then the\n\
             capture or the lines; the last line of that profile needs its LF, or else %% is a part of it."
        }
        FaultKind::UnknownKey => {
            "A table has a key that it can't have, or a key that goes with another kind."
        }
        FaultKind::MissingKey => {
            "A key is missing: device, address, pec, code or name of a command, a coefficient or an exponent.\n\
             An input without any text is a profile without devices: is the file there?"
        }
        FaultKind::WrongType => {
            "A value has another type than its key needs: address = 0x58 is a number, pec = \"on\" a text."
        }
        FaultKind::TooManyDevices => "A profile has at most 64 devices.",
        FaultKind::BadAddress => {
            "An address has 7 bits, from 0x08 to 0x77, but not 0x0c: 0x58, and not the bytes b0 and b1 that\n\
             follow START."
        }
        FaultKind::AddressTwice => {
            "Two devices of the profile have the same address: is one of them decimal? 58 is 0x3a."
        }
        FaultKind::BadValue => {
            "A value is out of range, or a word that its key doesn't know: pec is \"off\", \"on\" or \"optional\"."
        }
        FaultKind::BadPages => "A device has 1 to 32 pages.",
        FaultKind::UnknownName => {
            "A command without code is named as the standard has it, such as READ_VIN; one of the\n\
             manufacturer needs its code."
        }
        FaultKind::BadName => {
            "A name of a command or a bit is 1 to 32 of A to Z, 0 to 9 and _; that of a device 1 to 32\n\
             characters of ASCII."
        }
        FaultKind::BadForm => {
            "The forms of a command don't go together: write, read and call have none, one, two, four, eight\n\
             or block, and a number has two bytes."
        }
        FaultKind::BadCoefficients => {
            "The coefficients of DIRECT are m and b from -32768 to 32767, m not 0, and r from -9 to 9."
        }
        FaultKind::CodeTwice => "Two commands of a device have the same code.",
        FaultKind::BadInitial => {
            "initial is two hexadecimal digits for each byte of the command's form, in the order on the wire,\n\
             or an array with such a text for each page."
        }
        FaultKind::OutOfMemory => "There was no memory for the profile.",
    }
}
