//! The names of commands, of status bits and of the statuses of calls.
ghost use Rattle.std.specs.Prelude.{◌≡◌, option_map};
ghost use Rattle.pmb_command.specs.Commands.{standard_entry};
ghost use Rattle.pmb_command.specs.StatusBits.{bit_text};
ghost use Rattle.pmb_firmware.specs.CallStatus.{named, status_name};
ghost use Rattle.pmb_firmware.specs.Room.{put_some, some_name};

use crate::call_status::CallStatus;
use crate::room::{put, put_none};
use pmb_command::standard;

/// Writes the name of a standard command (PMBus Part II Appendix I), as `READ_VIN` of 88h. It has 32
/// characters at most, and a NUL after it.
///
/// `length` is told how many characters the name has. The status is that the standard has no command
/// of this code, and then `length` is 0; or that name and NUL don't fit into the room. Then the room
/// stays as it was.
pub fn command_name(code: u8, text: &mut [u8], length: &mut usize) -> i32
    ensures { record { status = result; room = text.new; length = length.new }
        ≡ put_some (some_name (option_map (λ entry. entry.name) (standard_entry code))) text.old }
{
    match standard(code) {
        Some(entry) => put(entry.name.as_str().as_bytes(), text, length),
        None => put_none(CallStatus::NoName, length),
    }
}

/// Writes the name of a bit of a status command (PMBus Part II section 17), as `VOUT` of bit 15 of
/// STATUS_WORD, 79h. Bits are counted from 0 at the lowest. It has 17 characters at most, and a NUL
/// after it.
///
/// `length` is told how many characters the name has. The status is that the bit has no name, and
/// then `length` is 0; or that name and NUL don't fit into the room. Then the room stays as it was.
pub fn bit_name(code: u8, bit: u8, text: &mut [u8], length: &mut usize) -> i32
    ensures { record { status = result; room = text.new; length = length.new }
        ≡ put_some (some_name (bit_text code bit)) text.old }
{
    match pmb_command::bit_name(code, bit) {
        Some(name) => put(name.as_bytes(), text, length),
        None => put_none(CallStatus::NoName, length),
    }
}

/// The name that the header has for the status of a number, if it is one.
fn named(number: u32) -> Option<&'static str>
    ensures { option_map (λ s. s.now) result ≡ named number }
{
    match number {
        0 => Some("PMB_OK"),
        1 => Some("PMB_BELOW"),
        2 => Some("PMB_ABOVE"),
        3 => Some("PMB_BAD_FORMAT"),
        4 => Some("PMB_BAD_EXPONENT"),
        5 => Some("PMB_ZERO_SLOPE"),
        6 => Some("PMB_BAD_SCALE"),
        7 => Some("PMB_RELATIVE"),
        8 => Some("PMB_VID"),
        9 => Some("PMB_IEEE"),
        10 => Some("PMB_NO_COEFFICIENTS"),
        11 => Some("PMB_EMPTY"),
        12 => Some("PMB_BAD_DIGIT"),
        13 => Some("PMB_ZERO_DENOMINATOR"),
        14 => Some("PMB_TOO_LARGE"),
        15 => Some("PMB_NO_NAME"),
        16 => Some("PMB_NO_ROOM"),
        17 => Some("PMB_BAD_PROFILE"),
        18 => Some("PMB_NO_MEMORY"),
        19 => Some("PMB_BAD_CHOICE"),
        20 => Some("PMB_NO_EVENT"),
        21 => Some("PMB_BAD_TOKEN"),
        22 => Some("PMB_NOT_A_NUMBER"),
        23 => Some("PMB_NO_CODE"),
        24 => Some("PMB_OFF"),
        25 => Some("PMB_CLOSED"),
        26 => Some("PMB_ENDED"),
        27 => Some("PMB_BUSY"),
        28 => Some("PMB_BAD_DIGITS"),
        29 => Some("PMB_BAD_DEVICE"),
        30 => Some("PMB_BAD_SOURCE"),
        31 => Some("PMB_BAD_RATE"),
        32 => Some("PMB_SIGROK_ONLY"),
        33 => Some("PMB_NO_BUS"),
        _ => None,
    }
}

/// Writes the name that the header has for a status, as `PMB_BAD_FORMAT` of 3. It has 20 characters
/// at most, and a NUL after it.
///
/// `length` is told how many characters the name has. The status is that the number is none of a
/// status, and then `length` is 0; or that name and NUL don't fit into the room. Then the room stays
/// as it was.
pub fn status_name(status: i32, text: &mut [u8], length: &mut usize) -> i32
    ensures { record { status = result; room = text.new; length = length.new }
        ≡ put_some (some_name (status_name status)) text.old }
{
    if status < 0 {
        return put_none(CallStatus::NoName, length);
    }
    match named(status as u32) {
        Some(name) => put(name.as_bytes(), text, length),
        None => put_none(CallStatus::NoName, length),
    }
}

/// Writes a name, if there is one, and a NUL.
///
/// `length` is told how many characters it has. The status is that there is none, and then `length` is
/// 0; or that name and NUL don't fit into the room. Then the room stays as it was.
pub fn put_name(name: Option<&[u8]>, text: &mut [u8], length: &mut usize) -> i32
    ensures { record { status = result; room = text.new; length = length.new }
        ≡ put_some (some_name (option_map (λ n. n.now) name.entry)) text.old }
{
    match name {
        Some(name) => put(name, text, length),
        None => put_none(CallStatus::NoName, length),
    }
}
