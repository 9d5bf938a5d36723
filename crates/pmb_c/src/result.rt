//! What is told of a whole input.
//!
//! Its rows: `tests/rows/captures.txt`, `lines.txt`, `requests.txt`, `json_objects.txt`.

ghost use Rattle.std.specs.Prelude.{◌≡◌, ℤ, negsuc, pos};
ghost use Rattle.pmb_c.specs.Result.{capped_u32, fault_number, place_of, result_at, result_of, result_of_fault, result_of_put, result_of_status};

use pmb_firmware::CallStatus;
use pmb_hints::Place;
use pmb_in_memory::{Put, WholeFault};
use pmb_table::{FaultKind, ProfileFault};

/// The result of a call over a whole input.
#[repr(C)]
#[derive(Clone, Copy)]
pub struct PmbResult {
    /// The status of the call.
    pub status: i32,
    /// What is wrong with the profile, from 1 on; 0 where nothing is.
    pub fault: i32,
    /// In which device that is, counted from 0; -1 where it is in none.
    pub device: i32,
    /// In which command of that device, counted from 0; -1 where it is in none.
    pub command: i32,
    /// How many bytes the text has, also where they don't fit.
    pub length: usize,
    /// How many packets there were.
    pub packets: u64,
    /// How many refusals there were.
    pub refusals: u64,
    /// The line of the profile's fault, counted from 1; 0 where no place in its text is told.
    pub line: u32,
    /// The column in that line, in bytes counted from 1; 0 where no place is told.
    pub column: u32,
}

impl PmbResult {
    /// What is told where the room has so many bytes.
    pub(crate) fn of(outcome: Result<Put, WholeFault>, room: usize) -> PmbResult
        ensures { result ≡ result_of room outcome }
    {
        match outcome {
            Ok(put) => PmbResult::of_put(put, room),
            Err(WholeFault::Profile(fault)) => PmbResult::of_fault(fault, 0),
            Err(WholeFault::Memory | WholeFault::Write) => PmbResult::of_status(
                CallStatus::NoMemory,
            ),
        }
    }

    /// Nothing was written, for this reason.
    pub(crate) fn of_status(status: CallStatus) -> PmbResult
        ensures { result ≡ result_of_status status }
    {
        PmbResult {
            status: status.number(),
            fault: 0,
            device: -1,
            command: -1,
            length: 0,
            packets: 0,
            refusals: 0,
            line: 0,
            column: 0,
        }
    }

    /// A text was written, as far as it fits.
    pub(crate) fn of_put(put: Put, room: usize) -> PmbResult
        ensures { result ≡ result_of_put room put }
    {
        let status = if put.length > room {
            CallStatus::NoRoom
        } else {
            CallStatus::Done
        };
        PmbResult {
            status: status.number(),
            fault: 0,
            device: -1,
            command: -1,
            length: put.length,
            packets: put.tally.packets,
            refusals: put.tally.refusals,
            line: 0,
            column: 0,
        }
    }

    /// The profile has a fault, of which a text of so many bytes is written.
    pub(crate) fn of_fault(fault: ProfileFault, length: usize) -> PmbResult
        ensures { result ≡ result_of_fault fault length }
    {
        PmbResult {
            status: CallStatus::BadProfile.number(),
            fault: number_of(fault.what),
            device: device_of(fault.device),
            command: command_of(fault.command),
            length,
            packets: 0,
            refusals: 0,
            line: 0,
            column: 0,
        }
    }

    /// The same, with the place of the fault in the profile's text.
    pub(crate) fn at(self, place: Option<Place>) -> PmbResult
        ensures { result ≡ result_at place self }
    {
        let mut told = self;
        if let Some(place) = place {
            told.line = as_u32(place.line);
            told.column = as_u32(place.column);
        }
        told
    }
}

/// A number, or the greatest `u32` where it is greater.
fn as_u32(number: u64) -> u32
    ensures { result ≡ capped_u32 number }
{
    if number < 4294967296 {
        number as u32
    } else {
        4294967295
    }
}

/// The place of a device, or -1.
fn device_of(device: Option<u8>) -> i32
    ensures { result ≡ place_of device }
{
    match device {
        Some(device) => device as i32,
        None => -1,
    }
}

/// The place of a command, or -1.
fn command_of(command: Option<u16>) -> i32
    ensures { result ≡ place_of command }
{
    match command {
        Some(command) => command as i32,
        None => -1,
    }
}

/// The number that the header gives a fault.
fn number_of(what: FaultKind) -> i32
    ensures { result ≡ fault_number what }
{
    match what {
        FaultKind::NotToml => 1,
        FaultKind::UnknownKey => 2,
        FaultKind::MissingKey => 3,
        FaultKind::WrongType => 4,
        FaultKind::TooManyDevices => 5,
        FaultKind::BadAddress => 6,
        FaultKind::AddressTwice => 7,
        FaultKind::BadValue => 8,
        FaultKind::BadPages => 9,
        FaultKind::UnknownName => 10,
        FaultKind::BadName => 11,
        FaultKind::BadForm => 12,
        FaultKind::BadCoefficients => 13,
        FaultKind::CodeTwice => 14,
        FaultKind::BadInitial => 15,
        FaultKind::OutOfMemory => 16,
    }
}
