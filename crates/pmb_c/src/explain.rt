//! Hints for mistakes in a profile, in the caller's buffer.

ghost use Rattle.std.specs.Prelude.{◌≡◌};
ghost use Rattle.pmb_c.specs.Explain.{Explains, IsLaid, TellsFault};

use crate::result::PmbResult;
use pmb_firmware::CallStatus;
use pmb_hints::explanation;
use pmb_in_memory::{BufferId, Filled, Room, WholeFault, read_profile};
use pmb_io::Sink;
use pmb_table::ProfileFault;
use std::alloc::Global;
use std::marker::Brand;

/// Writes what `pmb profile` reports of a profile that has a fault: the fault with its place, and
/// lines that help. Where it has none nothing is written.
#[unsafe(no_mangle)]
pub extern "C" fn pmb_profile_fault(
    alloc: Global,
    profile: &[u8],
    room: &mut [u8],
    told: &mut PmbResult,
) -> usize
    ensures wrote { Explains profile.now room.old room.new told.new }
    ensures length { result ≡ told.new.length }
{
    *told = match read_profile(alloc, profile) {
        Ok(_) => PmbResult::of_status(CallStatus::Done),
        Err(WholeFault::Profile(fault)) => explained(alloc, profile, fault, room),
        Err(WholeFault::Memory | WholeFault::Write) => PmbResult::of_status(CallStatus::NoMemory),
    };
    told.length
}

/// Puts the lines on a fault into the room as far as they fit, and returns what is told of it.
fn explained(alloc: Global, profile: &[u8], fault: ProfileFault, room: &mut [u8]) -> PmbResult
    ensures { TellsFault profile.now fault room.old room.new result }
{
    let report = explanation(alloc, profile, fault);
    let count = put_lines(report.text.as_str().as_bytes(), room);
    PmbResult::of_fault(fault, count).at(report.place)
}

/// Puts lines into the room as far as they fit, and returns how many bytes they have.
fn put_lines(lines: &[u8], room: &mut [u8]) -> usize
    ensures { IsLaid lines.now room.old room.new result }
{
    put_lines_at::<Brand>(lines, room).count
}

/// Puts the lines into the room of a place.
fn put_lines_at<'r, P: BufferId>(lines: &[u8], room: &'r mut [u8]) -> Filled<'r>
    requires same { room.ghost_name ≡ P.name }
    requires before { room.old ≡ P.before }
    ensures same { result.room.ghost_name ≡ room.entry.ghost_name }
    ensures laid { IsLaid lines.now room.old result.room.now result.count }
{
    let mut writer: Room<'r, P> = Room::new(room);
    let _ = writer.write_all(lines);
    writer.into_filled()
}
