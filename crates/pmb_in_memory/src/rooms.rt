//! A whole input worked on, and the text put into a room.
//!
//! Its rows: `tests_tasks`, `src/whole.rt`; `tests/rows/captures.txt`, `lines.txt`,
//! `requests.txt`, `json_objects.txt`.

ghost use Rattle.std.specs.Prelude.{◌≡◌};
ghost use Rattle.pmb_in_memory.specs.Put.{Puts, put_of};
ghost use Rattle.pmb_in_memory.specs.Json.{telling};
ghost use Rattle.pmb_in_memory.specs.MemoryTask.{working};

use crate::buffer_id::BufferId;
use crate::fault::WholeFault;
use crate::json_choice::JsonChoice;
use crate::memory_task::MemoryTask;
use crate::put::{Put, put_of};
use crate::room::{Filled, Room};
use crate::whole::{write_json, write_whole};
use pmb_io::Tally;
use std::alloc::Global;
use std::marker::Brand;

/// Puts what the work's subcommand writes of an input under a profile at the start of a room, as
/// far as it fits; what stands after it stays.
///
/// # Errors
///
/// `Profile` where the profile's text has a fault. `Memory` where there was none. The room stays as
/// it was then.
pub fn put_whole(
    work: MemoryTask,
    alloc: Global,
    profile: &[u8],
    input: &[u8],
    room: &mut [u8],
) -> Result<Put, WholeFault>
    ensures { Puts (working work) profile.now input.now room.old room.new result }
{
    let ended = put_whole_at::<Brand>(work, alloc, profile, input, room);
    put_of(ended.length, ended.outcome)
}

/// Puts the objects of a capture under a profile, each as a line of JSON, at the start of a room,
/// as far as they fit; what stands after them stays. Those of devices at these addresses are wanted,
/// of seven bits each, and of all devices where there is none.
///
/// # Errors
///
/// `Profile` where the profile's text has a fault. `Memory` where there was none. The room stays as
/// it was then.
pub fn put_json(
    choice: JsonChoice,
    devices: &[u8],
    alloc: Global,
    profile: &[u8],
    capture: &[u8],
    room: &mut [u8],
) -> Result<Put, WholeFault>
    ensures { Puts (telling choice devices.now) profile.now capture.now room.old room.new result }
{
    let ended = put_json_at::<Brand>(choice, devices, alloc, profile, capture, room);
    put_of(ended.length, ended.outcome)
}

/// The room again, how long the text is, and how the work ended.
#[derive(Drop)]
pub(crate) struct Ended<'r> {
    pub(crate) room: &'r mut [u8],
    pub(crate) length: usize,
    pub(crate) outcome: Result<Tally, WholeFault>,
}

/// Puts the text of a work into the room of a place.
fn put_whole_at<'r, P: BufferId>(
    work: MemoryTask,
    alloc: Global,
    profile: &[u8],
    input: &[u8],
    room: &'r mut [u8],
) -> Ended<'r>
    requires same { room.ghost_name ≡ P.name }
    requires before { room.old ≡ P.before }
    ensures same { result.room.ghost_name ≡ room.entry.ghost_name }
    ensures puts { Puts (working work) profile.now input.now room.old result.room.now (put_of result.length result.outcome) }
{
    let mut writer: Room<'r, P> = Room::new(room);
    let outcome = write_whole(work, alloc, profile, input, &mut writer);
    let Filled { room, count } = writer.into_filled();
    Ended {
        room,
        length: count,
        outcome,
    }
}

/// Puts the objects of a capture into the room of a place.
fn put_json_at<'r, P: BufferId>(
    choice: JsonChoice,
    devices: &[u8],
    alloc: Global,
    profile: &[u8],
    capture: &[u8],
    room: &'r mut [u8],
) -> Ended<'r>
    requires same { room.ghost_name ≡ P.name }
    requires before { room.old ≡ P.before }
    ensures same { result.room.ghost_name ≡ room.entry.ghost_name }
    ensures puts { Puts (telling choice devices.now) profile.now capture.now room.old result.room.now (put_of result.length result.outcome) }
{
    let mut writer: Room<'r, P> = Room::new(room);
    let outcome = write_json(choice, devices, alloc, profile, capture, &mut writer);
    let Filled { room, count } = writer.into_filled();
    Ended {
        room,
        length: count,
        outcome,
    }
}
