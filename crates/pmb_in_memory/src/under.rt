//! A whole input worked on under a profile that was read before, and the text put into a room.
//!
//! Its rows: `.ci/handles.c`, which compares them with those of `tests/rows`.

ghost use Rattle.std.specs.Prelude.{◌≡◌};
ghost use Rattle.pmb_in_memory.specs.Put.{PutsUnder, put_of};
ghost use Rattle.pmb_in_memory.specs.Json.{telling};
ghost use Rattle.pmb_in_memory.specs.MemoryTask.{working};

use crate::buffer_id::BufferId;
use crate::fault::WholeFault;
use crate::json_choice::JsonChoice;
use crate::memory_task::MemoryTask;
use crate::put::{Put, put_of};
use crate::room::{Filled, Room};
use crate::rooms::Ended;
use crate::whole::{ended, json_under, work_under};
use pmb_table::BusProfile;
use std::alloc::Global;
use std::marker::Brand;

/// Puts what the work's subcommand writes of an input under a profile at the start of a room, as
/// [`put_whole`](crate::put_whole) does.
///
/// # Errors
///
/// `Memory` where there was none. The room stays as it was then.
pub fn put_whole_under(
    work: MemoryTask,
    alloc: Global,
    bus: &BusProfile,
    input: &[u8],
    room: &mut [u8],
) -> Result<Put, WholeFault>
    ensures { PutsUnder (working work bus.now) input.now room.old room.new result }
{
    let ended = put_whole_under_at::<Brand>(work, alloc, bus, input, room);
    put_of(ended.length, ended.outcome)
}

/// Puts the objects of a capture under a profile at the start of a room, as
/// [`put_json`](crate::put_json) does.
///
/// # Errors
///
/// `Memory` where there was none. The room stays as it was then.
pub fn put_json_under(
    choice: JsonChoice,
    devices: &[u8],
    alloc: Global,
    bus: &BusProfile,
    capture: &[u8],
    room: &mut [u8],
) -> Result<Put, WholeFault>
    ensures { PutsUnder (telling choice devices.now bus.now) capture.now room.old room.new result }
{
    let ended = put_json_under_at::<Brand>(choice, devices, alloc, bus, capture, room);
    put_of(ended.length, ended.outcome)
}

/// Puts the text of a work into the room of a place.
fn put_whole_under_at<'r, P: BufferId>(
    work: MemoryTask,
    alloc: Global,
    bus: &BusProfile,
    input: &[u8],
    room: &'r mut [u8],
) -> Ended<'r>
    requires same { room.ghost_name ≡ P.name }
    requires before { room.old ≡ P.before }
    ensures same { result.room.ghost_name ≡ room.entry.ghost_name }
    ensures puts { PutsUnder (working work bus.now) input.now room.old result.room.now (put_of result.length result.outcome) }
{
    let mut writer: Room<'r, P> = Room::new(room);
    let outcome = ended(work_under(work, alloc, bus, input, &mut writer));
    let Filled { room, count } = writer.into_filled();
    Ended {
        room,
        length: count,
        outcome,
    }
}

/// Puts the objects of a capture into the room of a place.
fn put_json_under_at<'r, P: BufferId>(
    choice: JsonChoice,
    devices: &[u8],
    alloc: Global,
    bus: &BusProfile,
    capture: &[u8],
    room: &'r mut [u8],
) -> Ended<'r>
    requires same { room.ghost_name ≡ P.name }
    requires before { room.old ≡ P.before }
    ensures same { result.room.ghost_name ≡ room.entry.ghost_name }
    ensures puts { PutsUnder (telling choice devices.now bus.now) capture.now room.old result.room.now (put_of result.length result.outcome) }
{
    let mut writer: Room<'r, P> = Room::new(room);
    let outcome = ended(json_under(choice, devices, alloc, bus, capture, &mut writer));
    let Filled { room, count } = writer.into_filled();
    Ended {
        room,
        length: count,
        outcome,
    }
}
