//! A whole recording, and its capture.
//!
//! Its rows: `tests/rows/recordings.txt`.

ghost use Rattle.std.specs.Prelude.{◌≡◌};
ghost use Rattle.pmb_import.specs.Importing.{importing_of};
ghost use Rattle.pmb_in_memory.specs.Put.{PutsUnder, put_of};
ghost use Rattle.pmb_in_memory.specs.Whole.{WorksUnder};
ghost use Rattle.pmb_recorder.specs.Recorded.{recorded_of};

use crate::buffer_id::BufferId;
use crate::fault::WholeFault;
use crate::put::{Put, put_of};
use crate::room::{Filled, Room};
use crate::rooms::Ended;
use crate::whole::ended;
use pmb_import::{Recorder, import_whole};
use pmb_io::{Sink, Tally};
use std::alloc::Global;
use std::marker::Brand;

/// Puts what `import` writes of a recording at the start of a room, as far as it fits; what stands after
/// it stays.
///
/// # Errors
///
/// `Memory` where there was none. The room stays as it was then.
pub fn put_import(
    alloc: Global,
    recorder: Recorder<'_>,
    recording: &[u8],
    room: &mut [u8],
) -> Result<Put, WholeFault>
    ensures { PutsUnder (importing_of (recorded_of recorder.entry)) recording.now room.old room.new result }
{
    let imported = put_import_at::<Brand>(alloc, recorder, recording, room);
    put_of(imported.length, imported.outcome)
}

/// Puts the capture of a recording into the room of a place.
fn put_import_at<'r, P: BufferId>(
    alloc: Global,
    recorder: Recorder<'_>,
    recording: &[u8],
    room: &'r mut [u8],
) -> Ended<'r>
    requires same { room.ghost_name ≡ P.name }
    requires before { room.old ≡ P.before }
    ensures same { result.room.ghost_name ≡ room.entry.ghost_name }
    ensures puts { PutsUnder (importing_of (recorded_of recorder.entry)) recording.now room.old result.room.now (put_of result.length result.outcome) }
{
    let mut writer: Room<'r, P> = Room::new(room);
    let outcome = write_import(alloc, recorder, recording, &mut writer);
    let Filled { room, count } = writer.into_filled();
    Ended {
        room,
        length: count,
        outcome,
    }
}

/// Writes what `import` writes of a recording, and returns its tally.
fn write_import<W: Sink>(
    alloc: Global,
    recorder: Recorder<'_>,
    recording: &[u8],
    out: &mut W,
) -> Result<Tally, WholeFault>
    ensures { WorksUnder W.told (importing_of (recorded_of recorder.entry)) recording.now out.old out.new result }
{
    ended(import_whole(alloc, recorder, recording, out))
}
