//! `import` over a whole recording. What is written is what `pmb import` writes, by the same function.
//!
//! Its rows: `tests/rows/recordings.txt`.

ghost use Rattle.std.specs.Prelude.{◌≡◌};
ghost use Rattle.pmb_c.specs.Recorder.{ImportsInto};

use crate::recorder::PmbRecorder;
use crate::result::PmbResult;
use pmb_in_memory::put_import;
use std::alloc::Global;

/// Writes the capture of a recording, as `pmb import` does.
#[unsafe(no_mangle)]
pub extern "C" fn pmb_import(
    alloc: Global,
    recorder: &PmbRecorder,
    bus: &[u8],
    recording: &[u8],
    room: &mut [u8],
    told: &mut PmbResult,
) -> usize
    ensures wrote { ImportsInto recorder.now bus.now recording.now room.old room.new told.new }
    ensures length { result ≡ told.new.length }
{
    *told = imported(alloc, recorder, bus, recording, room);
    told.length
}

/// Puts the capture of a recording into the room, and returns what is told of it.
fn imported(
    alloc: Global,
    recorder: &PmbRecorder,
    bus: &[u8],
    recording: &[u8],
    room: &mut [u8],
) -> PmbResult
    ensures { ImportsInto recorder.now bus.now recording.now room.old room.new result }
{
    match recorder.recorder(bus) {
        Ok(recorder) => {
            let size = room.len();
            PmbResult::of(put_import(alloc, recorder, recording, room), size)
        }
        Err(why) => PmbResult::of_status(why),
    }
}
