//! `show`, `check`, `build`, `run` and `json` over whole inputs. What is written is what the
//! subcommand of `pmb` of that name writes, by the same functions.
//!
//! A profile takes memory, and with `pmb_run` its devices do. What is written goes to the caller's
//! room. Each call returns how many bytes the text has, also where they don't fit: then those that
//! do stand in the room. What stands in the room after the text stays, and all does where the
//! status is neither that all went well nor that there was no room.
//!
//! Its rows: `tests/rows/captures.txt`, `lines.txt`, `requests.txt`, `json_objects.txt`.

ghost use Rattle.std.specs.Prelude.{◌≡◌};
ghost use Rattle.pmb_c.specs.Choice.{chosen};
ghost use Rattle.pmb_c.specs.Whole.{Answers, AnswersJson};
ghost use Rattle.pmb_in_memory.specs.MemoryTask.{working};
ghost use Rattle.pmb_in_memory.specs.declared.memory_task.MemoryTask.TheVariants as works;

use crate::choice::PmbChoice;
use crate::result::PmbResult;
use pmb_in_memory::{MemoryTask, put_json, put_whole};
use std::alloc::Global;

/// Writes a line for each packet and each refusal of a capture, as `pmb show` does.
#[unsafe(no_mangle)]
pub extern "C" fn pmb_show(
    alloc: Global,
    profile: &[u8],
    capture: &[u8],
    room: &mut [u8],
    told: &mut PmbResult,
) -> usize
    ensures wrote { Answers (working works.Show) profile.now capture.now room.old room.new told.new }
    ensures length { result ≡ told.new.length }
{
    *told = answer(MemoryTask::Show, alloc, profile, capture, room);
    told.length
}

/// Writes a line for each refusal of a capture, and one with the numbers of packets and refusals,
/// as
/// `pmb check` does.
#[unsafe(no_mangle)]
pub extern "C" fn pmb_check(
    alloc: Global,
    profile: &[u8],
    capture: &[u8],
    room: &mut [u8],
    told: &mut PmbResult,
) -> usize
    ensures wrote { Answers (working works.Check) profile.now capture.now room.old room.new told.new }
    ensures length { result ≡ told.new.length }
{
    *told = answer(MemoryTask::Check, alloc, profile, capture, room);
    told.length
}

/// Writes the packet of each transaction line, or its fault, as `pmb build` does.
#[unsafe(no_mangle)]
pub extern "C" fn pmb_build(
    alloc: Global,
    profile: &[u8],
    lines: &[u8],
    room: &mut [u8],
    told: &mut PmbResult,
) -> usize
    ensures wrote { Answers (working works.Build) profile.now lines.now room.old room.new told.new }
    ensures length { result ≡ told.new.length }
{
    *told = answer(MemoryTask::Build, alloc, profile, lines, room);
    told.length
}

/// Runs request lines against simulated devices, and writes what is recorded of them and their
/// results, as `pmb run` does.
#[unsafe(no_mangle)]
pub extern "C" fn pmb_run(
    alloc: Global,
    profile: &[u8],
    requests: &[u8],
    room: &mut [u8],
    told: &mut PmbResult,
) -> usize
    ensures wrote { Answers (working works.Run) profile.now requests.now room.old room.new told.new }
    ensures length { result ≡ told.new.length }
{
    *told = answer(MemoryTask::Run, alloc, profile, requests, room);
    told.length
}

/// Writes the objects of a capture, each as a line of JSON, as `pmb json` does. Those of devices at
/// these addresses, of seven bits each, are wanted, and of all devices where there is none.
#[unsafe(no_mangle)]
pub extern "C" fn pmb_json(
    alloc: Global,
    profile: &[u8],
    capture: &[u8],
    choice: &PmbChoice,
    devices: &[u8],
    room: &mut [u8],
    told: &mut PmbResult,
) -> usize
    ensures wrote { AnswersJson (chosen choice.now devices.now) devices.now profile.now capture.now room.old room.new told.new }
    ensures length { result ≡ told.new.length }
{
    match choice.chosen(devices) {
        Ok(choice) => {
            let size = room.len();
            let outcome = put_json(choice, devices, alloc, profile, capture, room);
            *told = PmbResult::of(outcome, size);
        }
        Err(why) => *told = PmbResult::of_status(why),
    }
    told.length
}

/// Does a task on an input, and reports its result.
fn answer(
    work: MemoryTask,
    alloc: Global,
    profile: &[u8],
    input: &[u8],
    room: &mut [u8],
) -> PmbResult
    ensures { Answers (working work) profile.now input.now room.old room.new result }
{
    let size = room.len();
    PmbResult::of(put_whole(work, alloc, profile, input, room), size)
}
