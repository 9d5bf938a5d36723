//! Profiles that are read once, and what the subcommands do under them.
//!
//! Their rows: `.ci/handles.c`, beside those of `tests/rows`.

ghost use Rattle.std.specs.Arc.{arc_value};
ghost use Rattle.std.specs.Prelude.{◌≡◌, IfSome, None, Some};
ghost use Rattle.pmb_c.specs.Choice.{chosen};
ghost use Rattle.pmb_c.specs.Handle.{AnswersJsonUnder, AnswersUnder, Lends, Opens, Returns, Shares, profile_in, profile_of};
ghost use Rattle.pmb_in_memory.specs.MemoryTask.{working};
ghost use Rattle.pmb_in_memory.specs.declared.memory_task.MemoryTask.TheVariants as works;

use crate::choice::PmbChoice;
use crate::handle::PmbHandle;
use crate::held::Held;
use crate::result::PmbResult;
use pmb_firmware::CallStatus;
use pmb_in_memory::{MemoryTask, WholeFault, put_json_under, put_whole_under, read_profile};
use pmb_table::BusProfile;
use std::alloc::Global;
use std::sync::Arc;

/// Reads a profile, and holds it. What the handle held before is closed first.
#[unsafe(no_mangle)]
pub extern "C" fn pmb_profile_open(
    alloc: Global,
    handle: &mut PmbHandle,
    text: &[u8],
    told: &mut PmbResult,
) -> i32
    ensures opens { Opens text.now handle.new.held told.new }
    ensures status { result ≡ told.new.status }
{
    *handle = PmbHandle::closed(alloc);
    *told = opened(alloc, handle, text);
    told.status
}

/// Has another handle hold the same profile. What that one held before is closed first.
#[unsafe(no_mangle)]
pub extern "C" fn pmb_profile_share(
    alloc: Global,
    handle: &mut PmbHandle,
    other: &mut PmbHandle,
) -> i32
    ensures held { handle.new.held ≡ handle.old.held }
    ensures shares { Returns (Shares handle.old.held other.new.held) result }
{
    *other = PmbHandle::closed(alloc);
    shared(alloc, handle, other).number()
}

/// Closes a handle. Of one that is closed nothing is done.
#[unsafe(no_mangle)]
pub extern "C" fn pmb_profile_close(alloc: Global, handle: &mut PmbHandle)
    ensures { handle.new.held ≡ None }
{
    *handle = PmbHandle::closed(alloc);
}

/// Writes what `pmb show` writes of a capture.
#[unsafe(no_mangle)]
pub extern "C" fn pmb_profile_show(
    alloc: Global,
    handle: &mut PmbHandle,
    capture: &[u8],
    room: &mut [u8],
    told: &mut PmbResult,
) -> usize
    ensures held { handle.new.held ≡ handle.old.held }
    ensures wrote { AnswersUnder (working works.Show) handle.old.held capture.now room.old room.new told.new }
    ensures length { result ≡ told.new.length }
{
    *told = answer_under(MemoryTask::Show, alloc, handle, capture, room);
    told.length
}

/// Writes what `pmb check` writes of a capture.
#[unsafe(no_mangle)]
pub extern "C" fn pmb_profile_check(
    alloc: Global,
    handle: &mut PmbHandle,
    capture: &[u8],
    room: &mut [u8],
    told: &mut PmbResult,
) -> usize
    ensures held { handle.new.held ≡ handle.old.held }
    ensures wrote { AnswersUnder (working works.Check) handle.old.held capture.now room.old room.new told.new }
    ensures length { result ≡ told.new.length }
{
    *told = answer_under(MemoryTask::Check, alloc, handle, capture, room);
    told.length
}

/// Writes what `pmb build` writes of transaction lines.
#[unsafe(no_mangle)]
pub extern "C" fn pmb_profile_build(
    alloc: Global,
    handle: &mut PmbHandle,
    lines: &[u8],
    room: &mut [u8],
    told: &mut PmbResult,
) -> usize
    ensures held { handle.new.held ≡ handle.old.held }
    ensures wrote { AnswersUnder (working works.Build) handle.old.held lines.now room.old room.new told.new }
    ensures length { result ≡ told.new.length }
{
    *told = answer_under(MemoryTask::Build, alloc, handle, lines, room);
    told.length
}

/// Writes what `pmb run` writes of requests, on devices as they are first made.
#[unsafe(no_mangle)]
pub extern "C" fn pmb_profile_run(
    alloc: Global,
    handle: &mut PmbHandle,
    requests: &[u8],
    room: &mut [u8],
    told: &mut PmbResult,
) -> usize
    ensures held { handle.new.held ≡ handle.old.held }
    ensures wrote { AnswersUnder (working works.Run) handle.old.held requests.now room.old room.new told.new }
    ensures length { result ≡ told.new.length }
{
    *told = answer_under(MemoryTask::Run, alloc, handle, requests, room);
    told.length
}

/// Writes what `pmb json` writes of a capture, with these choices.
#[unsafe(no_mangle)]
pub extern "C" fn pmb_profile_json(
    alloc: Global,
    handle: &mut PmbHandle,
    capture: &[u8],
    choice: &PmbChoice,
    devices: &[u8],
    room: &mut [u8],
    told: &mut PmbResult,
) -> usize
    ensures held { handle.new.held ≡ handle.old.held }
    ensures wrote { AnswersJsonUnder (chosen choice.now devices.now) devices.now handle.old.held capture.now room.old room.new told.new }
    ensures length { result ≡ told.new.length }
{
    *told = json_under(alloc, handle, capture, choice, devices, room);
    told.length
}

/// Reads a profile and has a closed handle hold it.
fn opened(alloc: Global, handle: &mut PmbHandle, text: &[u8]) -> PmbResult
    requires { handle.old.held ≡ None }
    ensures { Opens text.now handle.new.held result }
{
    match read_profile(alloc, text) {
        Ok(profile) => match Arc::new(alloc, profile) {
            Ok(profile) => match holding(alloc, profile) {
                Some(new) => {
                    *handle = new;
                    PmbResult::of_status(CallStatus::Done)
                }
                None => PmbResult::of_status(CallStatus::NoMemory),
            },
            Err(_) => PmbResult::of_status(CallStatus::NoMemory),
        },
        Err(WholeFault::Profile(fault)) => PmbResult::of_fault(fault, 0),
        Err(WholeFault::Memory | WholeFault::Write) => PmbResult::of_status(CallStatus::NoMemory),
    }
}

/// Has a closed handle hold the profile of another one.
fn shared(alloc: Global, handle: &mut PmbHandle, other: &mut PmbHandle) -> CallStatus
    requires { other.old.held ≡ None }
    ensures held { handle.new.held ≡ handle.old.held }
    ensures shares { Shares handle.old.held other.new.held result }
{
    match lent(alloc, handle) {
        Ok(profile) => match holding(alloc, profile) {
            Some(new) => {
                *other = new;
                CallStatus::Done
            }
            None => CallStatus::NoMemory,
        },
        Err(why) => why,
    }
}

/// A handle that holds a profile, where there is memory for it.
fn holding(alloc: Global, profile: Arc<BusProfile, Global>) -> Option<PmbHandle>
    ensures { IfSome result (λ h. profile_in h.held ≡ Some (arc_value profile)) }
{
    match Box::new(alloc, Held::Profile(profile)) {
        Ok(held) => Some(PmbHandle::of(held)),
        Err(_) => None,
    }
}

/// The profile that a handle holds, for the time of a call.
pub(crate) fn lent(
    alloc: Global,
    handle: &mut PmbHandle,
) -> Result<Arc<BusProfile, Global>, CallStatus>
    ensures held { handle.new.held ≡ handle.old.held }
    ensures lends { Lends handle.old.held (profile_of result) }
{
    let Some(held) = handle.take(alloc) else {
        return Err(CallStatus::Closed);
    };
    let lent = match &*held {
        Held::Profile(profile) => match profile.clone() {
            Ok(profile) => Ok(profile),
            Err(_) => Err(CallStatus::NoMemory),
        },
        Held::Reader(_) => Err(CallStatus::Closed),
        Held::Bus(_) => Err(CallStatus::Closed),
    };
    *handle = PmbHandle::of(held);
    lent
}

/// Does a work on an input under the profile that a handle holds.
fn answer_under(
    work: MemoryTask,
    alloc: Global,
    handle: &mut PmbHandle,
    input: &[u8],
    room: &mut [u8],
) -> PmbResult
    ensures held { handle.new.held ≡ handle.old.held }
    ensures wrote { AnswersUnder (working work) handle.old.held input.now room.old room.new result }
{
    let size = room.len();
    match lent(alloc, handle) {
        Ok(profile) => PmbResult::of(put_whole_under(work, alloc, &profile, input, room), size),
        Err(why) => PmbResult::of_status(why),
    }
}

/// Writes objects under the profile that a handle holds.
fn json_under(
    alloc: Global,
    handle: &mut PmbHandle,
    capture: &[u8],
    choice: &PmbChoice,
    devices: &[u8],
    room: &mut [u8],
) -> PmbResult
    ensures held { handle.new.held ≡ handle.old.held }
    ensures wrote { AnswersJsonUnder (chosen choice.now devices.now) devices.now handle.old.held capture.now room.old room.new result }
{
    let size = room.len();
    let choice = match choice.chosen(devices) {
        Ok(choice) => choice,
        Err(why) => return PmbResult::of_status(why),
    };
    match lent(alloc, handle) {
        Ok(profile) => PmbResult::of(
            put_json_under(choice, devices, alloc, &profile, capture, room),
            size,
        ),
        Err(why) => PmbResult::of_status(why),
    }
}
