//! Readers of a capture whose text comes in pieces.
//!
//! Their rows: `.ci/handles.c`, beside those of `tests/rows/json_objects.txt`.

ghost use Rattle.std.specs.Arc.{arc_value};
ghost use Rattle.std.specs.Prelude.{◌≡◌, IfOk, None};
ghost use Rattle.pmb_c.specs.Choice.{chosen};
ghost use Rattle.pmb_c.specs.Reader.{ActsHeld, EndsReader, FeedsReader, HasReader, OpensReader, TakesReader, number_of_answer, number_of_fed, result_of_taken};
ghost use Rattle.pmb_firmware.specs.CallStatus.{number_of};

use crate::choice::PmbChoice;
use crate::handle::PmbHandle;
use crate::held::{Held, HeldReader, ReaderKind};
use crate::profile::lent;
use crate::result::PmbResult;
use pmb_capture_reader::{Answer, Fed, ReaderGround, Task, Work};
use pmb_firmware::CallStatus;
use pmb_in_memory::JsonChoice;
use pmb_open_reader::OpenReader;
use pmb_table::BusProfile;
use std::alloc::{AllocError, Global};
use std::sync::Arc;

/// Opens a reader of objects under the profile that another handle holds. What the reader's handle held
/// before is closed first.
#[unsafe(no_mangle)]
pub extern "C" fn pmb_reader_open(
    alloc: Global,
    reader: &mut PmbHandle,
    profile: &mut PmbHandle,
    choice: &PmbChoice,
    devices: &[u8],
) -> i32
    ensures held { profile.new.held ≡ profile.old.held }
    ensures opens { OpensReader ReaderKind.Objects (chosen choice.now devices.now) devices.now profile.old.held reader.new.held result }
{
    open_as(alloc, ReaderKind::Objects, reader, profile, choice, devices)
}

/// Reads the next piece of the text.
#[unsafe(no_mangle)]
pub extern "C" fn pmb_reader_feed(alloc: Global, reader: &mut PmbHandle, piece: &[u8]) -> i32
    ensures { FeedsReader reader.old.held piece.now reader.new.held result }
{
    let mut work = Work::new(Task::Feed, piece, &mut []);
    returned(act(alloc, reader, None, &mut work))
}

/// Takes the end of the text.
#[unsafe(no_mangle)]
pub extern "C" fn pmb_reader_end(alloc: Global, reader: &mut PmbHandle) -> i32
    ensures { EndsReader reader.old.held reader.new.held result }
{
    let mut work = Work::new(Task::End, b"", &mut []);
    returned(act(alloc, reader, None, &mut work))
}

/// Moves what is ready of the objects into the room, as far as it fits.
#[unsafe(no_mangle)]
pub extern "C" fn pmb_reader_take(
    alloc: Global,
    reader: &mut PmbHandle,
    room: &mut [u8],
    told: &mut PmbResult,
) -> usize
    ensures { TakesReader reader.old.held room.old reader.new.held room.new told.new result }
{
    let mut work = Work::new(Task::Take, b"", room);
    match act(alloc, reader, Some(ReaderKind::Objects), &mut work) {
        Some(answer) => {
            *told = told_of_taken(answer);
            answer.moved
        }
        None => {
            *told = PmbResult::of_status(CallStatus::Closed);
            0
        }
    }
}

/// Closes a reader. Of one that is closed nothing is done.
#[unsafe(no_mangle)]
pub extern "C" fn pmb_reader_close(alloc: Global, reader: &mut PmbHandle)
    ensures { reader.new.held ≡ None }
{
    *reader = PmbHandle::closed(alloc);
}

/// Opens a reader of a kind. What its handle held before is closed first.
pub(crate) fn open_as(
    alloc: Global,
    kind: ReaderKind,
    reader: &mut PmbHandle,
    profile: &mut PmbHandle,
    choice: &PmbChoice,
    devices: &[u8],
) -> i32
    ensures held { profile.new.held ≡ profile.old.held }
    ensures opens { OpensReader kind (chosen choice.now devices.now) devices.now profile.old.held reader.new.held result }
{
    *reader = PmbHandle::closed(alloc);
    let choice = match choice.chosen(devices) {
        Ok(choice) => choice,
        Err(why) => return why.number(),
    };
    match lent(alloc, profile) {
        Ok(bus) => match opened(alloc, kind, bus, choice, devices) {
            Ok(held) => {
                *reader = PmbHandle::of(held);
                CallStatus::Done.number()
            }
            Err(_) => CallStatus::NoMemory.number(),
        },
        Err(why) => why.number(),
    }
}

/// What a handle of a reader holds: one to which nothing was given.
fn opened(
    alloc: Global,
    kind: ReaderKind,
    bus: Arc<BusProfile, Global>,
    choice: JsonChoice,
    devices: &[u8],
) -> Result<Box<Held>, AllocError>
    ensures { IfOk result (λ held. HasReader kind choice devices.now (arc_value bus) held.value) }
{
    let mut wanted = Vec::new(alloc);
    wanted.extend_from_slice(devices)?;
    let base = ReaderGround {
        bus,
        devices: wanted,
        digits: choice.digits,
        start: choice.start,
        bad_words: choice.bad_words,
        telling: kind.telling(),
        alloc,
    };
    let reader = OpenReader::new(alloc, base)?;
    match Box::new(alloc, Held::Reader(HeldReader { kind, reader })) {
        Ok(held) => Ok(held),
        Err(_) => Err(AllocError),
    }
}

/// Has the reader that a handle holds do the work; `None` where the handle holds none of the kind that is
/// asked for.
pub(crate) fn act(
    alloc: Global,
    handle: &mut PmbHandle,
    asked: Option<ReaderKind>,
    work: &mut Work<'_>,
) -> Option<Answer>
    ensures { ActsHeld asked handle.old.held work.old handle.new.held work.new result }
{
    let mut held = handle.take(alloc)?;
    let answer = match &mut *held {
        Held::Profile(_) => None,
        Held::Bus(_) => None,
        Held::Reader(reader) => reader.act(asked, work),
    };
    *handle = PmbHandle::of(held);
    answer
}

/// What is returned to C: how much more is taken.
fn returned(answer: Option<Answer>) -> i32
    ensures { result ≡ number_of_answer answer }
{
    match answer {
        Some(answer) => status_of(answer.state).number(),
        None => CallStatus::Closed.number(),
    }
}

/// The status of how much more is taken.
fn status_of(state: Fed) -> CallStatus
    ensures { number_of result ≡ number_of_fed state }
{
    match state {
        Fed::More => CallStatus::Done,
        Fed::Ended => CallStatus::Ended,
        Fed::Memory => CallStatus::NoMemory,
    }
}

/// What is told of what was taken.
fn told_of_taken(answer: Answer) -> PmbResult
    ensures { result ≡ result_of_taken answer }
{
    let status = if answer.moved < answer.ready {
        CallStatus::NoRoom
    } else {
        CallStatus::Done
    };
    let mut told = PmbResult::of_status(status);
    told.length = answer.ready;
    told.packets = answer.tally.packets;
    told.refusals = answer.tally.refusals;
    told
}
