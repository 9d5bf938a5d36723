//! Buses of simulated devices that stay.
//!
//! Their rows: `.ci/bus.c`.

ghost use Rattle.std.specs.Arc.{arc_value};
ghost use Rattle.std.specs.Prelude.{◌≡◌, IfSome, None};
ghost use Rattle.pmb_c.specs.Bus.{ActsHeld, BusRuns, BusSends, BusTakes, HasBus, OpensBus, end_of, message_error, request_status, result_of_events, result_of_request};

use crate::handle::PmbHandle;
use crate::held::Held;
use crate::profile::lent;
use crate::result::PmbResult;
use pmb_bus_session::{BusAnswer, BusGround, BusStatus, BusTask, BusWork, Message, MessageEnd};
use pmb_firmware::CallStatus;
use pmb_open_bus::OpenBus;
use pmb_table::BusProfile;
use std::alloc::Global;
use std::sync::Arc;

/// The error of Linux, EBADF, of a message to a handle that holds no bus.
const NOT_OPEN: i32 = -9;

/// Makes the devices of the profile that another handle holds. What the bus's handle held before is
/// closed first.
#[unsafe(no_mangle)]
pub extern "C" fn pmb_bus_open(alloc: Global, bus: &mut PmbHandle, profile: &mut PmbHandle) -> i32
    ensures held { profile.new.held ≡ profile.old.held }
    ensures opens { OpensBus profile.old.held bus.new.held result }
{
    *bus = PmbHandle::closed(alloc);
    match lent(alloc, profile) {
        Ok(devices) => match opened(alloc, devices) {
            Some(held) => {
                *bus = PmbHandle::of(held);
                CallStatus::Done.number()
            }
            None => CallStatus::NoMemory.number(),
        },
        Err(why) => why.number(),
    }
}

/// Sends a message of I2C: START, the address, and the bytes at the front of the room.
#[unsafe(no_mangle)]
pub extern "C" fn pmb_bus_message(
    alloc: Global,
    bus: &mut PmbHandle,
    address: u16,
    flags: u16,
    bytes: &mut [u8],
    length: &mut usize,
    last: u8,
) -> i32
    ensures { BusSends (record { address = address; flags = flags; length = length.old; end = end_of last })
        bus.old.held bytes.old bus.new.held bytes.new length.new result }
{
    let message = Message {
        address,
        flags,
        length: *length,
        end: end_of(last),
    };
    let mut work = BusWork::new(BusTask::Message(message), b"", bytes);
    match act(alloc, bus, &mut work) {
        Some(answer) => {
            if let BusStatus::Done = answer.status {
                *length = answer.count;
            }
            message_error(answer.status)
        }
        None => NOT_OPEN,
    }
}

/// Runs the request that a line spells.
#[unsafe(no_mangle)]
pub extern "C" fn pmb_bus_request(
    alloc: Global,
    bus: &mut PmbHandle,
    line: &[u8],
    told: &mut PmbResult,
) -> i32
    ensures runs { BusRuns bus.old.held line.now bus.new.held told.new }
    ensures status { result ≡ told.new.status }
{
    let mut work = BusWork::new(BusTask::Request, line, &mut []);
    *told = match act(alloc, bus, &mut work) {
        Some(answer) => told_of_request(answer),
        None => PmbResult::of_status(CallStatus::Closed),
    };
    told.status
}

/// Moves what was logged into the room, as far as it fits.
#[unsafe(no_mangle)]
pub extern "C" fn pmb_bus_events(
    alloc: Global,
    bus: &mut PmbHandle,
    room: &mut [u8],
    told: &mut PmbResult,
) -> usize
    ensures { BusTakes bus.old.held room.old bus.new.held room.new told.new result }
{
    let mut work = BusWork::new(BusTask::Take, b"", room);
    match act(alloc, bus, &mut work) {
        Some(answer) => {
            *told = told_of_events(answer);
            answer.count
        }
        None => {
            *told = PmbResult::of_status(CallStatus::Closed);
            0
        }
    }
}

/// Closes a bus. Of one that is closed nothing is done.
#[unsafe(no_mangle)]
pub extern "C" fn pmb_bus_close(alloc: Global, bus: &mut PmbHandle)
    ensures { bus.new.held ≡ None }
{
    *bus = PmbHandle::closed(alloc);
}

/// What a handle of a bus holds: its devices, each in its first state. `None` for want of memory.
fn opened(alloc: Global, devices: Arc<BusProfile, Global>) -> Option<Box<Held>>
    ensures { IfSome result (λ held. HasBus (arc_value devices) held.value) }
{
    let base = BusGround {
        bus: devices,
        alloc,
    };
    let Ok(mut bus) = OpenBus::new(alloc, base) else {
        return None;
    };
    let mut work = BusWork::new(BusTask::Open, b"", &mut []);
    bus.act(&mut work);
    match work.answer.status {
        BusStatus::Done => match Box::new(alloc, Held::Bus(bus)) {
            Ok(held) => Some(held),
            Err(_) => None,
        },
        _ => None,
    }
}

/// Has the bus that a handle holds do what is asked; `None` where the handle holds none.
fn act(alloc: Global, handle: &mut PmbHandle, work: &mut BusWork<'_>) -> Option<BusAnswer>
    ensures acts { ActsHeld handle.old.held work.old handle.new.held work.new result }
    ensures same { work.new.room.ghost_name ≡ work.old.room.ghost_name }
{
    let mut held = handle.take(alloc)?;
    let answer = match &mut *held {
        Held::Profile(_) => None,
        Held::Reader(_) => None,
        Held::Bus(bus) => {
            bus.act(work);
            Some(work.answer)
        }
    };
    *handle = PmbHandle::of(held);
    answer
}

/// What comes after a message.
fn end_of(last: u8) -> MessageEnd
    ensures { result ≡ end_of last }
{
    if last == 0 {
        MessageEnd::RepeatedStart
    } else {
        MessageEnd::Stop
    }
}

/// 0, or the error of Linux.
fn message_error(status: BusStatus) -> i32
    ensures { result ≡ message_error status }
{
    match status {
        BusStatus::Done => 0,
        BusStatus::Closed => NOT_OPEN,
        BusStatus::Memory => -12,
        BusStatus::Busy => -16,
        BusStatus::NoDevice => -6,
        BusStatus::Refused => -121,
        BusStatus::BadCount => -71,
        BusStatus::BadAddress | BusStatus::BadLength => -22,
        BusStatus::BadFlags => -95,
    }
}

/// The status of a request. The faults of messages are none of its own.
fn request_status(status: BusStatus) -> CallStatus
    ensures { result ≡ request_status status }
{
    match status {
        BusStatus::Closed => CallStatus::Closed,
        BusStatus::Memory => CallStatus::NoMemory,
        BusStatus::Busy => CallStatus::Busy,
        BusStatus::Done
        | BusStatus::NoDevice
        | BusStatus::Refused
        | BusStatus::BadCount
        | BusStatus::BadAddress
        | BusStatus::BadLength
        | BusStatus::BadFlags => CallStatus::Done,
    }
}

/// What is told of a request.
fn told_of_request(answer: BusAnswer) -> PmbResult
    ensures { result ≡ result_of_request answer }
{
    let mut told = PmbResult::of_status(request_status(answer.status));
    told.packets = answer.tally.packets;
    told.refusals = answer.tally.refusals;
    told
}

/// What is told of text that was taken.
fn told_of_events(answer: BusAnswer) -> PmbResult
    ensures { result ≡ result_of_events answer }
{
    let status = if answer.count < answer.ready {
        CallStatus::NoRoom
    } else {
        CallStatus::Done
    };
    let mut told = PmbResult::of_status(status);
    told.length = answer.ready;
    told
}
