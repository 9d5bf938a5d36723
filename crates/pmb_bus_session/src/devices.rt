//! The devices of a session, with what is needed to send messages and run requests.
//!
//! Its rows: `tests_host`, `src/session.rt`.

ghost use Rattle.std.specs.Prelude.{◌≡◌, ◌≤◌, [], length, IfSome, IsFalse, IsTrue, IfOk};
ghost use Rattle.pmb_bus_session.specs.Devices.{DevicesSend, OpensFresh, request_text, under_way_after};
ghost use Rattle.pmb_bus_session.specs.Session.{IsBusy, IsFree, RunsLine};

use crate::nowhere::Nowhere;
use pmb_devices::Bus;
use pmb_io::{RunFault, Tally, Waiting};
use pmb_message::{Message, MessageEnd, SendFault, Tape, send};
use pmb_run::{Bench, Runner};
use pmb_table::Profile;
use std::alloc::Global;

/// The devices, and what is needed to send messages and run requests.
#[derive(Drop)]
pub(crate) struct Devices<'p> {
    pub(crate) runner: Runner<'p>,
    /// The events of the last message.
    pub(crate) tape: Tape,
    /// The text of the last request.
    pub(crate) waiting: Box<Waiting>,
    /// Whether the last message that was sent had no STOP after it.
    pub(crate) is_under_way: bool,
}

impl<'p> Devices<'p> {
    /// Devices in their first states, on the heap; nothing where there is no memory for all that they
    /// will ever need.
    pub(crate) fn boxed(alloc: Global, profile: &'p Profile) -> Option<Box<Devices<'p>>>
        ensures { IfSome result (λ devices. OpensFresh profile.now devices.value) }
    {
        let Some(waiting) = none_waiting(alloc) else {
            return None;
        };
        Devices::around(alloc, profile, waiting)
    }

    /// Such devices around room for a text. It is never inlined, so that what they are made of is off the
    /// stack when they are used.
    #[inline(never)]
    fn around(
        alloc: Global,
        profile: &'p Profile,
        waiting: Box<Waiting>,
    ) -> Option<Box<Devices<'p>>>
        ensures { IfSome result (λ devices. OpensFresh profile.now devices.value) }
    {
        let Ok(bus) = Bus::new(alloc, profile) else {
            return None;
        };
        let Ok(tape) = Tape::new(alloc) else {
            return None;
        };
        let devices = Devices {
            runner: Runner {
                bench: Bench::new(profile, bus),
                lines: 0,
                tally: Tally::new(),
            },
            tape,
            waiting,
            is_under_way: false,
        };
        match Box::new(alloc, devices) {
            Ok(devices) => Some(devices),
            Err(_) => None,
        }
    }

    /// Sends a message, and reads its events.
    pub(crate) fn send(&mut self, message: Message, room: &mut [u8]) -> Result<usize, SendFault>
        ensures { DevicesSend message room.old room.new self.old self.new result }
    {
        let result = send(&mut self.runner.bench.bus, message, room, &mut self.tape);
        self.runner.bench.overhear(self.tape.events());
        self.is_under_way = under_way_after(self.is_under_way, message, result);
        result
    }

    /// Whether no request is taken now: a transfer is under way, or what was read doesn't end between two packets.
    pub(crate) fn is_busy(&self) -> bool
        ensures free { IsFalse result → IsFree self.now }
        ensures busy { IsTrue result → IsBusy self.now }
    {
        self.is_under_way || !self.runner.bench.is_between()
    }

    /// Runs the request of a line. What `run` writes of it waits then.
    ///
    /// # Errors
    ///
    /// There is no room for the text.
    pub(crate) fn request(&mut self, line: &[u8]) -> Result<Tally, RunFault>
        ensures runs { IfOk result (RunsLine line.now self.old self.new [] (request_text self.new)) }
        ensures under_way { self.new.is_under_way ≡ self.old.is_under_way }
    {
        let waiting = &mut *self.waiting;
        waiting.clear();
        self.runner.tally = Tally::new();
        self.runner.take_next(line, waiting, &mut Nowhere::new())?;
        Ok(self.runner.tally)
    }

    /// The text of the last request.
    pub(crate) fn text(&self) -> &[u8]
        ensures all { result.now ≡ request_text self.now }
        ensures few { length result.now ≤ 32768 }
    {
        self.waiting.as_slice()
    }
}

/// Room in which no text waits. It is never inlined, so that what it is made of is off the stack when
/// the devices are made.
#[inline(never)]
fn none_waiting(alloc: Global) -> Option<Box<Waiting>> {
    match Box::new(alloc, Waiting::new()) {
        Ok(waiting) => Some(waiting),
        Err(_) => None,
    }
}

/// Whether a transfer is under way after a message: nothing changes where nothing was sent, and a message
/// that failed ends with STOP.
fn under_way_after(was_under_way: bool, message: Message, sent: Result<usize, SendFault>) -> bool
    ensures { result ≡ under_way_after was_under_way message.end sent }
{
    match sent {
        Ok(_) => message.end == MessageEnd::RepeatedStart,
        Err(SendFault::NoDevice | SendFault::Refused | SendFault::BadCount) => false,
        Err(SendFault::BadAddress | SendFault::BadLength | SendFault::BadFlags) => was_under_way,
    }
}
