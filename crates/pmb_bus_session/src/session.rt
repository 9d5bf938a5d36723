//! A bus of simulated devices that stays.
//!
//! Its rows: `tests_host`, `src/session.rt`.

ghost use Rattle.std.specs.Prelude.{◌≡◌};
ghost use Rattle.pmb_bus_session.specs.Session.{KeepsFew, MovesText, Opens, Requests, SendsMessage, StandsFresh, answer_of, counted, done_with, plain, status_of};
ghost use Rattle.pmb_bus_session.specs.Work.{Acts};

use crate::devices::Devices;
use crate::log::Log;
use crate::work::{BusAnswer, BusStatus, BusTask, BusWork};
use pmb_io::Tally;
use pmb_message::{Message, SendFault};
use pmb_table::{BusProfile, Profile};
use std::alloc::Global;
use std::sync::Arc;

/// The most bytes that are put into the log for a request: as many as wait. Its text has at most 25,734, three for
/// each of two events of 4,161 signals and the line of its result.
const MOST_REQUEST_TEXT: usize = 32768;

/// The most bytes that are put into the log for a message: three for each of its events.
const MOST_MESSAGE_TEXT: usize = 49164;

/// What a session borrows, and where it takes memory from.
#[derive(Drop)]
pub struct BusGround {
    /// The devices of the bus, and the addresses that it ignores.
    pub bus: Arc<BusProfile, Global>,
    pub alloc: Global,
}

/// A bus of simulated devices that stays.
#[derive(Drop)]
pub struct BusSession<'p> {
    profile: &'p Profile,
    alloc: Global,
    /// The devices, once they are made.
    devices: Option<Box<Devices<'p>>>,
    /// What was on the wire, and the results of requests, since it was taken.
    log: Log,
}

impl<'p> BusSession<'p> {
    /// A session on a ground, whose devices are not made yet. It takes no memory.
    pub fn on(ground: &'p BusGround) -> BusSession<'p>
        ensures fresh { StandsFresh ground.now result }
    {
        let bus: &'p BusProfile = &ground.bus;
        BusSession {
            profile: bus.profile(),
            alloc: ground.alloc,
            devices: None,
            log: Log::new(ground.alloc),
        }
    }

    /// Does what is asked, and answers.
    pub fn act(&mut self, work: &mut BusWork<'_>)
        ensures acts { Acts self.old self.new work.old work.new }

        // Text that was taken is dropped sooner or later.
        ensures few { KeepsFew self.old self.new }
    {
        match work.task {
            BusTask::Open => self.answer_open(&mut work.answer),
            BusTask::Message(message) => self.answer_message(message, work.room, &mut work.answer),
            BusTask::Request => self.answer_request(work.line, &mut work.answer),
            BusTask::Take => self.answer_take(work.room, &mut work.answer),
        }
    }

    /// Makes the devices, where they are not made yet.
    fn answer_open(&mut self, answer: &mut BusAnswer)
        ensures opens { Opens self.old self.new answer.new }
        ensures few { KeepsFew self.old self.new }
    {
        *answer = plain(BusStatus::Done);
        if self.devices.is_some() {
            return;
        }
        self.devices = Devices::boxed(self.alloc, self.profile);
        if self.devices.is_none() {
            *answer = plain(BusStatus::Memory);
        }
    }

    /// Sends a message, once there is room in the log for its text. It is never inlined, nor is what runs a
    /// request, so that making the devices takes less stack.
    #[inline(never)]
    fn answer_message(&mut self, message: Message, room: &mut [u8], answer: &mut BusAnswer)
        ensures sends { SendsMessage message room.old room.new self.old self.new answer.new }
        ensures few { KeepsFew self.old self.new }
    {
        let Some(devices) = &mut self.devices else {
            *answer = plain(BusStatus::Closed);
            return;
        };
        if self.log.reserve(MOST_MESSAGE_TEXT).is_err() {
            *answer = plain(BusStatus::Memory);
            return;
        }
        let devices: &mut Devices<'p> = devices;
        let sent = devices.send(message, room);
        self.log.push_events(devices.tape.events());
        *answer = answer_of(sent);
    }

    /// Runs the request of a line, between transfers.
    #[inline(never)]
    fn answer_request(&mut self, line: &[u8], answer: &mut BusAnswer)
        ensures runs { Requests line.now self.old self.new answer.new }
        ensures few { KeepsFew self.old self.new }
    {
        let Some(devices) = &mut self.devices else {
            *answer = plain(BusStatus::Closed);
            return;
        };
        if devices.is_busy() {
            *answer = plain(BusStatus::Busy);
            return;
        }
        if self.log.reserve(MOST_REQUEST_TEXT).is_err() {
            *answer = plain(BusStatus::Memory);
            return;
        }
        let devices: &mut Devices<'p> = devices;
        match devices.request(line) {
            Ok(tally) => {
                self.log.push_text(devices.text());
                *answer = done_with(tally);
            }
            Err(_) => {
                self.devices = None;
                *answer = plain(BusStatus::Memory);
            }
        }
    }

    /// Moves text of the log into a room.
    fn answer_take(&mut self, room: &mut [u8], answer: &mut BusAnswer)
        ensures moves { MovesText room.old room.new self.old self.new answer.new }
        ensures few { KeepsFew self.old self.new }
    {
        let ready = self.log.len();
        let count = self.log.take(room);
        *answer = BusAnswer {
            status: BusStatus::Done,
            count,
            ready,
            tally: Tally::new(),
        };
    }
}

/// A status alone.
fn plain(status: BusStatus) -> BusAnswer
    ensures { result ≡ plain status }
{
    BusAnswer {
        status,
        count: 0,
        ready: 0,
        tally: Tally::new(),
    }
}

/// It is done, with so many bytes.
fn counted(count: usize) -> BusAnswer
    ensures { result ≡ counted count }
{
    BusAnswer {
        status: BusStatus::Done,
        count,
        ready: 0,
        tally: Tally::new(),
    }
}

/// A request was run, with these counts.
fn done_with(tally: Tally) -> BusAnswer
    ensures { result ≡ done_with tally }
{
    BusAnswer {
        status: BusStatus::Done,
        count: 0,
        ready: 0,
        tally,
    }
}

fn status_of(fault: SendFault) -> BusStatus
    ensures { result ≡ status_of fault }
{
    match fault {
        SendFault::NoDevice => BusStatus::NoDevice,
        SendFault::Refused => BusStatus::Refused,
        SendFault::BadCount => BusStatus::BadCount,
        SendFault::BadAddress => BusStatus::BadAddress,
        SendFault::BadLength => BusStatus::BadLength,
        SendFault::BadFlags => BusStatus::BadFlags,
    }
}

/// What came of a message.
fn answer_of(sent: Result<usize, SendFault>) -> BusAnswer
    ensures { result ≡ answer_of sent }
{
    match sent {
        Ok(count) => counted(count),
        Err(fault) => plain(status_of(fault)),
    }
}
