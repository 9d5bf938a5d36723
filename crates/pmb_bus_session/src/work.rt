//! What is asked of a session by its one call, and its answer.
//!
//! Who keeps a session together with what it borrows has a proof by hand of each call. So there is one call
//! for all that is asked.
//!
//! Its rows: `tests_host`, `src/session.rt`.

ghost use Rattle.std.specs.Prelude.{◌≡◌};

use pmb_io::Tally;
use pmb_message::Message;

/// What is asked.
#[derive(Clone, Copy, Debug, PartialEq, Eq)]
pub enum BusTask {
    /// To make the devices, each in its first state. It comes before all else.
    Open,
    /// To send a message.
    Message(Message),
    /// To run the request that the line spells.
    Request,
    /// To move text of the log into the room, the oldest first.
    Take,
}

/// What came of it.
#[derive(Clone, Copy, Debug, PartialEq, Eq)]
pub enum BusStatus {
    /// It was done. A request was run, or answered with its fault: the tally says which.
    Done,
    /// The devices were not made yet.
    Closed,
    /// Memory was refused, and nothing was sent.
    Memory,
    /// A request came inside a transfer: the last message that was sent had no STOP after it.
    Busy,
    /// No device took the address: ENXIO of Linux.
    NoDevice,
    /// A device refused a byte: EREMOTEIO.
    Refused,
    /// The count of a block is 0 or above 32: EPROTO.
    BadCount,
    /// The address is above 7fh, and nothing was sent: EINVAL.
    BadAddress,
    /// More bytes than there is room for, or than 8,192, and nothing was sent: EINVAL.
    BadLength,
    /// Flags other than 0, 1 and 0401h, and nothing was sent: EOPNOTSUPP.
    BadFlags,
}

/// The answer.
#[derive(Clone, Copy, Debug, PartialEq, Eq)]
pub struct BusAnswer {
    pub status: BusStatus,
    /// Where it is done: how many bytes of the room a message wrote or read, a block's count among them,
    /// or how many `Take` moved into it. Else 0.
    pub count: usize,
    /// How many bytes the log had before `Take`. Else 0.
    pub ready: usize,
    /// A request that was done counts as a packet, and one that failed or has a fault as a refusal.
    pub tally: Tally,
}

/// What is asked, with what it needs, and the answer.
#[derive(Drop)]
pub struct BusWork<'w> {
    pub task: BusTask,
    /// The line of a request.
    pub line: &'w [u8],
    /// The bytes of a message; or where the text goes.
    pub room: &'w mut [u8],
    pub answer: BusAnswer,
}

impl<'w> BusWork<'w> {
    /// Nothing is answered yet: the answer means nothing.
    pub fn new(task: BusTask, line: &'w [u8], room: &'w mut [u8]) -> BusWork<'w>
        ensures task { result.task ≡ task }
        ensures line { result.line ≡ line.entry }
        ensures room { result.room ≡ room.entry }
    {
        BusWork {
            task,
            line,
            room,
            answer: BusAnswer {
                status: BusStatus::Closed,
                count: 0,
                ready: 0,
                tally: Tally::new(),
            },
        }
    }
}
