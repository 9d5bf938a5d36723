//! A reader that is fed the text of a capture, and keeps what is told of it until it is taken.
//!
//! A call's lines go from the teller through `waiting` to `fresh`, and from there to the queue once all of
//! them are made. So where memory is refused, nothing of the call is ready, and all that was ready before
//! still is. `waiting` has 32 KB, which no call clears; it and the teller's 60 KB are on the heap.
//!
//! Its rows: `tests_tasks`, `src/capture_reader.rt`.

ghost use Rattle.std.specs.Prelude.{◌≡◌, ◌≢◌, ◌++◌, [], ℕ, IfOk, List, drop, take, length, min};
ghost use Rattle.pmb_capture_reader.specs.Fed.{given_with};
ghost use Rattle.pmb_capture_reader.specs.Fresh.{fresh_bytes};
ghost use Rattle.pmb_capture_reader.specs.Queue.{QueueKeepsFew};
ghost use Rattle.pmb_capture_reader.specs.Reader.{KeepsFew, ReaderStands, reader_kept, reader_ready, reader_state, reader_tally};
ghost use Rattle.pmb_capture_reader.specs.Ready.{Begins};
ghost use Rattle.pmb_capture_reader.specs.Work.{StandsFresh};
ghost use Rattle.pmb_capture_reader.specs.machine.Steps.{AfterPiece, AfterEnd, Gathers};
ghost use Rattle.pmb_command.specs.Parts.{DeviceParts};
ghost use Rattle.pmb_fact_stream.specs.Choice.{ChoiceData, choice_data};
ghost use Rattle.pmb_scan.specs.declared.after_bad_token.AfterBadToken.{AfterBadToken};
ghost use Rattle.pmb_telling.specs.Teller.{TellerStands};
ghost use Rattle.pmb_telling.specs.Tell.{StopsTold};

use crate::fresh::Fresh;
use crate::queue::Queue;
use crate::reader_ground::ReaderGround;
use pmb_fact_stream::Choice;
use pmb_io::{Flow, Tally, Waiting, send};
use pmb_table::{BusProfile, Profile};
use pmb_telling::laws::tellers_have_told;
use pmb_telling::{AfterBadToken, CaptureTeller};
use std::alloc::{AllocError, Global};

/// How much more a reader takes.
#[derive(Clone, Copy, Debug, PartialEq, Eq)]
pub enum Fed {
    /// The next piece, or the end.
    More,
    /// Nothing: the text has ended, or reading ended at a word that is no token.
    Ended,
    /// Nothing: memory was refused. What was ready before is still to be taken.
    Memory,
}

/// A reader that is fed the text of a capture in pieces of any size, and keeps what is told of it until
/// it is taken.
#[derive(Drop)]
pub struct CaptureReader<'p> {
    teller: CaptureTeller<'p>,
    /// Lines on their way to `fresh`.
    waiting: Box<Waiting>,
    /// What the last call made.
    fresh: Fresh,
    /// What is ready.
    queue: Queue,
    state: Fed,
}

impl<'p> CaptureReader<'p> {
    /// Nothing was given yet.
    ///
    /// # Errors
    ///
    /// There was no memory.
    pub fn new(
        alloc: Global,
        profile: &'p Profile,
        choice: Choice<'p>,
        bad_words: AfterBadToken,
    ) -> Result<CaptureReader<'p>, AllocError>
        ensures stands { IfOk result (λ reader. ReaderStands (choice_data choice.entry) profile.now bad_words [] [] reader) }
        ensures state { IfOk result (λ reader. reader_state reader ≡ Fed.More) }
        ensures ready { IfOk result (λ reader. reader_ready reader ≡ []) }
        ensures kept { IfOk result (λ reader. reader_kept reader ≡ 0) }
    {
        // Taken apart and made again: no struct that borrows is handed on as it came.
        let Choice {
            digits,
            start,
            devices,
            ignored,
            telling,
        } = choice;
        let chosen = Choice {
            digits,
            start,
            devices,
            ignored,
            telling,
        };
        tellers_have_told();
        let teller = CaptureTeller::new(alloc, profile, chosen, bad_words)?;
        let waiting = none_waiting(alloc)?;
        let queue = Queue::new(alloc);
        Ok(CaptureReader {
            teller,
            waiting,
            fresh: Fresh::new(alloc),
            queue,
            state: Fed::More,
        })
    }

    /// A reader that borrows from there, to which nothing was given.
    ///
    /// # Errors
    ///
    /// There was no memory.
    pub fn over(borrowed: &'p ReaderGround) -> Result<CaptureReader<'p>, AllocError>
        ensures { IfOk result (λ reader. StandsFresh borrowed.now reader) }
    {
        let bus: &'p BusProfile = &borrowed.bus;
        let choice = Choice {
            digits: borrowed.digits,
            start: borrowed.start,
            devices: borrowed.devices.as_slice(),
            ignored: bus.ignored(),
            telling: borrowed.telling,
        };
        CaptureReader::new(borrowed.alloc, bus.profile(), choice, borrowed.bad_words)
    }

    /// Takes the next piece of the text; the lines of what it completes are ready after it. It returns how
    /// much more the reader takes. One that takes nothing more stays as it is.
    pub fn feed(&mut self, piece: &[u8]) -> Fed
        ensures state { result ≡ reader_state self.new }

        // What was told is told of all that was given.
        ensures stands { (choice : ChoiceData) (profile : List DeviceParts) (after : AfterBadToken) (given taken : List ℕ) → ReaderStands choice profile after given taken self.old
            → ReaderStands choice profile after (given_with (reader_state self.old) given piece.now) taken self.new }

        // Where a word that is no token ends reading, it is also told of whatever follows.
        ensures stops { (choice : ChoiceData) (profile : List DeviceParts) (after : AfterBadToken) (given taken : List ℕ) → ReaderStands choice profile after given taken self.old
            → reader_state self.old ≡ Fed.More → result ≡ Fed.Ended → StopsTold choice profile after (given ++ piece.now) (taken ++ reader_ready self.new) (reader_tally self.new) }

        // What was ready stays ready, and more comes after it. What was taken is dropped sooner or later.
        ensures ready { Begins (reader_ready self.old) (reader_ready self.new) }
        ensures refused { result ≡ Fed.Memory → reader_ready self.new ≡ reader_ready self.old }
        ensures few { KeepsFew self.old self.new }
        ensures over { reader_state self.old ≢ Fed.More → self.new ≡ self.old }
    {
        match self.state {
            Fed::More => self.feed_more(piece),
            Fed::Ended => Fed::Ended,
            Fed::Memory => Fed::Memory,
        }
    }

    /// The text ends here: the last lines are ready after it. It returns `Ended`, or `Memory`. A reader that
    /// takes nothing more stays as it is.
    pub fn end(&mut self) -> Fed
        ensures state { result ≡ reader_state self.new }
        ensures ends { result ≢ Fed.More }
        ensures stands { (choice : ChoiceData) (profile : List DeviceParts) (after : AfterBadToken) (given taken : List ℕ) → ReaderStands choice profile after given taken self.old
            → ReaderStands choice profile after given taken self.new }
        ensures ready { Begins (reader_ready self.old) (reader_ready self.new) }
        ensures refused { result ≡ Fed.Memory → reader_ready self.new ≡ reader_ready self.old }
        ensures few { KeepsFew self.old self.new }
        ensures over { reader_state self.old ≢ Fed.More → self.new ≡ self.old }
    {
        match self.state {
            Fed::More => self.end_more(),
            Fed::Ended => Fed::Ended,
            Fed::Memory => Fed::Memory,
        }
    }

    /// How many bytes are ready to be taken.
    pub fn ready(&self) -> usize
        ensures { result ≡ length (reader_ready self.now) }
    {
        self.queue.len()
    }

    /// Moves bytes that are ready to the front of a room, the oldest first and as far as they fit, and
    /// returns how many. What stands after them in the room stays.
    pub fn take(&mut self, room: &mut [u8]) -> usize
        ensures count { result ≡ min (length (reader_ready self.old)) (length room.old) }
        ensures room { room.new ≡ take result (reader_ready self.old) ++ drop result room.old }
        ensures ready { reader_ready self.old ≡ take result room.new ++ reader_ready self.new }
        ensures stands { (choice : ChoiceData) (profile : List DeviceParts) (after : AfterBadToken) (given taken : List ℕ) → ReaderStands choice profile after given taken self.old
            → ReaderStands choice profile after given (taken ++ take result room.new) self.new }
        ensures state { reader_state self.new ≡ reader_state self.old }
        ensures tally { reader_tally self.new ≡ reader_tally self.old }
        ensures few { KeepsFew self.old self.new }
    {
        self.queue.take(room)
    }

    /// How many packets came so far, and how many refusals and words that are no token.
    pub fn tally(&self) -> Tally
        ensures { result ≡ reader_tally self.now }
    {
        self.teller.tally()
    }

    /// How much more it takes.
    pub fn state(&self) -> Fed
        ensures { result ≡ reader_state self.now }
    {
        self.state
    }

    /// Takes a piece that is wanted.
    fn feed_more(&mut self, piece: &[u8]) -> Fed
        requires { reader_state self.old ≡ Fed.More }
        ensures state { result ≡ reader_state self.new }
        ensures stands { (choice : ChoiceData) (profile : List DeviceParts) (after : AfterBadToken) (given taken : List ℕ) → ReaderStands choice profile after given taken self.old
            → ReaderStands choice profile after (given ++ piece.now) taken self.new }
        ensures stops { (choice : ChoiceData) (profile : List DeviceParts) (after : AfterBadToken) (given taken : List ℕ) → ReaderStands choice profile after given taken self.old
            → result ≡ Fed.Ended → StopsTold choice profile after (given ++ piece.now) (taken ++ reader_ready self.new) (reader_tally self.new) }
        ensures ready { Begins (reader_ready self.old) (reader_ready self.new) }
        ensures refused { result ≡ Fed.Memory → reader_ready self.new ≡ reader_ready self.old }
        ensures few { KeepsFew self.old self.new }
    {
        tellers_have_told();
        let waiting = &mut *self.waiting;
        let made = tell_piece(&mut self.teller, piece, waiting, &mut self.fresh);
        self.state = gather(&mut self.queue, &mut self.fresh, made);
        self.state
    }

    /// Takes the end, which is wanted.
    fn end_more(&mut self) -> Fed
        requires { reader_state self.old ≡ Fed.More }
        ensures state { result ≡ reader_state self.new }
        ensures ends { result ≢ Fed.More }
        ensures stands { (choice : ChoiceData) (profile : List DeviceParts) (after : AfterBadToken) (given taken : List ℕ) → ReaderStands choice profile after given taken self.old
            → ReaderStands choice profile after given taken self.new }
        ensures ready { Begins (reader_ready self.old) (reader_ready self.new) }
        ensures refused { result ≡ Fed.Memory → reader_ready self.new ≡ reader_ready self.old }
        ensures few { KeepsFew self.old self.new }
    {
        let waiting = &mut *self.waiting;
        let made = tell_end(&mut self.teller, waiting, &mut self.fresh);
        self.state = gather(&mut self.queue, &mut self.fresh, made);
        self.state
    }
}

/// A buffer in which nothing waits. It is not inlined, so that what it is made of is off the stack after it.
#[inline(never)]
fn none_waiting(alloc: Global) -> Result<Box<Waiting>, AllocError> {
    match Box::new(alloc, Waiting::new()) {
        Ok(waiting) => Ok(waiting),
        Err(_) => Err(AllocError),
    }
}

/// Has a teller write what it tells of a piece, and nothing else, to `fresh`.
fn tell_piece(
    teller: &mut CaptureTeller<'_>,
    piece: &[u8],
    waiting: &mut Waiting,
    fresh: &mut Fresh,
) -> Fed
    ensures { (choice : ChoiceData) (profile : List DeviceParts) (after : AfterBadToken) (given told : List ℕ) → TellerStands choice profile after teller.old given told
        → AfterPiece choice profile after teller.new (given ++ piece.now) (told ++ fresh_bytes fresh.new) result }
{
    fresh.clear();
    waiting.clear();
    let Ok(flow) = teller.take(piece, waiting, fresh) else {
        return Fed::Memory;
    };
    match send(waiting, fresh) {
        Ok(()) => match flow {
            Flow::More => Fed::More,
            Flow::Stop => Fed::Ended,
        },
        Err(_) => Fed::Memory,
    }
}

/// Has a teller write what it tells at the end, and nothing else, to `fresh`.
fn tell_end(teller: &mut CaptureTeller<'_>, waiting: &mut Waiting, fresh: &mut Fresh) -> Fed
    ensures never { result ≢ Fed.More }
    ensures told { (choice : ChoiceData) (profile : List DeviceParts) (after : AfterBadToken) (given told : List ℕ) → TellerStands choice profile after teller.old given told
        → AfterEnd choice profile after teller.new given (told ++ fresh_bytes fresh.new) result }
{
    fresh.clear();
    waiting.clear();
    match teller.end(waiting, fresh) {
        Ok(()) => match send(waiting, fresh) {
            Ok(()) => Fed::Ended,
            Err(_) => Fed::Memory,
        },
        Err(_) => Fed::Memory,
    }
}

/// Puts what a call made after what is ready, where it was made whole.
fn gather(queue: &mut Queue, fresh: &mut Fresh, made: Fed) -> Fed
    ensures gathers { Gathers made queue.old.left queue.new.left (fresh_bytes fresh.old) result }
    ensures few { QueueKeepsFew queue.old queue.new }
{
    match made {
        Fed::Memory => Fed::Memory,
        Fed::More | Fed::Ended => match queue.append(&mut fresh.bytes) {
            Ok(()) => made,
            Err(_) => Fed::Memory,
        },
    }
}
