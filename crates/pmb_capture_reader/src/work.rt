//! What is asked of a reader by its one call, and its answer.
//!
//! Who keeps a reader together with what it borrows has a proof by hand of each call that goes through. So
//! there is one call for all that is asked.
//!
//! Its rows: `tests_tasks`, `src/capture_reader.rt`.

ghost use Rattle.std.specs.Prelude.{◌≡◌, ◌≢◌, Some, length};
ghost use Rattle.pmb_capture_reader.specs.Reader.{reader_ready, reader_state, reader_tally};
ghost use Rattle.pmb_capture_reader.specs.Work.{Acts, Ends, Feeds, Takes};

use crate::reader::{CaptureReader, Fed};
use pmb_io::Tally;

/// What is asked.
#[derive(Clone, Copy, Debug, PartialEq, Eq)]
pub enum Task {
    /// To read the next piece of the text.
    Feed,
    /// To take the end of the text.
    End,
    /// To move what is ready into the room.
    Take,
    /// Nothing but the answer.
    Look,
}

/// What is answered, whatever was asked.
#[derive(Clone, Copy, Debug, PartialEq, Eq)]
pub struct Answer {
    /// How much more of the text is taken.
    pub state: Fed,
    /// How many bytes were ready, before any were moved.
    pub ready: usize,
    /// How many bytes were moved into the room.
    pub moved: usize,
    /// How many packets came so far, and how many refusals and words that are no token.
    pub tally: Tally,
}

/// What is asked, with what it needs, and the answer.
#[derive(Drop)]
pub struct Work<'w> {
    pub task: Task,
    /// What is read.
    pub piece: &'w [u8],
    /// Where what is taken goes.
    pub room: &'w mut [u8],
    /// `None` until it is answered.
    pub answer: Option<Answer>,
}

impl<'w> Work<'w> {
    /// Nothing is answered yet.
    pub fn new(task: Task, piece: &'w [u8], room: &'w mut [u8]) -> Work<'w>
        ensures task { result.task ≡ task }
        ensures piece { result.piece ≡ piece.entry }
        ensures room { result.room ≡ room.entry }
    {
        Work {
            task,
            piece,
            room,
            answer: None,
        }
    }
}

impl CaptureReader<'_> {
    /// Does what is asked, and answers.
    pub fn act(&mut self, work: &mut Work<'_>)
        ensures { Acts self.old self.new work.old work.new }
    {
        self.feed_if_asked(work.task, work.piece);
        self.end_if_asked(work.task);
        let mut answer = self.looked();
        answer.moved = self.take_if_asked(work.task, work.room);
        work.answer = Some(answer);
    }

    /// Reads a piece, where that is the task.
    fn feed_if_asked(&mut self, task: Task, piece: &[u8])
        ensures asked { task ≡ Task.Feed → Feeds self.old piece.now self.new }
        ensures other { task ≢ Task.Feed → self.new ≡ self.old }
    {
        if let Task::Feed = task {
            self.feed(piece);
        }
    }

    /// Takes the end of the text, where that is the task.
    fn end_if_asked(&mut self, task: Task)
        ensures asked { task ≡ Task.End → Ends self.old self.new }
        ensures other { task ≢ Task.End → self.new ≡ self.old }
    {
        if let Task::End = task {
            self.end();
        }
    }

    /// Moves what is ready into the room, where that is the task, and returns how many bytes.
    fn take_if_asked(&mut self, task: Task, room: &mut [u8]) -> usize
        ensures asked { task ≡ Task.Take → Takes self.old room.old self.new room.new result }
        ensures other { task ≢ Task.Take → self.new ≡ self.old }
        ensures room { task ≢ Task.Take → room.new ≡ room.old }
        ensures none { task ≢ Task.Take → result ≡ 0 }
        ensures state { reader_state self.new ≡ reader_state self.old }
        ensures tally { reader_tally self.new ≡ reader_tally self.old }
    {
        match task {
            Task::Take => self.take(room),
            _ => 0,
        }
    }

    /// What it has come to. Nothing is moved.
    fn looked(&self) -> Answer
        ensures state { result.state ≡ reader_state self.now }
        ensures ready { result.ready ≡ length (reader_ready self.now) }
        ensures tally { result.tally ≡ reader_tally self.now }
    {
        Answer {
            state: self.state(),
            ready: self.ready(),
            moved: 0,
            tally: self.tally(),
        }
    }
}
