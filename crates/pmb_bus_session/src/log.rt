//! Text that is taken in the order in which it came.
//!
//! Its rows: `tests_host`, `src/session.rt`.

ghost use Rattle.std.specs.Prelude.{◌≡◌, ◌+◌, ◌*◌, ◌≤◌, ◌++◌, [], drop, take, length, min, OnOk};
ghost use Rattle.pmb_bus.specs.Event.{canonical_text, text_of};

use pmb_bus::{Event, event_text};
use std::alloc::{AllocError, Global};
use std::marker::Model;

/// Text that is taken in the order in which it came.
#[derive(Drop)]
pub(crate) struct Log {
    text: Vec<u8>,
    /// How much of it was taken.
    taken: usize,
}

impl Model for Log {
    ghost use Rattle.pmb_bus_session.specs.Log.{LogData};
    ghost use Rattle.std.specs.Prelude.{◌-◌, ◌≤◌, drop, length, vec_capacity, vec_len};

    ghost Value = { LogData };

    ghost view = { λ log. record { left = drop log.taken log.text.items; taken = log.taken; room = vec_capacity log.text - vec_len log.text } };

    ghost invariant = { λ log. log.taken ≤ length log.text.items };
}

impl Log {
    /// No text. It takes no memory.
    pub(crate) fn new(alloc: Global) -> Log
        ensures left { result.left ≡ [] }
        ensures taken { result.taken ≡ 0 }
    {
        Log {
            text: Vec::new(alloc),
            taken: 0,
        }
    }

    /// How much of it was not taken.
    pub(crate) fn len(&self) -> usize
        ensures { result ≡ length self.now.left }
    {
        self.text.len() - self.taken
    }

    /// Makes room for so many bytes more, and drops text that was taken: no more of it is kept than is left.
    ///
    /// # Errors
    ///
    /// There was no memory.
    pub(crate) fn reserve(&mut self, more: usize) -> Result<(), AllocError>
        ensures room { OnOk result (more ≤ self.new.room) }
        ensures left { self.new.left ≡ self.old.left }
        ensures few { self.new.taken ≤ length self.new.left }
    {
        self.drop_taken();
        self.text.reserve(more)
    }

    /// Moves the text that is left to the front, where at least as much was taken: so each byte is moved
    /// once for one that was taken.
    fn drop_taken(&mut self)
        ensures left { self.new.left ≡ self.old.left }
        ensures few { self.new.taken ≤ length self.new.left }
    {
        let all = self.text.len();
        let left = all - self.taken;
        if self.taken < left {
            return;
        }
        self.text.copy_within(self.taken..all, 0);
        self.text.truncate(left);
        self.taken = 0;
    }

    /// Puts the text of events after what is left. There has to be room for it, three bytes an event.
    pub(crate) fn push_events(&mut self, events: &[Event])
        requires { 3 * length events.now ≤ self.old.room }
        ensures left { self.new.left ≡ self.old.left ++ canonical_text events.now }
        ensures taken { self.new.taken ≡ self.old.taken }
    {
        for event in events {
            self.push_event(*event);
        }
    }

    /// Puts the text of one event after what is left.
    fn push_event(&mut self, event: Event)
        requires { 3 ≤ self.old.room }
        ensures left { self.new.left ≡ self.old.left ++ text_of event }
        ensures taken { self.new.taken ≡ self.old.taken }
        ensures room { self.old.room ≤ self.new.room + 3 }
    {
        let _ = self.text.extend_from_slice(event_text(event).as_bytes());
    }

    /// Puts text after what is left. There has to be room for it.
    pub(crate) fn push_text(&mut self, text: &[u8])
        requires { length text.now ≤ self.old.room }
        ensures left { self.new.left ≡ self.old.left ++ text.now }
        ensures taken { self.new.taken ≡ self.old.taken }
    {
        let _ = self.text.extend_from_slice(text);
    }

    /// Moves the oldest text to the front of a room, as far as it fits, and returns how many bytes.
    pub(crate) fn take(&mut self, room: &mut [u8]) -> usize
        ensures count { result ≡ min (length self.old.left) (length room.old) }
        ensures room { room.new ≡ take result self.old.left ++ drop result room.old }
        ensures left { self.new.left ≡ drop result self.old.left }
        ensures taken { self.new.taken ≡ self.old.taken + result }
    {
        let left = self.text.len() - self.taken;
        let count = left.min(room.len());
        let end = self.taken + count;
        room[..count].copy_from_slice(&self.text[self.taken..end]);
        self.taken = end;
        count
    }
}
