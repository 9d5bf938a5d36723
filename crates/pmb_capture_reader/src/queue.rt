//! Bytes that are taken in the order in which they came.
//!
//! Its rows: `tests_tasks`, `src/capture_reader.rt`.

ghost use Rattle.std.specs.Prelude.{◌≡◌, ◌+◌, ◌≤◌, ◌++◌, [], drop, take, length, min, OnOk, OnErr};

use std::alloc::{AllocError, Global};
use std::marker::Model;
use std::mem::swap;

/// Bytes that are taken in the order in which they came.
#[derive(Drop)]
pub(crate) struct Queue {
    bytes: Vec<u8>,
    /// How many of them were taken.
    taken: usize,
}

impl Model for Queue {
    ghost use Rattle.pmb_capture_reader.specs.Queue.{QueueData};
    ghost use Rattle.std.specs.Prelude.{◌≤◌, drop, length};

    ghost Value = { QueueData };

    ghost view = { λ q. record { left = drop q.taken q.bytes.items; taken = q.taken } };

    ghost invariant = { λ q. q.taken ≤ length q.bytes.items };
}

impl Queue {
    /// No bytes. It takes no memory.
    pub(crate) fn new(alloc: Global) -> Queue
        ensures left { result.left ≡ [] }
        ensures taken { result.taken ≡ 0 }
    {
        Queue {
            bytes: Vec::new(alloc),
            taken: 0,
        }
    }

    /// How many bytes are left.
    pub(crate) fn len(&self) -> usize
        ensures { result ≡ length self.now.left }
    {
        self.bytes.len() - self.taken
    }

    /// Puts bytes after those that are left, and drops bytes that were taken: no more of them are kept than are
    /// left. What is in `more` afterwards is of no use.
    ///
    /// # Errors
    ///
    /// There was no memory. What is left stays as it was.
    pub(crate) fn append(&mut self, more: &mut Vec<u8>) -> Result<(), AllocError>
        ensures ok { OnOk result (self.new.left ≡ self.old.left ++ more.old.items) }
        ensures err { OnErr result (self.new.left ≡ self.old.left) }
        ensures few { self.new.taken ≤ length self.new.left }
    {
        if self.taken == self.bytes.len() {
            swap(&mut self.bytes, more);
            self.taken = 0;
            return Ok(());
        }
        self.drop_taken();
        self.bytes.extend_from_slice(more.as_slice())
    }

    /// Moves the bytes that are left to the front, where at least as many were taken: so each byte is
    /// moved once for one that was taken.
    fn drop_taken(&mut self)
        ensures left { self.new.left ≡ self.old.left }
        ensures few { self.new.taken ≤ length self.new.left }
    {
        let all = self.bytes.len();
        let left = all - self.taken;
        if self.taken < left {
            return;
        }
        self.bytes.copy_within(self.taken..all, 0);
        self.bytes.truncate(left);
        self.taken = 0;
    }

    /// Moves the oldest bytes to the front of a room, as far as they fit, and returns how many.
    pub(crate) fn take(&mut self, room: &mut [u8]) -> usize
        ensures count { result ≡ min (length self.old.left) (length room.old) }
        ensures room { room.new ≡ take result self.old.left ++ drop result room.old }
        ensures left { self.new.left ≡ drop result self.old.left }
        ensures taken { self.new.taken ≡ self.old.taken + result }
    {
        let count = self.len().min(room.len());
        let end = self.taken + count;
        room[..count].copy_from_slice(&self.bytes[self.taken..end]);
        self.taken = end;
        count
    }
}
