//! A writer into a room.
ghost use Rattle.std.specs.Prelude.{◌≡◌, ◌-◌, ◌^◌, min, length};
ghost use Rattle.pmb_in_memory.specs.Laid.{laid};

use crate::buffer_id::BufferId;
use crate::written::Written;
use pmb_io::{IoFault, Sink};
use std::marker::PhantomData;

/// A room that was written into.
#[derive(Drop)]
pub struct Filled<'r> {
    pub room: &'r mut [u8],
    /// How many bytes were written, also those that didn't fit; at most the greatest `usize`.
    pub count: usize,
}

/// A room that bytes are written into from its start. What doesn't fit is counted, and not kept, so
/// that no write fails.
#[derive(Drop)]
pub struct Room<'r, P: BufferId> {
    room: &'r mut [u8],
    /// How many bytes were written; stays at the greatest `usize`.
    count: usize,
    written: Written,
    place: PhantomData<P>,
    ghost same: { room.ghost_name ≡ P.name },
    ghost kept: { room.now ≡ laid written.bytes P.before },
    ghost counted: { count ≡ min (length written.bytes) (2 ^ 64 - 1) },
}

impl<'r, P: BufferId> Room<'r, P> {
    ghost use Rattle.std.specs.Prelude.{[]};
    ghost use Rattle.pmb_in_memory.specs.Room.{room_bytes, room_written};

    /// Nothing is written into the room yet.
    pub fn new(room: &'r mut [u8]) -> Room<'r, P>
        requires same { room.ghost_name ≡ P.name }
        requires before { room.old ≡ P.before }
        ensures { room_written result ≡ [] }
    {
        Room {
            room,
            count: 0,
            written: Written::new(),
            place: PhantomData,
        }
    }

    /// How many bytes the room has.
    fn capacity(&self) -> usize
        ensures { result ≡ length (room_bytes self.now) }
    {
        self.room.len()
    }

    /// Gives the room back, with how many bytes were written.
    pub fn into_filled(self) -> Filled<'r>
        ensures same { result.room.ghost_name ≡ P.name }
        ensures room { result.room.now ≡ laid (room_written self.entry) P.before }
        ensures count { result.count ≡ min (length (room_written self.entry)) (2 ^ 64 - 1) }
    {
        let Room { room, count, .. } = self;
        Filled { room, count }
    }
}

impl<'r, P: BufferId> Sink for Room<'r, P> {
    ghost use Rattle.std.specs.Prelude.{Some};

    ghost told = { λ room. record { held = Some room.written.bytes; failures = 0 } };

    fn write_all(&mut self, bytes: &[u8]) -> Result<(), IoFault> {
        let room = self.capacity();
        let kept = self.count.min(room);
        let fits = bytes.len().min(room - kept);
        self.room[kept..kept + fits].copy_from_slice(&bytes[..fits]);
        self.written.append(bytes);
        self.count = self.count.saturating_add(bytes.len());
        Ok(())
    }
}
