//! The events of one message.
//!
//! Its rows: `tests_host`, `src/session.rt`.

ghost use Rattle.std.specs.Prelude.{◌≡◌, ◌+◌, ◌≤◌, ◌++◌, [], IfOk, length};
ghost use Rattle.pmb_message.specs.Tape.{most_events};

use pmb_bus::Event;
use pmb_i2c::Listener;
use std::alloc::{AllocError, Global};
use std::marker::Model;

/// The most events of one message of 8,192 bytes: START, each byte with its ACK or NACK, and STOP.
const MOST_EVENTS: usize = 16388;

/// The events of one message, in order. It has memory for those of the longest one.
#[derive(Drop)]
pub struct Tape {
    events: Vec<Event>,
}

impl Model for Tape {
    ghost use Rattle.std.specs.Prelude.{List, ◌≤◌, length, vec_capacity};
    ghost use Rattle.pmb_bus.specs.declared.event.Event.{Event as BusEvent};
    ghost use Rattle.pmb_message.specs.Tape.{most_events};

    ghost Value = { List BusEvent };

    ghost view = { λ tape. tape.events.items };

    ghost invariant = { λ tape. record { few : length tape.events.items ≤ most_events; memory : most_events ≤ vec_capacity tape.events } };
}

impl Tape {
    /// No events. It takes all the memory that it will ever need.
    pub fn new(alloc: Global) -> Result<Tape, AllocError>
        ensures { IfOk result (λ tape. tape ≡ []) }
    {
        Ok(Tape {
            events: Vec::with_capacity(alloc, MOST_EVENTS)?,
        })
    }

    /// The events.
    pub fn events(&self) -> &[Event]
        ensures all { result.now ≡ self.now }
        ensures few { length result.now ≤ most_events }
    {
        self.events.as_slice()
    }

    /// Drops them.
    pub(crate) fn clear(&mut self)
        ensures { self.new ≡ [] }
    {
        self.events.clear();
    }

    /// Puts events after the others, where there are not too many.
    fn push(&mut self, events: &[Event])
        ensures { length self.old + length events.now ≤ most_events → self.new ≡ self.old ++ events.now }
    {
        if events.len() > MOST_EVENTS - self.events.len() {
            return;
        }
        let _ = self.events.extend_from_slice(events);
    }
}

impl Listener for Tape {
    ghost use Rattle.pmb_message.specs.Tape.{HasTaped};

    ghost HasHeard = { HasTaped };

    fn hear(&mut self, events: &[Event]) {
        self.push(events);
    }
}
