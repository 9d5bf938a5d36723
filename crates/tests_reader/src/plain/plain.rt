//! A reader that keeps the events of the packet under way, and decides each new one by the rules in
//! words: whether some packet begins so, why none does, and which kinds might have come.

use plain_packets::{is_viable, kinds_after};
use pmb_bus::{Event, Kinds};
use pmb_reader::Refusal;
use pmb_table::Profile;
use pmb_transaction::Reason;
use std::alloc::{AllocError, Global};

/// What an event comes to.
#[derive(Drop)]
pub(crate) enum Read {
    More,
    /// These are the events of a packet.
    Packet(Vec<Event>),
    Refused(Refusal),
}

/// The bytes of the last leg of some events, and which of the legs it is.
#[derive(Clone, Copy)]
struct LastLeg {
    is_first: bool,
    bytes: usize,
    is_read: bool,
}

fn last_leg(events: &[Event]) -> LastLeg {
    let mut starts = 0usize;
    let mut leg = LastLeg {
        is_first: true,
        bytes: 0,
        is_read: false,
    };
    for event in events {
        match event {
            Event::Start => {
                starts = starts.saturating_add(1);
                leg = LastLeg {
                    is_first: starts == 1,
                    bytes: 0,
                    is_read: false,
                };
            }
            Event::Byte(byte) => {
                if leg.bytes == 0 {
                    leg.is_read = *byte % 2 == 1;
                }
                leg.bytes = leg.bytes.saturating_add(1);
            }
            Event::Ack | Event::Nack | Event::Stop => {}
        }
    }
    leg
}

/// Why no packet can have an event there, where these kinds may come.
fn reason(events: &[Event], event: Event, expected: Kinds) -> Reason {
    let leg = last_leg(events);
    match event {
        Event::Byte(_) if expected.contains(Kinds::BYTE) => {
            if leg.bytes > 0 {
                Reason::BadPec
            } else if leg.is_first {
                Reason::ReadFirst
            } else {
                Reason::BadRestart
            }
        }
        Event::Ack if expected == Kinds::NACK => {
            if leg.bytes == 1 {
                Reason::UnknownDevice
            } else if leg.is_read {
                Reason::TooLong
            } else if leg.bytes == 2 {
                Reason::UnknownCommand
            } else {
                Reason::BadPec
            }
        }
        Event::Nack if expected == Kinds::ACK && leg.is_read => Reason::TooShort,
        _ => Reason::WrongEvent,
    }
}

/// The reader.
#[derive(Drop)]
pub(crate) struct PlainReader<'p> {
    alloc: Global,
    profile: &'p Profile,
    /// The events of the packet under way.
    events: Vec<Event>,
    used: u64,
    passing: bool,
}

impl<'p> PlainReader<'p> {
    pub(crate) fn new(alloc: Global, profile: &'p Profile) -> PlainReader<'p> {
        PlainReader {
            alloc,
            profile,
            events: Vec::new(alloc),
            used: 0,
            passing: false,
        }
    }

    fn refusal(&self, event: Event) -> Result<Refusal, AllocError> {
        let expected = kinds_after(self.alloc, self.profile, self.events.as_slice())?;
        Ok(Refusal {
            at: self.used,
            reason: reason(self.events.as_slice(), event, expected),
            expected,
        })
    }

    /// Takes an event. A refused one is not taken.
    pub(crate) fn take(&mut self, event: Event) -> Result<Read, AllocError> {
        if self.passing {
            self.used = self.used.saturating_add(1);
            self.passing = event != Event::Stop;
            return Ok(Read::More);
        }
        let mut longer = Vec::from_slice(self.alloc, self.events.as_slice())?;
        longer.push(event)?;
        if !is_viable(self.alloc, self.profile, longer.as_slice())? {
            return Ok(Read::Refused(self.refusal(event)?));
        }
        self.used = self.used.saturating_add(1);
        if event == Event::Stop {
            self.events = Vec::new(self.alloc);
            return Ok(Read::Packet(longer));
        }
        self.events = longer;
        Ok(Read::More)
    }

    /// Has events passed over up to the next STOP.
    pub(crate) fn resync(&mut self) {
        self.events = Vec::new(self.alloc);
        self.passing = true;
    }

    /// The refusal of an end of the events here.
    pub(crate) fn finish(&self) -> Result<Option<Refusal>, AllocError> {
        if self.events.is_empty() {
            return Ok(None);
        }
        let expected = kinds_after(self.alloc, self.profile, self.events.as_slice())?;
        Ok(Some(Refusal {
            at: self.used,
            reason: Reason::Truncated,
            expected,
        }))
    }
}
