//! A reader beside one that decides by the rules in words.

use crate::plain::plain::{PlainReader, Read};
use plain_packets::{NoPacket, packet};
use pmb_bus::Event;
use pmb_reader::{Reader, Took};
use pmb_table::Profile;
use std::alloc::{AllocError, Global};

/// Both readers of a capture.
#[derive(Drop)]
pub(crate) struct Compared<'p> {
    alloc: Global,
    profile: &'p Profile,
    plain: PlainReader<'p>,
    reader: Reader<'p>,
}

impl<'p> Compared<'p> {
    pub(crate) fn new(alloc: Global, profile: &'p Profile) -> Compared<'p> {
        Compared {
            alloc,
            profile,
            plain: PlainReader::new(alloc, profile),
            reader: Reader::new(profile),
        }
    }

    /// Whether the reader read the transaction whose packet these events are.
    fn has_read(&self, events: &[Event]) -> Result<bool, AllocError> {
        match packet(self.alloc, self.profile, self.reader.packet()) {
            Ok(told) => Ok(told.as_slice() == events),
            Err(NoPacket::AgainstTheRules) => Ok(false),
            Err(NoPacket::Memory) => Err(AllocError),
        }
    }

    /// Has both continue after a refusal that the reader holds, the refused event first.
    fn go_on(&mut self, event: Event) -> Result<bool, AllocError> {
        self.reader.resync();
        self.plain.resync();
        let read = self.plain.take(event)?;
        Ok(matches!(read, Read::More) && self.reader.take(event) == Took::Continues)
    }

    /// Hands an event to both, and tells whether they answer alike. A refusal is asked for again,
    /// and passed over.
    pub(crate) fn take(&mut self, event: Event) -> Result<bool, AllocError> {
        let took = self.reader.take(event);
        match self.plain.take(event)? {
            Read::More => Ok(took == Took::Continues),
            Read::Packet(events) => Ok(took == Took::Packet && self.has_read(events.as_slice())?),
            Read::Refused(refusal) => {
                let again = self.reader.take(event);
                let held = Took::Refused(refusal);
                if took != held || again != held || self.reader.finish() != Err(refusal) {
                    return Ok(false);
                }
                self.go_on(event)
            }
        }
    }

    /// Whether both answer alike at the end of the events.
    pub(crate) fn ends_alike(&self) -> Result<bool, AllocError> {
        Ok(self.reader.finish().err() == self.plain.finish()?)
    }
}

/// The place of the first event to which the readers answer differently, or, among the first few,
/// after which they end differently.
pub(crate) fn first_difference(
    alloc: Global,
    profile: &Profile,
    events: &[Event],
    ends: usize,
) -> Result<Option<usize>, AllocError> {
    let mut compared = Compared::new(alloc, profile);
    for (place, event) in events.iter().enumerate() {
        if !compared.take(*event)? || place < ends && !compared.ends_alike()? {
            return Ok(Some(place));
        }
    }
    Ok(None)
}
