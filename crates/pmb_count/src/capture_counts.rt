//! A whole capture.
//!
//! Its rows: `tests_reader`, `src/counts/counted.rt`.

ghost use Rattle.std.specs.Prelude.{List, ◌++◌};
ghost use Rattle.pmb_transaction.specs.Reading.{Outcome, Reading};
ghost use Rattle.pmb_count.specs.Count.{IsAdded, IsCountOf};

use crate::one::take_on;
use pmb_bus::Event;
use pmb_reader::laws::{reading_begins, reading_ends, reading_is_truncated};
use pmb_reader::{Reader, Took};
use pmb_table::Profile;

/// How many packets and refusals events read as; each stays at the greatest `u64`.
#[derive(Clone, Copy, Debug, PartialEq, Eq)]
pub struct CaptureCounts {
    /// Packets.
    pub packets: u64,
    /// Refusals, the truncation of a packet at the end among them.
    pub refusals: u64,
}

impl CaptureCounts {
    // One outcome more, or none.
    pub(crate) fn add(self, took: Took) -> CaptureCounts
        ensures { (outcomes added : List Outcome) → IsCountOf self outcomes → IsAdded took added → IsCountOf result (outcomes ++ added) }
    {
        match took {
            Took::Continues => self,
            Took::Packet => CaptureCounts {
                packets: self.packets.saturating_add(1),
                refusals: self.refusals,
            },
            Took::Refused(_) => CaptureCounts {
                packets: self.packets,
                refusals: self.refusals.saturating_add(1),
            },
        }
    }
}

/// CaptureCounts the packets and refusals of a capture: those of what its events read as.
pub fn count(profile: &Profile, events: &[Event]) -> CaptureCounts
    ensures { (outcomes : List Outcome) × Reading profile.now events.now outcomes × IsCountOf result outcomes }
{
    reading_begins();
    reading_ends();
    reading_is_truncated();
    let mut reader = Reader::new(profile);
    let mut so_far = CaptureCounts {
        packets: 0,
        refusals: 0,
    };
    for event in events {
        so_far = so_far.add(take_on(&mut reader, *event));
    }
    match reader.finish() {
        Ok(()) => so_far,
        Err(refusal) => so_far.add(Took::Refused(refusal)),
    }
}
