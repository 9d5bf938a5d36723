//! A capture that comes in pieces.
//!
//! Its rows: `tests_reader`, `src/counts/counted.rt`.

ghost use Rattle.std.specs.Prelude.{◌≡◌, ◌≢◌, ◌<◌, ◌≤◌, List, [], ◌++◌, length, take};
ghost use Rattle.pmb_bus.specs.Count.{capped};
ghost use Rattle.pmb_bus.specs.declared.event.Event.{Event as BusEvent};
ghost use Rattle.pmb_command.specs.Bus.{IsBus};
ghost use Rattle.pmb_command.specs.Parts.{DeviceParts};
ghost use Rattle.pmb_transaction.specs.Capture.{Capture};
ghost use Rattle.pmb_transaction.specs.Reading.{Outcome, Reading};
ghost use Rattle.pmb_transaction.specs.Transaction.{TransactionData};
ghost use Rattle.pmb_reader.specs.Reading.{AnyEvent, HasRead};
ghost use Rattle.pmb_count.specs.Count.{IsAdded, IsCountOf};
ghost use Rattle.pmb_count.specs.Counter.{HasCounted, HasReadSome, IsCounting};

use crate::capture_counts::CaptureCounts;
use pmb_bus::Event;
use pmb_reader::laws::{
    captures_are_read_back, pieces_are_accepted, pieces_are_refused, pieces_go_on, reading_begins,
    reading_ends, reading_goes_on, reading_is_truncated, reading_resumes,
};
use pmb_reader::{Outcome as Answer, Reader, Took};
use pmb_table::Profile;

/// How many events at a piece's front were used, and the result.
#[derive(Clone, Copy)]
pub(crate) struct Fed {
    pub(crate) used: usize,
    pub(crate) took: Took,
}

/// Hands a piece to a reader that holds no refusal, up to and including a STOP that ends a packet, or an
/// event that is refused. Reading continues after that, which is passed over.
pub(crate) fn feed_on(reader: &mut Reader, piece: &[Event]) -> Fed
    requires { HasReadSome reader.old }
    ensures within { result.used ≤ length piece.now }
    ensures some { piece.now ≢ [] → 0 < result.used }
    ensures reads { (profile : List DeviceParts) (events : List BusEvent) (outcomes : List Outcome)
        → HasRead profile reader.old events AnyEvent outcomes
        → ((added : List Outcome) × IsAdded result.took added
        × HasRead profile reader.new (events ++ take result.used piece.now) AnyEvent (outcomes ++ added)) }
{
    pieces_go_on();
    pieces_are_accepted();
    pieces_are_refused();
    reading_resumes();
    reading_goes_on();
    let fed = reader.feed(piece);
    let used = fed.used;
    match fed.outcome {
        Answer::More => Fed {
            used,
            took: Took::Continues,
        },
        Answer::Packet(_) => Fed {
            used,
            took: Took::Packet,
        },
        Answer::Refused(refusal) => {
            let event = piece[used];
            reader.resync();
            let _ = reader.take(event);
            Fed {
                used: used + 1,
                took: Took::Refused(refusal),
            }
        }
    }
}

/// CaptureCounts the packets and refusals of a capture that comes in pieces, cut anywhere.
#[derive(Drop)]
pub struct Counter<'p> {
    reader: Reader<'p>,
    so_far: CaptureCounts,
}

impl<'p> Counter<'p> {
    /// Nothing has come.
    pub fn new(profile: &'p Profile) -> Self
        ensures { HasCounted profile.now result [] }
    {
        reading_begins();
        Counter {
            reader: Reader::new(profile),
            so_far: CaptureCounts {
                packets: 0,
                refusals: 0,
            },
        }
    }

    /// The next piece of the capture, of any length. Another one may follow.
    pub fn feed(&mut self, piece: &[Event])
        requires { IsCounting self.old }
        ensures counting { IsCounting self.new }
        ensures counted { (profile : List DeviceParts) (events : List BusEvent) → HasCounted profile self.old events
            → HasCounted profile self.new (events ++ piece.now) }
    {
        let mut at = 0;
        while at < piece.len() {
            let fed = feed_on(&mut self.reader, &piece[at..]);
            at += fed.used;
            self.so_far = self.so_far.add(fed.took);
        }
    }

    /// The packets and refusals of what the pieces read as, end to end: of the capture of
    /// transactions as many packets, and no refusal.
    pub fn finish(&self) -> CaptureCounts
        ensures reads { (profile : List DeviceParts) (events : List BusEvent) → HasCounted profile self.now events
            → ((outcomes : List Outcome) × Reading profile events outcomes × IsCountOf result outcomes) }
        ensures written { (profile : List DeviceParts) (ts : List TransactionData) (events : List BusEvent) → IsBus profile
            → Capture profile ts events → HasCounted profile self.now events
            → (result.packets ≡ capped (length ts)) × (result.refusals ≡ 0) }
    {
        reading_ends();
        reading_is_truncated();
        captures_are_read_back();
        match self.reader.finish() {
            Ok(()) => self.so_far,
            Err(refusal) => self.so_far.add(Took::Refused(refusal)),
        }
    }
}
