//! Pieces of a capture.
//!
//! Its rows: `tests_reader`, `src/reader/rows.rt`.

ghost use Rattle.std.specs.Prelude.{List};
ghost use Rattle.pmb_command.specs.Parts.{DeviceParts};
ghost use Rattle.pmb_reader.specs.Reader.{Standing, ReaderStandsAt};
ghost use Rattle.pmb_reader.specs.Feed.{ReaderFeeds};

use crate::reader::{Reader, Took};
use crate::refusal::Refusal;
use pmb_bus::Event;
use pmb_packet_state::laws::some_packet_is_under_way;
use pmb_transaction::Transaction;

/// The result of a piece of a capture.
#[derive(Debug, Drop, PartialEq, Eq)]
pub enum Outcome {
    /// All of it is used. A packet may be under way.
    More,
    /// The last event used is the STOP of this packet.
    Packet(Transaction),
    /// The next event is not used: no packet can have it there.
    Refused(Refusal),
}

/// How many events of a piece were used, and the result.
#[derive(Debug, Drop, PartialEq, Eq)]
pub struct Feed {
    /// How many events of the piece were used.
    pub used: usize,
    /// The result of these events.
    pub outcome: Outcome,
}

impl<'p> Reader<'p> {
    /// Takes the next piece of a capture, up to and including the STOP that ends a packet, or up to an
    /// event that no packet can have there, which is not used: the events after `used` are to be given
    /// again.
    ///
    /// While a refusal is held, every call returns it and uses nothing. The transaction is handed
    /// over by value; [`take`](Reader::take) and [`packet`](Reader::packet) lend it.
    pub fn feed(&mut self, events: &[Event]) -> Feed
        ensures { (profile : List DeviceParts) (standing : Standing) → ReaderStandsAt profile self.old standing
            → ReaderFeeds profile standing events.now result.used result.outcome self.new }
    {
        some_packet_is_under_way();
        if let Some(refusal) = self.held() {
            return Feed {
                used: 0,
                outcome: Outcome::Refused(refusal),
            };
        }
        for (i, event) in events.iter().enumerate() {
            match self.take(*event) {
                Took::Continues => {}
                Took::Packet => {
                    return Feed {
                        used: i + 1,
                        outcome: Outcome::Packet(self.take_packet()),
                    };
                }
                Took::Refused(refusal) => {
                    return Feed {
                        used: i,
                        outcome: Outcome::Refused(refusal),
                    };
                }
            }
        }
        Feed {
            used: events.len(),
            outcome: Outcome::More,
        }
    }
}
