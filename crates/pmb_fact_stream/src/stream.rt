//! What is known of a capture so far.
//!
//! A `Stream` outlasts the scans of a capture: where a word is no token and reading begins anew, it
//! keeps its places and its counts. What the dropped line said of PAGE, PHASE and VOUT_MODE is not known:
//! these are unknown again where its `Late` says so. So it is where a packet is refused in which devices
//! may have been written to.
//!
//! Its rows: `tests/rows/json_objects.txt`.

ghost use Rattle.std.specs.Prelude.{◌≡◌, ◌+◌, ◌≤◌, ◌++◌, ℕ, List, length, take};
ghost use Rattle.pmb_bus.specs.Text.{EndsBetween, open_word};
ghost use Rattle.pmb_io.specs.Tally.{IsTallyOf};
ghost use Rattle.pmb_json_objects.specs.Head.{head_of};
ghost use Rattle.pmb_json_objects.specs.Sees.{Sees};
ghost use Rattle.pmb_fact_stream.specs.Before.{Before, at_first, drop_line, with_bytes};
ghost use Rattle.pmb_fact_stream.specs.Choice.{choice_data};
ghost use Rattle.pmb_fact_stream.specs.Stream.{IsSame, StreamBegins, StreamKnows, stream_choice, stream_profile, stream_tally, stream_time};
ghost use Rattle.pmb_fact_stream.specs.machine.Begun.{begun_head};
ghost use Rattle.pmb_fact_stream.specs.machine.Knowing.{IsCleared, KeepsSame, KeepsTimes, stream_seen};
ghost use Rattle.pmb_fact_stream.specs.machine.Losing.{IsFresh};
ghost use Rattle.pmb_times.specs.Times.{TimesStandAt};

use crate::choice::Choice;
use crate::front::Front;
use crate::open_time::OpenTime;
use crate::writes::Writes;
use arrayvec::ArrayVec;
use pmb_io::Tally;
use pmb_json_objects::{Counts, Head, Seen};
use pmb_partial_packet::PartialPacket;
use pmb_places::{OpenWord, Place, Places};
use pmb_table::Profile;
use pmb_times::Times;
use pmb_unknown_start::Late;

/// How many STARTs a packet has at most: those of 16 parts, and one more where it is refused.
pub(crate) const STARTS: usize = 17;

/// A START of the packet under way: how many events came before it, and where its word stands.
#[derive(Clone, Copy)]
pub(crate) struct Begun {
    pub(crate) at: u64,
    pub(crate) place: Place,
}

impl Default for Begun {
    /// At the start of a text: what a place of an `ArrayVec` holds that is not in use.
    fn default() -> Begun {
        Begun {
            at: 0,
            place: Place { line: 1, column: 1 },
        }
    }
}

/// The facts of a capture as they come, and what they need of what came before.
#[derive(Drop)]
pub struct Stream<'p> {
    pub(crate) profile: &'p Profile,
    pub(crate) choice: Choice<'p>,
    pub(crate) late: Late<'p>,
    pub(crate) counts: Counts,
    pub(crate) tally: Tally,
    /// How many events came; it stays at the greatest `u64`.
    pub(crate) count: u64,
    pub(crate) places: Places,
    pub(crate) word: OpenWord,
    /// The times of the words since reading began, and that of what is under way.
    pub(crate) times: Times,
    pub(crate) time: OpenTime,
    /// Device, bytes and error code of the unfinished packet, and its STARTs.
    pub(crate) said: PartialPacket,
    pub(crate) begun: ArrayVec<Begun, 17>,
    /// How that packet begins.
    pub(crate) front: Front,
    /// Whether events are passed over, after a refusal.
    pub(crate) passing: bool,
    /// Whether devices were written to in that packet, and in what is passed over.
    pub(crate) writes: Writes,
}

impl<'p> Stream<'p> {
    /// At the start of a capture.
    pub fn new(profile: &'p Profile, choice: Choice<'p>) -> Stream<'p>
        ensures profile { stream_profile result ≡ profile.now }
        ensures choice { stream_choice result ≡ choice_data choice.entry }
        ensures begins { StreamBegins at_first result }
    {
        let Choice {
            digits,
            start,
            devices,
            ignored,
            telling,
        } = choice;
        Stream {
            profile,
            choice: Choice {
                digits,
                start,
                devices,
                ignored,
                telling,
            },
            late: Late::new(profile, start),
            counts: Counts::new(),
            tally: Tally::new(),
            count: 0,
            places: Places::new(),
            word: OpenWord::new(),
            times: Times::new(),
            time: OpenTime::new(),
            said: PartialPacket::new(),
            begun: ArrayVec::new(),
            front: Front::Nothing,
            passing: false,
            writes: Writes::new(),
        }
    }

    /// How many packets came, and how many refusals and words that are no token.
    pub fn tally(&self) -> Tally
        ensures counted { (b : Before) → StreamKnows b self.now → IsTallyOf b.counts.packets (b.counts.refusals + b.counts.bad_tokens) result }
        ensures told { result ≡ stream_tally self.now }
    {
        self.tally
    }

    /// Where a fact begins, which begins with a START of the packet under way.
    pub(crate) fn head(&self, begun: Begun) -> Head<'_>
        ensures { head_of result ≡ begun_head (stream_time self.now) begun }
    {
        self.head_at(begun.at, begun.place)
    }

    /// Where a fact begins of what is under way, by the number of its first event and the place
    /// of that one's word.
    pub(crate) fn head_at(&self, at: u64, place: Place) -> Head<'_>
        ensures { head_of result ≡ record { at = at; place = place; time = stream_time self.now } }
    {
        Head {
            at,
            place,
            time: self.time.time(),
        }
    }

    /// How many bytes of the word under way are kept, at most 32.
    pub fn word_length(&self) -> usize
        ensures kept { (b : Before) → StreamKnows b self.now → result ≡ length (take 32 (open_word b.read)) }
        ensures few { result ≤ 32 }
    {
        self.word.bytes().len()
    }

    /// Takes bytes of the text, of which no event is told.
    #[inline]
    pub fn take_text(&mut self, bytes: &[u8])
        ensures knows { (b : Before) → StreamKnows b self.old → StreamKnows (with_bytes b bytes.now) self.new }
        ensures same { IsSame self.old self.new }
        ensures packet { KeepsSame self.old self.new }
        ensures times { (text : List ℕ) → TimesStandAt self.old.times text → TimesStandAt self.new.times (text ++ bytes.now) }
        ensures kept { self.new.time ≡ self.old.time }
        ensures time { stream_time self.new ≡ stream_time self.old }
    {
        self.places.take(bytes);
        self.word.take(bytes);
        self.times.take(bytes);
    }

    /// Begins anew between two words, behind a line that was dropped: the packet under way is dropped
    /// too, and no time is known, nor what the line did.
    pub fn begin_anew(&mut self)
        ensures begins { (b : Before) → StreamKnows b self.old → EndsBetween b.read → StreamBegins (drop_line b) self.new }
        ensures same { IsSame self.old self.new }
    {
        self.clear();
        self.passing = false;
        self.times = Times::new();
        self.time = OpenTime::new();
        self.late.drop_line();
    }

    /// Forgets the packet under way.
    pub(crate) fn clear(&mut self)
        ensures cleared { IsCleared self.new }
        ensures fresh { IsFresh self.new.writes }
        ensures knows { (b : Before) → StreamKnows b self.old → StreamKnows b self.new }
        ensures same { IsSame self.old self.new }
        ensures passing { self.new.passing ≡ self.old.passing }
        ensures times { KeepsTimes self.old self.new }
    {
        self.said.begin();
        self.begun.clear();
        self.front = Front::Nothing;
        self.writes = Writes::new();
    }

    /// What is known where the next packet begins.
    pub(crate) fn seen(&self) -> Seen<'_>
        ensures { (b : Before) → StreamKnows b self.now → Sees result (stream_seen self.now b) }
    {
        Seen {
            digits: self.choice.digits,
            profile: self.profile,
            late: &self.late,
        }
    }
}
