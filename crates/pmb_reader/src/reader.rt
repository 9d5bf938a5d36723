//! Reads packets.
//!
//! A [`Reader`] is between packets or inside one, or it holds a refusal, or it passes events over
//! up to the next STOP. The packet under way is a [`PacketState`], which alone knows what a packet
//! is; here events are counted and refusals are kept.
//!
//! Its rows: `tests_reader`, `src/reader/rows.rt`, `src/plain` and `src/counts/large.rt`;
//! `tests/rows/captures.txt`.

ghost use Rattle.std.specs.Prelude.{◌≡◌, ◌<◌, ◌≤◌, ◌↔◌, ◌+◌, ℕ, IfSome, IsSome, None, List, [], length, true};
ghost use Rattle.pmb_bus.specs.declared.event.Event.{Event as BusEvent};
ghost use Rattle.pmb_bus.specs.Kinds.{AreKindsOf};
ghost use Rattle.pmb_command.specs.Parts.{DeviceParts};
ghost use Rattle.pmb_canonical.specs.Canonical.{BeginsWithPacket, TakesPacket};
ghost use Rattle.pmb_transaction.specs.Capture.{MayFollow};
ghost use Rattle.pmb_transaction.specs.Reading.{RefusedAt};
ghost use Rattle.pmb_transaction.specs.Transaction.{transaction_data};
ghost use Rattle.pmb_reader.specs.Refusal.{refusal_data};
ghost use Rattle.pmb_reader.specs.Reader.{Standing, Open, Held, Passing, ReaderStandsAt, CanCome, ReaderFinishes, IsBetween, IsHeldAt, ReaderTakes, behind_passed, behind_resync, last_read};

use crate::refusal::Refusal;
use pmb_bus::{Event, Kinds};
use pmb_canonical::{CanonicalReader, TakenPacket};
use pmb_packet_state::{Move, PacketState};
use pmb_table::Profile;
use pmb_transaction::{Reason, Transaction};

/// The result of one event.
#[derive(Clone, Copy, Debug, PartialEq, Eq)]
pub enum Took {
    /// It was used, and the packet continues.
    Continues,
    /// It was used, and ends the packet of [`Reader::packet`].
    Packet,
    /// It was not used: no packet can have this event here.
    Refused(Refusal),
}

/// What a reader does with events.
#[derive(Clone, Copy)]
pub(crate) enum Mode {
    /// It reads a packet.
    Open,
    /// It holds a refusal.
    Held(Refusal),
    /// It passes them over up to the next STOP.
    Passing,
}

/// Reads the packets of a profile's devices from the events of a capture.
#[derive(Drop)]
pub struct Reader<'p> {
    under_way: PacketState<'p>,
    /// How many events were used since `new`; stays at the greatest `u64`.
    used: u64,
    mode: Mode,
}

impl<'p> Reader<'p> {
    /// A reader at the start of a capture.
    pub fn new(profile: &'p Profile) -> Self
        ensures { ReaderStandsAt profile.now result (Open 0 []) }
    {
        Reader {
            under_way: PacketState::new(profile),
            used: 0,
            mode: Mode::Open,
        }
    }

    /// The profile whose packets it reads.
    #[inline(always)]
    pub fn profile(&self) -> &'p Profile
        ensures { (profile : List DeviceParts) (standing : Standing) → ReaderStandsAt profile self.now standing
            → result.now ≡ profile }
    {
        self.under_way.profile()
    }

    /// Takes one event.
    ///
    /// While a refusal is held, every call returns it and uses nothing.
    #[inline(always)]
    pub fn take(&mut self, event: Event) -> Took
        ensures { (profile : List DeviceParts) (standing : Standing) → ReaderStandsAt profile self.old standing
            → ReaderTakes profile standing event result self.new }
    {
        match self.mode {
            Mode::Open => self.read(event),
            Mode::Held(refusal) => Took::Refused(refusal),
            Mode::Passing => {
                self.pass(event);
                Took::Continues
            }
        }
    }

    /// The transaction of the packet that the last event taken ended: to be asked for directly
    /// after [`Took::Packet`]. While a packet is under way, and where none ended yet, it means
    /// nothing.
    #[inline]
    pub fn packet(&self) -> &Transaction
        ensures { transaction_data result.now ≡ last_read self.now }
    {
        self.under_way.packet()
    }

    /// Gives away the transaction whose packet ended last.
    pub(crate) fn take_packet(&mut self) -> Transaction
        ensures read { transaction_data result ≡ last_read self.old }
        ensures stands { (profile : List DeviceParts) (n : ℕ) → ReaderStandsAt profile self.old (Open n [])
            → ReaderStandsAt profile self.new (Open n []) }
    {
        self.under_way.take_packet()
    }

    /// The refusal that is held.
    pub(crate) fn held(&self) -> Option<Refusal>
        ensures { (profile : List DeviceParts) (standing : Standing) → ReaderStandsAt profile self.now standing
            → IsHeldAt standing result }
    {
        match self.mode {
            Mode::Held(refusal) => Some(refusal),
            Mode::Open | Mode::Passing => None,
        }
    }

    /// The kinds of the events that some packet can have next; none while a refusal is held, and
    /// all while events are passed over.
    pub fn expected(&self) -> Kinds
        ensures { (profile : List DeviceParts) (standing : Standing) → ReaderStandsAt profile self.now standing
            → AreKindsOf (CanCome profile standing) result }
    {
        match self.mode {
            Mode::Open => self.under_way.expected(),
            Mode::Held(_) => Kinds::empty(),
            Mode::Passing => Kinds::all(),
        }
    }

    /// Whether it stands between two packets: no packet is under way, no refusal is held, and no
    /// event is passed over.
    #[inline(always)]
    pub fn is_between(&self) -> bool
        ensures { (profile : List DeviceParts) (standing : Standing) → ReaderStandsAt profile self.now standing
            → (result ≡ true) ↔ IsBetween standing }
    {
        match self.mode {
            Mode::Open => self.under_way.is_between(),
            Mode::Held(_) | Mode::Passing => false,
        }
    }

    /// Takes the canonical packet at the front of a text whole, between two packets. It returns `None`
    /// where none lies there and where it doesn't stand between two packets, and stands where it
    /// stood.
    #[inline(always)]
    pub fn take_canonical(
        &mut self,
        canonical: &mut CanonicalReader,
        text: &[u8],
    ) -> Option<TakenPacket>
        ensures takes { (profile : List DeviceParts) (n : ℕ) → ReaderStandsAt profile self.old (Open n [])
            → IfSome result (λ taken. TakesPacket profile text.now taken.used taken.events (last_read self.new)) }
        ensures some { IfSome result (λ taken. 0 < taken.used) }
        ensures within { IfSome result (λ taken. taken.used ≤ length text.now) }
        ensures stands { (profile : List DeviceParts) (n : ℕ) → ReaderStandsAt profile self.old (Open n [])
            → IfSome result (λ taken. ReaderStandsAt profile self.new (Open (n + taken.events) [])) }
        ensures same { (profile : List DeviceParts) (n : ℕ) → ReaderStandsAt profile self.old (Open n []) → result ≡ None
            → ReaderStandsAt profile self.new (Open n []) }

        // Between two packets a canonical packet that lies whole in front is taken.
        ensures answers { (profile : List DeviceParts) (standing : Standing) → ReaderStandsAt profile self.old standing
            → (IsSome result ↔ (IsBetween standing × BeginsWithPacket profile text.now)) }
        ensures elsewhere { (profile : List DeviceParts) (standing : Standing) → ReaderStandsAt profile self.old standing
            → ¬ (IsBetween standing) → self.new ≡ self.old }
    {
        let Mode::Open = self.mode else {
            return None;
        };
        let taken = self.under_way.take_canonical(canonical, text)?;
        self.used = self.used.saturating_add(taken.events as u64);
        Some(taken)
    }

    /// The end of the capture.
    ///
    /// # Errors
    ///
    /// The refusal that is held, or, inside a packet, that it is truncated.
    pub fn finish(&self) -> Result<(), Refusal>
        ensures { (profile : List DeviceParts) (standing : Standing) → ReaderStandsAt profile self.now standing
            → ReaderFinishes profile standing result }
    {
        match self.mode {
            Mode::Open => {
                if self.under_way.is_between() {
                    Ok(())
                } else {
                    Err(Refusal {
                        at: self.used,
                        reason: Reason::Truncated,
                        expected: self.under_way.expected(),
                    })
                }
            }
            Mode::Held(refusal) => Err(refusal),
            Mode::Passing => Ok(()),
        }
    }

    /// Goes on after a refusal: the events up to and including the next STOP, the refused one among
    /// them, are passed over. Where no refusal is held nothing changes.
    pub fn resync(&mut self)
        ensures resumes { (profile : List DeviceParts) (standing : Standing) → ReaderStandsAt profile self.old standing
            → ReaderStandsAt profile self.new (behind_resync standing) }
        ensures idle { (profile : List DeviceParts) (standing : Standing) → ReaderStandsAt profile self.old standing
            → IsHeldAt standing None → self.new ≡ self.old }
        ensures lent { last_read self.new ≡ last_read self.old }
    {
        if let Mode::Held(_) = self.mode {
            self.mode = Mode::Passing;
        }
    }

    // Takes an event of a packet.
    #[inline(always)]
    fn read(&mut self, event: Event) -> Took
        ensures { (profile : List DeviceParts) (n : ℕ) (events : List BusEvent) → ReaderStandsAt profile self.old (Open n events)
            → ReaderTakes profile (Open n events) event result self.new }
    {
        match self.under_way.step(event) {
            Move::On => {
                self.used = self.used.saturating_add(1);
                Took::Continues
            }
            Move::Packet => {
                self.used = self.used.saturating_add(1);
                Took::Packet
            }
            Move::Refused => Took::Refused(self.refuse(event)),
        }
    }

    // Refuses an event, and holds that.
    #[inline(never)]
    fn refuse(&mut self, event: Event) -> Refusal
        ensures { (profile : List DeviceParts) (n : ℕ) (events : List BusEvent) → ReaderStandsAt profile self.old (Open n events)
            → (MayFollow profile events event → ⊥) → RefusedAt profile n events event (refusal_data result)
            × ReaderStandsAt profile self.new (Held (n + length events) (refusal_data result)) }
    {
        let refusal = Refusal {
            at: self.used,
            reason: self.under_way.reason(event),
            expected: self.under_way.expected(),
        };
        self.under_way.restart();
        self.mode = Mode::Held(refusal);
        refusal
    }

    // Passes an event over.
    #[inline]
    fn pass(&mut self, event: Event)
        ensures { (profile : List DeviceParts) (n : ℕ) → ReaderStandsAt profile self.old (Passing n)
            → ReaderStandsAt profile self.new (behind_passed n event) }
    {
        self.used = self.used.saturating_add(1);
        if let Event::Stop = event {
            self.mode = Mode::Open;
        }
    }
}
