//! What stays from one request to the next.
//!
//! Its rows: `tests/rows/requests.txt`, `tests/rows/sessions.txt`.

ghost use Rattle.std.specs.Prelude.{◌≡◌, ◌↔◌, ℕ, true, List, [], ◌∷◌, ◌++◌, IfOk, OnOk};
ghost use Rattle.pmb_bus.specs.Event.{canonical_text};
ghost use Rattle.pmb_bus.specs.declared.event.Event.{Event as BusEvent};
ghost use Rattle.pmb_transaction.specs.Transaction.{TransactionData};
ghost use Rattle.pmb_registers.specs.State.{InState};
ghost use Rattle.pmb_devices.specs.Signal.{BusStandsAt};
ghost use Rattle.pmb_devices.specs.Runs.{first_members};
ghost use Rattle.pmb_io.specs.Calls.{WriterTells};
ghost use Rattle.pmb_io.specs.Outgoing.{PutsText};
ghost use Rattle.pmb_exchange.specs.Steps.{ExchangeStanding};
ghost use Rattle.pmb_reader.specs.Reader.{IsBetween, ReaderStandsAt, Standing};
ghost use Rattle.pmb_transaction.specs.Reading.{Outcome};
ghost use Rattle.pmb_run.specs.Heard.{HearsAt, HearsMore, ReadsAs};
ghost use Rattle.pmb_run.specs.machine.Bench.{HasRun, HaveHeard, RunsHost, RunsOn, bench_profile};

use pmb_build::put_event;
use pmb_bus::Event;
use pmb_devices::Bus;
use pmb_exchange::{Exchange, ExchangeStep};
use pmb_host::HostStep;
use pmb_io::laws::texts_add_up;
use pmb_io::{RunFault, Sink, Waiting};
use pmb_note::Context;
use pmb_reader::laws::{
    reading_accepts, reading_begins, reading_goes_on, reading_refuses, reading_resumes,
    some_packet_is_read,
};
use pmb_reader::{Reader, Took};
use pmb_table::Profile;
use pmb_table::laws::accepted_bus;
use pmb_transaction::laws::{no_packet_begins_another, one_transaction, passing_goes_on};

/// The simulated devices of a profile, and what the packets on their bus have told.
#[derive(Drop)]
pub struct Bench<'p> {
    profile: &'p Profile,
    /// The devices.
    pub bus: Bus<'p>,
    /// What was recorded is read,
    reader: Reader<'p>,
    /// and what it says of PAGE and VOUT_MODE kept.
    context: Context<'p>,
}

impl<'p> Bench<'p> {
    /// With a bus on which nothing happened.
    pub fn new(profile: &'p Profile, bus: Bus<'p>) -> Bench<'p>
        requires { BusStandsAt bus (record { past = []; members = first_members profile.now; history = [] }) }
        ensures profile { result.profile.now ≡ profile.entry.now }
        ensures begins { HasRun result [] }
        ensures read { ReadsAs result [] [] }
    {
        reading_begins();
        Bench {
            profile,
            bus,
            reader: Reader::new(profile),
            context: Context::new(profile),
        }
    }

    pub(crate) fn profile(&self) -> &'p Profile
        ensures { result ≡ self.now.profile }
    {
        self.profile
    }

    /// Whether the packets so far have ended, and nothing is passed over.
    pub fn is_between(&self) -> bool
        ensures { (standing : Standing) → ReaderStandsAt (bench_profile self.now) self.now.reader standing
            → (result ≡ true) ↔ IsBetween standing }
    {
        self.reader.is_between()
    }

    /// Reads events that no request caused, and keeps what their packets tell. After one that no packet can
    /// have there, those up to the next STOP are passed over.
    pub fn overhear(&mut self, events: &[Event])
        ensures profile { self.new.profile ≡ self.old.profile }
        ensures bus { self.new.bus ≡ self.old.bus }
        ensures reads { (before : List BusEvent) (outcomes : List Outcome) → ReadsAs self.old before outcomes
            → (more : List Outcome) × ReadsAs self.new (before ++ events.now) (outcomes ++ more) }

        // Wherever the last call left the reader, the events are read from there.
        ensures reads_on { (place : Standing) (ts : List TransactionData) → HearsAt self.old place ts
            → HearsMore self.new place ts events.now }
    {
        for event in events {
            self.overhear_one(*event);
        }
    }

    /// Reads one event.
    fn overhear_one(&mut self, event: Event)
        ensures profile { self.new.profile ≡ self.old.profile }
        ensures bus { self.new.bus ≡ self.old.bus }
        ensures reads { (before : List BusEvent) (outcomes : List Outcome) → ReadsAs self.old before outcomes
            → (more : List Outcome) × ReadsAs self.new (before ++ event ∷ []) (outcomes ++ more) }
        ensures reads_on { (place : Standing) (ts : List TransactionData) → HearsAt self.old place ts
            → HearsMore self.new place ts (event ∷ []) }
    {
        reading_goes_on();
        reading_accepts();
        reading_refuses();
        reading_resumes();
        passing_goes_on();
        match self.reader.take(event) {
            Took::Continues => {}
            Took::Packet => self.context.observe(self.reader.packet()),
            Took::Refused(_) => {
                self.reader.resync();
                let _ = self.reader.take(event);
            }
        }
    }

    /// What the packets so far have told of PAGE and VOUT_MODE.
    pub(crate) fn context(&self) -> &Context<'p>
        ensures { result.now ≡ self.now.context }
    {
        &self.context
    }

    /// Has the host of an exchange send its next signal, puts out the events that are recorded and reads
    /// them; or returns how the host ended.
    pub(crate) fn next<W: Sink>(
        &mut self,
        exchange: &mut Exchange<'p>,
        waiting: &mut Waiting,
        writer: &mut W,
    ) -> Result<Option<HostStep>, RunFault>
        ensures profile { self.new.profile ≡ self.old.profile }
        ensures runs { (members : List InState) (ts : List TransactionData) (standing : ExchangeStanding)
            → RunsHost members ts self.old exchange.old standing
            → IfOk result (λ end. RunsOn members ts standing end self.new exchange.new (W.told writer.old).held waiting.old.items (W.told writer.new).held waiting.new.items) }
        ensures failed { WriterTells (W.told writer.old) (W.told writer.new) result }
    {
        texts_add_up();
        match exchange.next(&mut self.bus) {
            ExchangeStep::Recorded(recorded) => {
                put_events(recorded.events(), waiting, writer)?;
                self.hear(recorded.events());
                Ok(None)
            }
            ExchangeStep::End(end) => Ok(Some(end)),
        }
    }

    /// Reads events, and keeps what their packets tell.
    fn hear(&mut self, events: &[Event])
        ensures profile { self.new.profile ≡ self.old.profile }
        ensures bus { self.new.bus ≡ self.old.bus }
        ensures heard { (ts : List TransactionData) (n : ℕ) (before : List BusEvent) → HaveHeard self.old ts n before
            → HaveHeard self.new ts n (before ++ events.now) }
    {
        accepted_bus(self.profile);
        some_packet_is_read();
        one_transaction();
        no_packet_begins_another();
        for event in events {
            match self.reader.take(*event) {
                Took::Packet => self.context.observe(self.reader.packet()),
                Took::Continues | Took::Refused(_) => {}
            }
        }
    }
}

/// Puts out the canonical text of events.
fn put_events<W: Sink>(
    events: &[Event],
    waiting: &mut Waiting,
    writer: &mut W,
) -> Result<(), RunFault>
    ensures writes { OnOk result (PutsText (W.told writer.old).held waiting.old.items (W.told writer.new).held waiting.new.items (canonical_text events.now)) }
    ensures failed { WriterTells (W.told writer.old) (W.told writer.new) result }
{
    texts_add_up();
    for event in events {
        put_event(*event, waiting, writer)?;
    }
    Ok(())
}
