//! From what the wires are given to packets: spikes are dropped, changes told, packets put together.

ghost use Rattle.std.specs.Prelude.{◌≡◌, OnOk};
ghost use Rattle.pmb_io.specs.Calls.{WriterTells};
ghost use Rattle.pmb_io.specs.Outgoing.{PutsText};
ghost use Rattle.pmb_wire_packets.specs.machine.Wired.{break_off as break_step, change as change_step, changes_of, end as end_step, fresh, piece_ends, take as take_step, told_signal};

use crate::wire_packets::WirePackets;
use pmb_io::laws::texts_add_up;
use pmb_io::{RunFault, Sink, Waiting};
use pmb_wires::{Filter, Moment, Moments, Signal, Tracker};

/// What a recording of two wires is read by.
#[derive(Drop)]
pub struct WireReader {
    /// The packets so far.
    pub packets: WirePackets,
    /// Drops spikes.
    pub filter: Filter,
    /// Tells what changes say.
    pub tracker: Tracker,
}

impl WireReader {
    /// Nothing came yet. Runs shorter than `glitch` femtoseconds are spikes; SCL may be low within a
    /// packet for `timeout` thousandths of a second, or for any time if that is 0; `origin` is the
    /// time that counts as 0.
    pub fn new(glitch: u128, timeout: u64, origin: u128) -> WireReader
        ensures { result ≡ fresh glitch timeout origin }
    {
        WireReader {
            packets: WirePackets::new(timeout, origin),
            filter: Filter::new(glitch),
            tracker: Tracker::new(),
        }
    }

    /// Takes what the wires are given at the next time.
    ///
    /// # Errors
    ///
    /// `Write` where the writer failed, here and below.
    pub fn take<W: Sink>(
        &mut self,
        moment: &Moment,
        waiting: &mut Waiting,
        writer: &mut W,
    ) -> Result<(), RunFault>
        ensures now { OnOk result (self.new ≡ (take_step self.old moment.now).now) }
        ensures puts { OnOk result (PutsText (W.told writer.old).held waiting.old.items (W.told writer.new).held waiting.new.items (take_step self.old moment.now).text) }
        ensures failed { WriterTells (W.told writer.old) (W.told writer.new) result }
    {
        let moments = self.filter.take(moment);
        self.take_changes(&moments, waiting, writer)
    }

    /// Takes a fault of reading at a line, told in these words. A piece of the recording ends there.
    pub fn break_off<W: Sink>(
        &mut self,
        line: u64,
        why: &[u8],
        waiting: &mut Waiting,
        writer: &mut W,
    ) -> Result<(), RunFault>
        ensures now { OnOk result (self.new ≡ (break_step self.old line why.now).now) }
        ensures puts { OnOk result (PutsText (W.told writer.old).held waiting.old.items (W.told writer.new).held waiting.new.items (break_step self.old line why.now).text) }
        ensures failed { WriterTells (W.told writer.old) (W.told writer.new) result }
    {
        texts_add_up();
        self.end_piece(waiting, writer)?;
        self.packets.break_off(line, why, waiting, writer)
    }

    /// Ends the recording.
    pub fn end<W: Sink>(&mut self, waiting: &mut Waiting, writer: &mut W) -> Result<(), RunFault>
        ensures now { OnOk result (self.new ≡ (end_step self.old).now) }
        ensures puts { OnOk result (PutsText (W.told writer.old).held waiting.old.items (W.told writer.new).held waiting.new.items (end_step self.old).text) }
        ensures failed { WriterTells (W.told writer.old) (W.told writer.new) result }
    {
        texts_add_up();
        self.end_piece(waiting, writer)?;
        self.packets.end(waiting, writer)
    }

    /// Ends a piece of the recording: no wire is known behind it.
    fn end_piece<W: Sink>(&mut self, waiting: &mut Waiting, writer: &mut W) -> Result<(), RunFault>
        ensures now { OnOk result (self.new ≡ (piece_ends self.old).now) }
        ensures puts { OnOk result (PutsText (W.told writer.old).held waiting.old.items (W.told writer.new).held waiting.new.items (piece_ends self.old).text) }
        ensures failed { WriterTells (W.told writer.old) (W.told writer.new) result }
    {
        let moments = self.filter.end();
        self.take_changes(&moments, waiting, writer)?;
        self.tracker = Tracker::new();
        Ok(())
    }

    /// Takes up to two changes without spikes.
    fn take_changes<W: Sink>(
        &mut self,
        moments: &Moments,
        waiting: &mut Waiting,
        writer: &mut W,
    ) -> Result<(), RunFault>
        ensures now { OnOk result (self.new ≡ (changes_of self.old moments.now).now) }
        ensures puts { OnOk result (PutsText (W.told writer.old).held waiting.old.items (W.told writer.new).held waiting.new.items (changes_of self.old moments.now).text) }
        ensures failed { WriterTells (W.told writer.old) (W.told writer.new) result }
    {
        texts_add_up();
        self.take_change(moments.first, waiting, writer)?;
        self.take_change(moments.second, waiting, writer)
    }

    /// Takes a change, if there is one.
    fn take_change<W: Sink>(
        &mut self,
        moment: Option<Moment>,
        waiting: &mut Waiting,
        writer: &mut W,
    ) -> Result<(), RunFault>
        ensures now { self.new ≡ (change_step self.old moment).now }
        ensures puts { OnOk result (PutsText (W.told writer.old).held waiting.old.items (W.told writer.new).held waiting.new.items (change_step self.old moment).text) }
        ensures failed { WriterTells (W.told writer.old) (W.told writer.new) result }
    {
        texts_add_up();
        let Some(moment) = moment else {
            return Ok(());
        };
        let signal = self.tracker.take(&moment);
        self.take_signal(signal, waiting, writer)
    }

    /// Takes what a change says, if it says anything.
    fn take_signal<W: Sink>(
        &mut self,
        signal: Option<Signal>,
        waiting: &mut Waiting,
        writer: &mut W,
    ) -> Result<(), RunFault>
        ensures now { self.new ≡ (told_signal self.old signal).now }
        ensures puts { OnOk result (PutsText (W.told writer.old).held waiting.old.items (W.told writer.new).held waiting.new.items (told_signal self.old signal).text) }
        ensures failed { WriterTells (W.told writer.old) (W.told writer.new) result }
    {
        texts_add_up();
        match signal {
            Some(signal) => self.packets.take(signal, waiting, writer),
            None => Ok(()),
        }
    }
}
