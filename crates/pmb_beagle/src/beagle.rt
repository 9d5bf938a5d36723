//! Packets, put together from the rows of an export of Data Center.

ghost use Rattle.std.specs.Prelude.{◌≡◌, ◌≤◌, None, OnOk, length, option_copied};
ghost use Rattle.pmb_beagle.specs.Export.{ends_packet, is_next as next_number};
ghost use Rattle.pmb_beagle.specs.Packets.{add as with_transaction, begin as begun_by, end_if, fault as at_fault_of, fault_of as fault_of_row, follow, inside, on, outside, refuse as refused, start};
ghost use Rattle.pmb_beagle.specs.Packets.{take_content as content_step, take_end, take_heading as heading_step, take_line, take_other as other_step};
ghost use Rattle.pmb_beagle.specs.Packets.{take_row as row_step, take_said as said_step, take_text as text_step, take_transaction as transaction_step};
ghost use Rattle.pmb_beagle.specs.Views.{IsCounted, SaysCounted, says_from, transaction_from};
ghost use Rattle.pmb_csv.specs.Fields.{record_of};
ghost use Rattle.pmb_io.specs.Calls.{WriterTells};
ghost use Rattle.pmb_io.specs.Lines.{line_text};
ghost use Rattle.pmb_io.specs.Outgoing.{PutsText};
ghost use Rattle.pmb_recording.proofs.Runs.{imports_all};
ghost use Rattle.pmb_recording.specs.Content.{most_line};
ghost use Rattle.pmb_recording.specs.Runs.{Ends, Stands, importing, tally_of};
ghost use Rattle.pmb_recording.specs.Told.{reason_of};

use crate::columns::{Columns, heading};
use crate::row::{Row, Says};
use crate::transaction::{Transaction, push_transaction};
use pmb_io::laws::texts_add_up;
use pmb_io::{InputLine, LineTask, RunFault, Sink, Tally, Waiting};
use pmb_recording::{Fault, Recording, content};
use pmb_words::behind;

/// A recording of Data Center.
#[derive(Drop)]
pub struct Beagle {
    /// The recording so far.
    pub recording: Recording,
    /// The columns, where they are known.
    pub columns: Option<Columns>,
    /// The number of the row before, where it is known.
    pub index: Option<u64>,
}

impl Beagle {
    /// Nothing came yet.
    pub fn new() -> Beagle
        ensures { result ≡ start }
    {
        Beagle {
            recording: Recording::new(None),
            columns: None,
            index: None,
        }
    }

    /// Takes a fault.
    fn fault<W: Sink>(
        &mut self,
        fault: Fault<'_>,
        waiting: &mut Waiting,
        writer: &mut W,
    ) -> Result<(), RunFault>
        ensures now { self.new ≡ (at_fault_of self.old (reason_of fault.entry)).now }
        ensures puts { OnOk result (PutsText (W.told writer.old).held waiting.old.items (W.told writer.new).held waiting.new.items (at_fault_of self.old (reason_of fault.entry)).text) }
        ensures failed { WriterTells (W.told writer.old) (W.told writer.new) result }
    {
        self.recording.take_fault(fault, waiting, writer)
    }

    /// Takes a fault of a row, which may end a packet.
    fn fault_of<W: Sink>(
        &mut self,
        row: &Row<'_>,
        fault: Fault<'_>,
        waiting: &mut Waiting,
        writer: &mut W,
    ) -> Result<(), RunFault>
        ensures now { self.new ≡ (fault_of_row self.old (ends_packet row.now.columns (record_of row.now.line.now)) (reason_of fault.entry)).now }
        ensures puts { OnOk result (PutsText (W.told writer.old).held waiting.old.items (W.told writer.new).held waiting.new.items (fault_of_row self.old (ends_packet row.now.columns (record_of row.now.line.now)) (reason_of fault.entry)).text) }
        ensures failed { WriterTells (W.told writer.old) (W.told writer.new) result }
    {
        let ends = row.ends_packet();
        self.recording
            .take_fault_ending(fault, ends, waiting, writer)
    }

    /// Takes a transaction that does not follow.
    fn refuse<W: Sink>(
        &mut self,
        t: &Transaction<'_>,
        waiting: &mut Waiting,
        writer: &mut W,
    ) -> Result<(), RunFault>
        ensures now { self.new ≡ (refused self.old (transaction_from t.now)).now }
        ensures puts { OnOk result (PutsText (W.told writer.old).held waiting.old.items (W.told writer.new).held waiting.new.items (refused self.old (transaction_from t.now)).text) }
        ensures failed { WriterTells (W.told writer.old) (W.told writer.new) result }
    {
        self.recording
            .take_fault_ending(Fault::DoesNotFollow, t.marks.has_stop, waiting, writer)
    }

    /// Takes the next line.
    fn take_next<W: Sink>(
        &mut self,
        line: InputLine<'_>,
        waiting: &mut Waiting,
        writer: &mut W,
    ) -> Result<(), RunFault>
        ensures now { OnOk result (self.new ≡ (take_line self.old (line_text line.entry)).now) }
        ensures puts { OnOk result (PutsText (W.told writer.old).held waiting.old.items (W.told writer.new).held waiting.new.items (take_line self.old (line_text line.entry)).text) }
        ensures failed { WriterTells (W.told writer.old) (W.told writer.new) result }
    {
        let is_first = self.recording.line == 0;
        self.recording.next_line();
        self.take_content(content(is_first, line), waiting, writer)
    }

    /// Takes what a line has: `None` of one that is too long or lacks its LF.
    fn take_content<W: Sink>(
        &mut self,
        text: Option<&[u8]>,
        waiting: &mut Waiting,
        writer: &mut W,
    ) -> Result<(), RunFault>
        ensures now { OnOk result (self.new ≡ (content_step self.old (option_copied text.entry)).now) }
        ensures puts { OnOk result (PutsText (W.told writer.old).held waiting.old.items (W.told writer.new).held waiting.new.items (content_step self.old (option_copied text.entry)).text) }
        ensures failed { WriterTells (W.told writer.old) (W.told writer.new) result }
    {
        match text {
            Some(text) => self.take_text(text, waiting, writer),
            None => {
                self.index = None;
                self.fault(Fault::MakesNoSense, waiting, writer)
            }
        }
    }

    fn take_text<W: Sink>(
        &mut self,
        text: &[u8],
        waiting: &mut Waiting,
        writer: &mut W,
    ) -> Result<(), RunFault>
        ensures now { OnOk result (self.new ≡ (text_step self.old text.now).now) }
        ensures puts { OnOk result (PutsText (W.told writer.old).held waiting.old.items (W.told writer.new).held waiting.new.items (text_step self.old text.now).text) }
        ensures failed { WriterTells (W.told writer.old) (W.told writer.new) result }
    {
        texts_add_up();
        if text.is_empty() {
            return Ok(());
        }
        match heading(text) {
            Some(columns) => self.take_heading(columns, waiting, writer),
            None => self.take_other(text, waiting, writer),
        }
    }

    /// Takes a line that names the columns.
    fn take_heading<W: Sink>(
        &mut self,
        columns: Columns,
        waiting: &mut Waiting,
        writer: &mut W,
    ) -> Result<(), RunFault>
        ensures now { self.new ≡ (heading_step self.old columns).now }
        ensures puts { OnOk result (PutsText (W.told writer.old).held waiting.old.items (W.told writer.new).held waiting.new.items (heading_step self.old columns).text) }
        ensures failed { WriterTells (W.told writer.old) (W.told writer.new) result }
    {
        self.columns = Some(columns);
        self.index = None;
        self.recording.take_heading(waiting, writer)
    }

    /// Takes a line that names no columns.
    fn take_other<W: Sink>(
        &mut self,
        text: &[u8],
        waiting: &mut Waiting,
        writer: &mut W,
    ) -> Result<(), RunFault>
        ensures now { OnOk result (self.new ≡ (other_step self.old text.now).now) }
        ensures puts { OnOk result (PutsText (W.told writer.old).held waiting.old.items (W.told writer.new).held waiting.new.items (other_step self.old text.now).text) }
        ensures failed { WriterTells (W.told writer.old) (W.told writer.new) result }
    {
        texts_add_up();
        if behind(b"#", text).is_some() {
            return Ok(());
        }
        match self.columns {
            Some(columns) => {
                let row = Row {
                    columns,
                    line: text,
                };
                self.take_row(&row, waiting, writer)
            }
            None => self.fault(Fault::MakesNoSense, waiting, writer),
        }
    }

    /// Takes a row.
    fn take_row<W: Sink>(
        &mut self,
        row: &Row<'_>,
        waiting: &mut Waiting,
        writer: &mut W,
    ) -> Result<(), RunFault>
        ensures now { OnOk result (self.new ≡ (row_step self.old row.now.columns (record_of row.now.line.now)).now) }
        ensures puts { OnOk result (PutsText (W.told writer.old).held waiting.old.items (W.told writer.new).held waiting.new.items (row_step self.old row.now.columns (record_of row.now.line.now)).text) }
        ensures failed { WriterTells (W.told writer.old) (W.told writer.new) result }
    {
        let before = self.index;
        self.index = row.index();
        let Some(index) = self.index else {
            return self.fault_of(row, Fault::MakesNoSense, waiting, writer);
        };
        let Some(says) = row.says() else {
            return self.fault_of(row, Fault::MakesNoSense, waiting, writer);
        };
        if is_next(before, index) {
            self.take_said(row, &says, waiting, writer)
        } else {
            self.fault_of(row, Fault::RowsAreMissing, waiting, writer)
        }
    }

    /// Takes what a row says, in front of which no rows are missing.
    fn take_said<W: Sink>(
        &mut self,
        row: &Row<'_>,
        says: &Says<'_>,
        waiting: &mut Waiting,
        writer: &mut W,
    ) -> Result<(), RunFault>
        requires { SaysCounted says.now }
        ensures now { OnOk result (self.new ≡ (said_step self.old row.now.columns (record_of row.now.line.now) (says_from says.now)).now) }
        ensures puts { OnOk result (PutsText (W.told writer.old).held waiting.old.items (W.told writer.new).held waiting.new.items (said_step self.old row.now.columns (record_of row.now.line.now) (says_from says.now)).text) }
        ensures failed { WriterTells (W.told writer.old) (W.told writer.new) result }
    {
        match says {
            Says::OfTransaction(t) => self.take_transaction(row, t, waiting, writer),
            Says::OfCapture => self.recording.take_heading(waiting, writer),
            Says::OfOther => self.fault_of(row, Fault::MakesNoSense, waiting, writer),
        }
    }

    /// Takes the transaction of a row.
    fn take_transaction<W: Sink>(
        &mut self,
        row: &Row<'_>,
        t: &Transaction<'_>,
        waiting: &mut Waiting,
        writer: &mut W,
    ) -> Result<(), RunFault>
        requires { IsCounted t.now }
        ensures now { OnOk result (self.new ≡ (transaction_step self.old row.now.columns (record_of row.now.line.now) (transaction_from t.now)).now) }
        ensures puts { OnOk result (PutsText (W.told writer.old).held waiting.old.items (W.told writer.new).held waiting.new.items (transaction_step self.old row.now.columns (record_of row.now.line.now) (transaction_from t.now)).text) }
        ensures failed { WriterTells (W.told writer.old) (W.told writer.new) result }
    {
        if row.is_marked() {
            return self.fault_of(row, Fault::IsMarked, waiting, writer);
        }
        if t.address.byte > 0x7f || !row.has_length(t.length) {
            return self.fault_of(row, Fault::MakesNoSense, waiting, writer);
        }
        self.follow(row.time().as_slice(), t, waiting, writer)
    }

    /// Takes a transaction with its time, where that may be told.
    fn follow<W: Sink>(
        &mut self,
        time: &[u8],
        t: &Transaction<'_>,
        waiting: &mut Waiting,
        writer: &mut W,
    ) -> Result<(), RunFault>
        requires counted { IsCounted t.now }
        requires address { t.now.address.byte ≤ 0x7f }
        requires time { length time.now ≤ 40 }
        ensures now { OnOk result (self.new ≡ (follow self.old time.now (transaction_from t.now) self.old.recording.packet).now) }
        ensures puts { OnOk result (PutsText (W.told writer.old).held waiting.old.items (W.told writer.new).held waiting.new.items (follow self.old time.now (transaction_from t.now) self.old.recording.packet).text) }
        ensures failed { WriterTells (W.told writer.old) (W.told writer.new) result }
    {
        match self.recording.packet {
            Some(_) => self.take_inside(t, waiting, writer),
            None => self.take_outside(time, t, waiting, writer),
        }
    }

    /// Takes a transaction where a packet is under way.
    fn take_inside<W: Sink>(
        &mut self,
        t: &Transaction<'_>,
        waiting: &mut Waiting,
        writer: &mut W,
    ) -> Result<(), RunFault>
        requires counted { IsCounted t.now }
        requires address { t.now.address.byte ≤ 0x7f }
        ensures now { self.new ≡ (inside self.old (transaction_from t.now)).now }
        ensures puts { OnOk result (PutsText (W.told writer.old).held waiting.old.items (W.told writer.new).held waiting.new.items (inside self.old (transaction_from t.now)).text) }
        ensures failed { WriterTells (W.told writer.old) (W.told writer.new) result }
    {
        if !t.marks.has_start {
            return self.refuse(t, waiting, writer);
        }
        self.recording.give();
        self.add(t, waiting, writer)
    }

    /// Takes a transaction where no packet is under way.
    fn take_outside<W: Sink>(
        &mut self,
        time: &[u8],
        t: &Transaction<'_>,
        waiting: &mut Waiting,
        writer: &mut W,
    ) -> Result<(), RunFault>
        requires counted { IsCounted t.now }
        requires address { t.now.address.byte ≤ 0x7f }
        requires time { length time.now ≤ 40 }
        requires none { self.old.recording.packet ≡ None }
        ensures now { OnOk result (self.new ≡ (outside self.old time.now (transaction_from t.now)).now) }
        ensures puts { OnOk result (PutsText (W.told writer.old).held waiting.old.items (W.told writer.new).held waiting.new.items (outside self.old time.now (transaction_from t.now)).text) }
        ensures failed { WriterTells (W.told writer.old) (W.told writer.new) result }
    {
        texts_add_up();
        if !self.recording.is_skipping {
            return self.begin(time, t, waiting, writer);
        }
        if t.marks.has_stop {
            self.recording.end_skipping();
        }
        Ok(())
    }

    /// Begins a packet.
    fn begin<W: Sink>(
        &mut self,
        time: &[u8],
        t: &Transaction<'_>,
        waiting: &mut Waiting,
        writer: &mut W,
    ) -> Result<(), RunFault>
        requires counted { IsCounted t.now }
        requires address { t.now.address.byte ≤ 0x7f }
        requires time { length time.now ≤ 40 }
        requires none { self.old.recording.packet ≡ None }
        ensures now { OnOk result (self.new ≡ (begun_by self.old time.now (transaction_from t.now)).now) }
        ensures puts { OnOk result (PutsText (W.told writer.old).held waiting.old.items (W.told writer.new).held waiting.new.items (begun_by self.old time.now (transaction_from t.now)).text) }
        ensures failed { WriterTells (W.told writer.old) (W.told writer.new) result }
    {
        texts_add_up();
        if !t.marks.has_start {
            return self.refuse(t, waiting, writer);
        }
        self.recording.begin(time, b"", waiting, writer)?;
        self.add(t, waiting, writer)
    }

    /// Adds a transaction to the packet under way.
    fn add<W: Sink>(
        &mut self,
        t: &Transaction<'_>,
        waiting: &mut Waiting,
        writer: &mut W,
    ) -> Result<(), RunFault>
        requires counted { IsCounted t.now }
        requires address { t.now.address.byte ≤ 0x7f }
        ensures now { self.new ≡ (with_transaction self.old (transaction_from t.now)).now }
        ensures puts { OnOk result (PutsText (W.told writer.old).held waiting.old.items (W.told writer.new).held waiting.new.items (with_transaction self.old (transaction_from t.now)).text) }
        ensures failed { WriterTells (W.told writer.old) (W.told writer.new) result }
    {
        let wire = &mut self.recording.wire;
        if t.length >= wire.remaining_capacity() {
            return self.recording.drop_long(t.marks.has_stop, waiting, writer);
        }
        push_transaction(t, wire);
        self.end_if(t.marks.has_stop, waiting, writer)
    }

    /// Ends the packet under way where STOP does.
    fn end_if<W: Sink>(
        &mut self,
        has_stop: bool,
        waiting: &mut Waiting,
        writer: &mut W,
    ) -> Result<(), RunFault>
        ensures now { self.new ≡ (end_if has_stop self.old).now }
        ensures puts { OnOk result (PutsText (W.told writer.old).held waiting.old.items (W.told writer.new).held waiting.new.items (end_if has_stop self.old).text) }
        ensures failed { WriterTells (W.told writer.old) (W.told writer.new) result }
    {
        texts_add_up();
        if has_stop {
            return self.recording.end_packet(waiting, writer);
        }
        Ok(())
    }
}

/// Whether a number is that of the next row.
fn is_next(before: Option<u64>, index: u64) -> bool
    ensures { result ≡ next_number before index }
{
    match before {
        Some(before) => before.checked_add(1) == Some(index),
        None => true,
    }
}

impl LineTask for Beagle {
    ghost most = { most_line };

    ghost Stands = { Stands take_line take_end (λ beagle. beagle.recording) };

    ghost Ends = { Ends take_line take_end (λ beagle. beagle.recording) };

    ghost counted = { tally_of take_line take_end (λ beagle. beagle.recording) };

    ghost job = { importing take_line take_end (λ beagle. beagle.recording) };

    ghost writes_all = { imports_all take_line take_end (λ beagle. beagle.recording) };

    ghost writes_front = { λ start now bytes text stands. stands.told };

    fn take_line<W: Sink>(
        &mut self,
        line: InputLine<'_>,
        waiting: &mut Waiting,
        writer: &mut W,
    ) -> Result<(), RunFault> {
        self.take_next(line, waiting, writer)
    }

    fn end<W: Sink>(&mut self, waiting: &mut Waiting, writer: &mut W) -> Result<(), RunFault> {
        self.recording.end(None, waiting, writer)
    }

    fn tally(&self) -> Tally {
        self.recording.tally()
    }
}
