//! A visitor that keeps what it was told.

use arrayvec::ArrayVec;
use pmb_bus::{Event, event_text};
use pmb_io::{RunFault, Sink, Waiting};
use pmb_reader::Refusal;
use pmb_scan::Visitor;
use pmb_transaction::Transaction;

/// What was told, as far as there is room.
#[derive(Clone, Default, Drop)]
pub struct Log {
    /// The bytes that were used.
    pub bytes: ArrayVec<u8, 128>,
    /// The events in their spelling: `packet ` in place of the last one of each packet, and `!` before
    /// each that was refused.
    pub events: ArrayVec<u8, 128>,
    /// The places of the refusals.
    pub places: ArrayVec<u64, 8>,
    /// How many packets were taken at once.
    pub wholes: usize,
    /// How many events these have.
    pub events_at_once: usize,
    /// How many packets were taken word by word.
    pub singles: usize,
}

impl Log {
    fn append(&mut self, text: &[u8]) {
        let _ = self.events.try_extend_from_slice(text);
    }
}

impl Visitor for Log {
    ghost Stands = { λ _ _ _ _. Unit {0} };

    fn visit_bytes(&mut self, bytes: &[u8]) {
        let _ = self.bytes.try_extend_from_slice(bytes);
    }

    fn visit_event<W: Sink>(
        &mut self,
        event: Event,
        _waiting: &mut Waiting,
        _writer: &mut W,
    ) -> Result<(), RunFault> {
        self.append(event_text(event).as_bytes());
        Ok(())
    }

    fn visit_packet<W: Sink>(
        &mut self,
        _transaction: &Transaction,
        _waiting: &mut Waiting,
        _writer: &mut W,
    ) -> Result<(), RunFault> {
        self.singles = self.singles.saturating_add(1);
        self.append(b"packet ");
        Ok(())
    }

    fn visit_whole<W: Sink>(
        &mut self,
        bytes: &[u8],
        count: usize,
        _transaction: &Transaction,
        _waiting: &mut Waiting,
        _writer: &mut W,
    ) -> Result<(), RunFault> {
        self.wholes = self.wholes.saturating_add(1);
        self.events_at_once = self.events_at_once.saturating_add(count);
        let _ = self.bytes.try_extend_from_slice(bytes);
        self.append(bytes.strip_suffix(b"P\n").unwrap_or(bytes));
        self.append(b"packet ");
        Ok(())
    }

    fn visit_refusal<W: Sink>(
        &mut self,
        event: Event,
        refusal: Refusal,
        _waiting: &mut Waiting,
        _writer: &mut W,
    ) -> Result<(), RunFault> {
        self.append(b"!");
        self.append(event_text(event).as_bytes());
        let _ = self.places.try_push(refusal.at);
        Ok(())
    }
}
