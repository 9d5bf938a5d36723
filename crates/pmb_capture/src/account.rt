//! What comes of a capture, counted and written as it comes.
//!
//! Its rows: `tests/rows/captures.txt`; `tests_tasks`, `src/captures.rt`.

ghost use Rattle.std.specs.Prelude.{◌≡◌, ◌++◌, [], ℕ, List, OnOk, map};
ghost use Rattle.pmb_bus.specs.declared.lexer.LexFault.TheVariants.{BadToken};
ghost use Rattle.pmb_io.specs.Calls.{WriterTells};
ghost use Rattle.pmb_io.specs.Outgoing.{PutsText};
ghost use Rattle.pmb_io.specs.Tally.{with_refusal};
ghost use Rattle.pmb_reader.specs.Refusal.{refusal_data};
ghost use Rattle.pmb_spans.specs.Spans.{outcome};
ghost use Rattle.pmb_capture.specs.Lines.{bad_token_line as bad_token_text, refusal_line as refusal_text};
ghost use Rattle.pmb_capture.specs.machine.Account.{AccountStands};

use crate::lines::{append_refusal, bad_token_line};
use crate::output::Output;
use pmb_bus::{Event, LexFault};
use pmb_io::{RunFault, Sink, Tally, Waiting, make_room, put};
use pmb_reader::Refusal;
use pmb_scan::Visitor;
use pmb_transaction::Transaction;

/// The most bytes of a refusal's line, with its LF.
const MOST: usize = 128;

/// The tally so far, and where the output stands.
#[derive(Drop)]
pub(crate) struct Account<O> {
    tally: Tally,
    output: O,
}

impl<O: Output> Account<O> {
    /// Nothing came yet.
    pub(crate) fn new(output: O) -> Account<O>
        ensures output { result.output ≡ output }
        ensures begins { O.Stands output [] → AccountStands O.text O.Stands result result [] [] }
    {
        Account {
            tally: Tally::new(),
            output,
        }
    }

    /// How many packets and refusals came.
    pub(crate) fn tally(&self) -> Tally
        ensures { result ≡ self.now.tally }
    {
        self.tally
    }

    /// Counts a refusal, and puts out its line.
    pub(crate) fn take_refusal<W: Sink>(
        &mut self,
        refusal: Refusal,
        waiting: &mut Waiting,
        writer: &mut W,
    ) -> Result<(), RunFault>
        ensures output { self.new.output ≡ self.old.output }
        ensures counted { self.new.tally ≡ with_refusal self.old.tally }
        ensures puts { OnOk result (PutsText (W.told writer.old).held waiting.old.items (W.told writer.new).held waiting.new.items (refusal_text (refusal_data refusal))) }
        ensures failed { WriterTells (W.told writer.old) (W.told writer.new) result }
    {
        self.tally.count_refusal();
        make_room(waiting, MOST, writer)?;
        append_refusal(waiting, refusal);
        Ok(())
    }

    /// Counts a word that is no token, and puts out its line.
    pub(crate) fn take_fault<W: Sink>(
        &mut self,
        fault: LexFault,
        waiting: &mut Waiting,
        writer: &mut W,
    ) -> Result<(), RunFault>
        ensures output { self.new.output ≡ self.old.output }
        ensures counted { self.new.tally ≡ with_refusal self.old.tally }
        ensures puts { (at : ℕ) → fault ≡ BadToken at
            → OnOk result (PutsText (W.told writer.old).held waiting.old.items (W.told writer.new).held waiting.new.items (bad_token_text at)) }
        ensures failed { WriterTells (W.told writer.old) (W.told writer.new) result }
    {
        let LexFault::BadToken { at } = fault;
        self.tally.count_refusal();
        let line = bad_token_line(at);
        put(waiting, line.as_slice(), writer)
    }

    /// Puts out the text of the end.
    pub(crate) fn put_end<W: Sink>(
        &self,
        waiting: &mut Waiting,
        writer: &mut W,
    ) -> Result<(), RunFault>
        ensures puts { OnOk result (PutsText (W.told writer.old).held waiting.old.items (W.told writer.new).held waiting.new.items ((O.text self.now.output).at_end self.now.tally)) }
        ensures failed { WriterTells (W.told writer.old) (W.told writer.new) result }
    {
        self.output.put_end(self.tally, waiting, writer)
    }
}

impl<O: Output> Visitor for Account<O> {
    ghost Stands = { λ start now reached text. AccountStands O.text O.Stands start now (map outcome reached.spans) text };

    #[inline(always)]
    fn visit_bytes(&mut self, _bytes: &[u8]) {}

    #[inline(always)]
    fn visit_event<W: Sink>(
        &mut self,
        _event: Event,
        _waiting: &mut Waiting,
        _writer: &mut W,
    ) -> Result<(), RunFault> {
        Ok(())
    }

    fn visit_packet<W: Sink>(
        &mut self,
        transaction: &Transaction,
        waiting: &mut Waiting,
        writer: &mut W,
    ) -> Result<(), RunFault> {
        self.tally.count_packet();
        self.output.put_packet(transaction, waiting, writer)
    }

    fn visit_whole<W: Sink>(
        &mut self,
        _bytes: &[u8],
        _count: usize,
        transaction: &Transaction,
        waiting: &mut Waiting,
        writer: &mut W,
    ) -> Result<(), RunFault> {
        self.tally.count_packet();
        self.output.put_packet(transaction, waiting, writer)
    }

    fn visit_refusal<W: Sink>(
        &mut self,
        _event: Event,
        refusal: Refusal,
        waiting: &mut Waiting,
        writer: &mut W,
    ) -> Result<(), RunFault> {
        self.take_refusal(refusal, waiting, writer)
    }
}
