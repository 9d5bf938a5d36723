//! What is kept from one piece of a capture's text to the next: where the scan is, and the account of
//! what came of it.
//!
//! Its rows: `tests/rows/captures.txt`; `tests_tasks`, `src/captures.rt`.

ghost use Rattle.std.specs.Prelude.{◌≡◌, ℕ, ◌++◌, [], List, OnOk, map};
ghost use Rattle.pmb_bus.specs.declared.lexer.LexFault.TheVariants.{BadToken};
ghost use Rattle.pmb_command.specs.Bus.{IsBus};
ghost use Rattle.pmb_io.specs.Calls.{WriterTells};
ghost use Rattle.pmb_io.specs.Engines.{PutsOut};
ghost use Rattle.pmb_io.specs.Outgoing.{PutsText};
ghost use Rattle.pmb_io.specs.Tally.{with_refusal};
ghost use Rattle.pmb_scan.specs.Reached.{EndsWith, Reached};
ghost use Rattle.pmb_scan.specs.Scan.{HasRead};
ghost use Rattle.pmb_spans.specs.Spans.{Span, outcome};
ghost use Rattle.pmb_capture.specs.Lines.{bad_token_line as bad_token_text};
ghost use Rattle.pmb_capture.specs.Written.{WritesFront};
ghost use Rattle.pmb_capture.specs.machine.Account.{AccountStands};
ghost use Rattle.pmb_capture.specs.machine.Capture.{EndsEvents, HasEnded, HasStopped, HasWritten, capture_profile, stops_for_good};

use crate::account::Account;
use crate::output::Output;
use pmb_bus::LexFault;
use pmb_bus::laws::ended_words_lead_on;
use pmb_io::{Engine, Flow, RunFault, Sink, Tally, Waiting};
use pmb_scan::laws::scans_lead_on;
use pmb_scan::{PieceEnd, Scan};
use pmb_table::Profile;
use pmb_table::laws::accepted_bus;

/// From the text of a capture to what is written of it.
#[derive(Drop)]
pub(crate) struct Capture<'p, O> {
    profile: &'p Profile,
    scan: Scan<'p>,
    account: Account<O>,
}

impl<'p, O: Output> Capture<'p, O> {
    /// Nothing was given yet.
    pub(crate) fn new(profile: &'p Profile, output: O) -> Capture<'p, O>
        ensures profile { result.profile.now ≡ profile.entry.now }
        ensures output { result.account.output ≡ output }
        ensures begins { O.Stands output [] → HasWritten O.text O.Stands result result [] [] }
    {
        accepted_bus(profile);
        Capture {
            profile,
            scan: Scan::new(profile),
            account: Account::new(output),
        }
    }

    /// How many packets and refusals came.
    pub(crate) fn tally(&self) -> Tally
        ensures { result ≡ self.now.account.tally }
    {
        self.account.tally()
    }

    /// Counts a word that is no token, and puts out its line and the text of the end. A packet that is
    /// under way there is not reported.
    #[inline(never)]
    fn stop_at<W: Sink>(
        &mut self,
        fault: LexFault,
        waiting: &mut Waiting,
        writer: &mut W,
    ) -> Result<(), RunFault>
        ensures counted { self.new.account.tally ≡ with_refusal self.old.account.tally }
        ensures puts { (at : ℕ) → fault ≡ BadToken at
            → OnOk result (PutsText (W.told writer.old).held waiting.old.items (W.told writer.new).held waiting.new.items (bad_token_text at ++ (O.text self.old.account.output).at_end self.new.account.tally)) }
        ensures can_end { (reached : Reached) → IsBus reached.profile → HasRead self.old.scan reached → (last : List Span) × EndsWith reached last }
        ensures failed { WriterTells (W.told writer.old) (W.told writer.new) result }
    {
        scans_lead_on();
        self.account.take_fault(fault, waiting, writer)?;
        self.account.put_end(waiting, writer)
    }

    /// The end of the events: inside a packet it is a refusal.
    fn end_events<W: Sink>(&mut self, waiting: &mut Waiting, writer: &mut W) -> Result<(), RunFault>
        ensures ends { (start : Account O) (reached : Reached) (text : List ℕ) → HasRead self.old.scan reached → AccountStands O.text O.Stands start self.old.account (map outcome reached.spans) text
            → OnOk result (PutsOut (λ more. EndsEvents (O.text start.output) reached self.new.account.tally (text ++ more)) (W.told writer.old).held waiting.old.items (W.told writer.new).held waiting.new.items) }
        ensures failed { WriterTells (W.told writer.old) (W.told writer.new) result }
    {
        match self.scan.truncation() {
            None => self.account.put_end(waiting, writer),
            Some(refusal) => {
                self.account.take_refusal(refusal, waiting, writer)?;
                self.account.put_end(waiting, writer)
            }
        }
    }
}

impl<'p, O: Output> Engine for Capture<'p, O> {
    ghost Stands = { HasWritten O.text O.Stands };

    ghost Stops = { HasStopped O.text O.Stands };

    ghost Ends = { HasEnded O.text O.Stands };

    fn take<W: Sink>(
        &mut self,
        piece: &[u8],
        waiting: &mut Waiting,
        writer: &mut W,
    ) -> Result<Flow, RunFault> {
        match self
            .scan
            .take_words(piece, &mut self.account, waiting, writer)?
        {
            PieceEnd::All => Ok(Flow::More),
            PieceEnd::Fault { fault, .. } => {
                self.stop_at(fault, waiting, writer)?;
                Ok(Flow::Stop)
            }
        }
    }

    fn end<W: Sink>(&mut self, waiting: &mut Waiting, writer: &mut W) -> Result<(), RunFault> {
        match self.scan.take_end(&mut self.account, waiting, writer)? {
            None => self.end_events(waiting, writer),
            Some(fault) => self.stop_at(fault, waiting, writer),
        }
    }

    ghost stops_for_good = { stops_for_good O.text O.Stands };
}

/// What was written so far is a beginning of what is written for the same bytes, if they end there.
pub(crate) fn fronts_are_written<O: Output>()
    ensures { (start now : Capture O) (bytes text : List ℕ) → HasWritten O.text O.Stands start now bytes text
        → WritesFront (O.text start.account.output) (capture_profile start) bytes text }
{
    ended_words_lead_on();
    scans_lead_on();
}
