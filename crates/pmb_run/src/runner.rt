//! The requests of an input, run one after the other.
//!
//! Its rows: `tests/rows/requests.txt`.

ghost use Rattle.std.specs.Prelude.{◌≡◌, ◌≤◌, ℕ, List, [], OnOk, length};
ghost use Rattle.pmb_io.specs.Calls.{WriterTells};
ghost use Rattle.pmb_io.specs.Outgoing.{PutsText};
ghost use Rattle.pmb_io.specs.Tally.{with_refusal};
ghost use Rattle.pmb_build.specs.Answer.{numbered_text};
ghost use Rattle.pmb_registers.specs.State.{InState};
ghost use Rattle.pmb_transaction.specs.Transaction.{TransactionData};
ghost use Rattle.pmb_host.specs.Host.{IsNewHost};
ghost use Rattle.pmb_request.specs.Request.{RequestData, request_data};
ghost use Rattle.pmb_request.specs.RequestFault.{SpellsRequest};
ghost use Rattle.pmb_note.specs.Context.{mode};
ghost use Rattle.pmb_run.specs.Answer.{most_request_line};
ghost use Rattle.pmb_run.specs.Lines.{running};
ghost use Rattle.pmb_run.specs.machine.Bench.{BenchStands, HasRun, bench_profile};
ghost use Rattle.pmb_run.specs.machine.Running.{NextTaken, RunnerStands, RunnerTakes, end_counted};

use crate::bench::Bench;
use crate::fault::fault_text;
use crate::result::end_line;
use pmb_build::numbered_line;
use pmb_exchange::Exchange;
use pmb_host::{Host, HostStep, Request, RequestFault, parse_request};
use pmb_io::laws::texts_add_up;
use pmb_io::{InputLine, LineTask, RunFault, Sink, Tally, Waiting, put};
use pmb_line::LineFault;
use pmb_transaction::laws::packet_is_not_empty;

/// The most bytes of a line, a CR at its end counted.
pub(crate) const MOST_BYTES: usize = 32768;

/// The most steps of an exchange: a signal each, and the end.
const MOST_STEPS: usize = 4162;

/// From lines to packets on a bus, and results.
#[derive(Drop)]
pub struct Runner<'p> {
    /// The devices, and what was told on their bus.
    pub bench: Bench<'p>,
    /// How many lines were taken; stays at the greatest `u64`.
    pub lines: u64,
    /// The requests that were done, and the others.
    pub tally: Tally,
}

impl<'p> Runner<'p> {
    /// No line was taken yet.
    pub fn new(bench: Bench<'p>) -> Runner<'p>
        requires { HasRun bench [] }
        ensures profile { result.bench.profile ≡ bench.entry.profile }
        ensures begins { RunnerStands result result [] [] }
    {
        Runner {
            bench,
            lines: 0,
            tally: Tally::new(),
        }
    }

    /// Takes the next line, of which nothing is known but that it has no LF: the request that it spells, on the
    /// devices as they are, by the PAGE and VOUT_MODE that were told.
    ///
    /// # Errors
    ///
    /// The writer failed.
    pub fn take_next<W: Sink>(
        &mut self,
        line: &[u8],
        waiting: &mut Waiting,
        writer: &mut W,
    ) -> Result<(), RunFault>
        ensures takes { (members : List InState) (ts : List TransactionData) → BenchStands self.old.bench members ts
            → OnOk result (NextTaken members ts self.old self.new line.now (W.told writer.old).held waiting.old.items (W.told writer.new).held waiting.new.items) }
        ensures failed { WriterTells (W.told writer.old) (W.told writer.new) result }
    {
        self.lines = self.lines.saturating_add(1);
        if line.len() > MOST_BYTES {
            let fault = LineFault::TooLong(MOST_BYTES).text();
            return self.take_fault(fault.as_slice(), waiting, writer);
        }
        self.take_text(line, waiting, writer)
    }

    /// Takes the request that a line spells.
    fn take_text<W: Sink>(
        &mut self,
        line: &[u8],
        waiting: &mut Waiting,
        writer: &mut W,
    ) -> Result<(), RunFault>
        ensures takes { (members : List InState) (ts : List TransactionData) → BenchStands self.old.bench members ts
            → OnOk result (RunnerTakes members ts self.old self.new line.now (W.told writer.old).held waiting.old.items (W.told writer.new).held waiting.new.items) }
        ensures failed { WriterTells (W.told writer.old) (W.told writer.new) result }
    {
        match parse_request(self.bench.context(), line) {
            Ok(request) => self.take_request(request, waiting, writer),
            Err(fault) => {
                if fault == RequestFault::Line(LineFault::Blank) {
                    return Ok(());
                }
                self.take_fault(fault.text().as_slice(), waiting, writer)
            }
        }
    }

    /// Runs a request, where a host can be made for it.
    fn take_request<W: Sink>(
        &mut self,
        request: Request,
        waiting: &mut Waiting,
        writer: &mut W,
    ) -> Result<(), RunFault>
        ensures takes { (members : List InState) (ts : List TransactionData) (line : List ℕ) → BenchStands self.old.bench members ts
            → SpellsRequest (mode self.old.bench.profile.now ts) line (request_data request)
            → OnOk result (RunnerTakes members ts self.old self.new line (W.told writer.old).held waiting.old.items (W.told writer.new).held waiting.new.items) }
        ensures failed { WriterTells (W.told writer.old) (W.told writer.new) result }
    {
        match Host::new(self.bench.profile(), request) {
            Ok(host) => self.take_host(host, waiting, writer),
            Err(fault) => self.take_fault(fault_text(fault).as_slice(), waiting, writer),
        }
    }

    /// Runs a host: puts out what is recorded, counts the request, and puts out how it ended.
    fn take_host<W: Sink>(
        &mut self,
        host: Host<'p>,
        waiting: &mut Waiting,
        writer: &mut W,
    ) -> Result<(), RunFault>
        ensures takes { (members : List InState) (ts : List TransactionData) (request : RequestData) (line : List ℕ) → BenchStands self.old.bench members ts
            → SpellsRequest (mode self.old.bench.profile.now ts) line request → IsNewHost self.old.bench.profile.now request host.entry
            → OnOk result (RunnerTakes members ts self.old self.new line (W.told writer.old).held waiting.old.items (W.told writer.new).held waiting.new.items) }
        ensures failed { WriterTells (W.told writer.old) (W.told writer.new) result }
    {
        packet_is_not_empty();
        texts_add_up();
        let mut exchange = Exchange::new(host);
        for _ in 0..MOST_STEPS {
            if let Some(end) = self.bench.next(&mut exchange, waiting, writer)? {
                self.count(&end);
                return put(waiting, end_line(&end).as_slice(), writer);
            }
        }
        Ok(())
    }

    /// Counts a request that ended so.
    fn count(&mut self, end: &HostStep)
        ensures bench { self.new.bench ≡ self.old.bench }
        ensures lines { self.new.lines ≡ self.old.lines }
        ensures counted { self.new.tally ≡ end_counted end.now self.old.tally }
    {
        match end {
            HostStep::Done(_) => self.tally.count_packet(),
            HostStep::Failed(_) => self.tally.count_refusal(),
            HostStep::Send(_) => {}
        }
    }

    /// Counts a line that no host was made for, and puts out its fault, of at most 32 bytes.
    fn take_fault<W: Sink>(
        &mut self,
        fault: &[u8],
        waiting: &mut Waiting,
        writer: &mut W,
    ) -> Result<(), RunFault>
        requires { length fault.now ≤ 32 }
        ensures bench { self.new.bench ≡ self.old.bench }
        ensures lines { self.new.lines ≡ self.old.lines }
        ensures counted { self.new.tally ≡ with_refusal self.old.tally }
        ensures writes { OnOk result (PutsText (W.told writer.old).held waiting.old.items (W.told writer.new).held waiting.new.items (numbered_text self.old.lines fault.now)) }
        ensures failed { WriterTells (W.told writer.old) (W.told writer.new) result }
    {
        self.tally.count_refusal();
        let line = numbered_line(self.lines, fault);
        put(waiting, line.as_slice(), writer)
    }
}

impl<'p> LineTask for Runner<'p> {
    ghost most = { most_request_line };

    ghost Stands = { RunnerStands };

    ghost Ends = { RunnerStands };

    ghost counted = { λ runner. runner.tally };

    ghost job = { λ start. running (bench_profile start.bench) };

    ghost writes_all = { λ start now bytes text stands. stands.answered };

    ghost writes_front = { λ start now bytes text stands. stands.answered.given };

    fn take_line<W: Sink>(
        &mut self,
        line: InputLine<'_>,
        waiting: &mut Waiting,
        writer: &mut W,
    ) -> Result<(), RunFault> {
        self.lines = self.lines.saturating_add(1);
        match line {
            InputLine::Ended(text) => self.take_text(text, waiting, writer),
            InputLine::Last(text) => self.take_text(text, waiting, writer),
            InputLine::TooLong => {
                let fault = LineFault::TooLong(MOST_BYTES).text();
                self.take_fault(fault.as_slice(), waiting, writer)
            }
        }
    }

    fn end<W: Sink>(&mut self, _waiting: &mut Waiting, _writer: &mut W) -> Result<(), RunFault> {
        Ok(())
    }

    fn tally(&self) -> Tally {
        self.tally
    }
}
