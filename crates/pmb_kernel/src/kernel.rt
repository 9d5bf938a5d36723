//! The lines of a trace of the kernel's events of `i2c`.

ghost use Rattle.std.specs.Prelude.{◌≡◌, option_copied};
ghost use Rattle.pmb_recording.specs.Content.{most_line};
ghost use Rattle.pmb_recording.specs.Runs.{Ends, Stands, importing, tally_of};
ghost use Rattle.pmb_recording.proofs.Runs.{imports_all};
ghost use Rattle.pmb_kernel.specs.Transfers.{start, take_end, take_line};

use crate::transfers::Transfers;
use pmb_io::{InputLine, LineTask, RunFault, Sink, Tally, Waiting};
use pmb_trace::Bytes;

/// From lines to the packets of their transfers.
#[derive(Drop)]
pub struct Kernel {
    /// The recording so far.
    pub transfers: Transfers,
    /// The bytes that a line shows, while it is taken.
    bytes: Bytes,
}

impl Kernel {
    /// Nothing came yet. The bus of a name is followed, or that of the first line.
    pub fn new(bus: Option<&[u8]>) -> Kernel
        ensures { result.transfers ≡ start (option_copied bus.entry) }
    {
        Kernel {
            transfers: Transfers::new(bus),
            bytes: Bytes::new(),
        }
    }
}

impl LineTask for Kernel {
    ghost most = { most_line };

    ghost Stands = { λ start now. Stands take_line take_end (λ t. t.recording) start.transfers now.transfers };

    ghost Ends = { λ start now. Ends take_line take_end (λ t. t.recording) start.transfers now.transfers };

    ghost counted = { λ kernel. tally_of take_line take_end (λ t. t.recording) kernel.transfers };

    ghost job = { λ start. importing take_line take_end (λ t. t.recording) start.transfers };

    ghost writes_all = { λ start now. imports_all take_line take_end (λ t. t.recording) start.transfers now.transfers };

    ghost writes_front = { λ start now bytes text stands. stands.told };

    fn take_line<W: Sink>(
        &mut self,
        line: InputLine<'_>,
        waiting: &mut Waiting,
        writer: &mut W,
    ) -> Result<(), RunFault> {
        self.transfers
            .take_line(line, &mut self.bytes, waiting, writer)
    }

    fn end<W: Sink>(&mut self, waiting: &mut Waiting, writer: &mut W) -> Result<(), RunFault> {
        self.transfers.end(waiting, writer)
    }

    fn tally(&self) -> Tally {
        self.transfers.recording.tally()
    }
}
