//! Recordings of the kernel's events of `smbus`, line by line.

ghost use Rattle.std.specs.Prelude.{◌≡◌, ◌≤◌, length, option_copied};
ghost use Rattle.pmb_recording.specs.Content.{most_line};
ghost use Rattle.pmb_recording.specs.Recording.{following, most_text};
ghost use Rattle.pmb_recording.specs.Runs.{Ends, Stands, importing, tally_of};
ghost use Rattle.pmb_recording.proofs.Runs.{imports_all};
ghost use Rattle.pmb_smbus.specs.Transfers.{start, take_end, take_line};

use crate::transfers::Transfers;
use pmb_io::{InputLine, LineTask, RunFault, Sink, Tally, Waiting};
use pmb_trace::Bytes;
use std::marker::Model;

/// A recording of the kernel's events of `smbus`.
#[derive(Drop)]
pub struct Smbus {
    /// The transfers so far.
    transfers: Transfers,
    /// The bytes of the line, kept so that no line makes room anew.
    bytes: Bytes,
}

impl Model for Smbus {
    ghost use Rattle.pmb_smbus.specs.declared.transfers.Transfers.{Transfers};

    ghost Value = { Transfers };

    ghost view = { λ smbus. smbus.transfers };
}

impl Smbus {
    /// Nothing came yet. The bus of a name is followed, or that of the first line.
    pub fn new(bus: Option<&[u8]>) -> Smbus
        ensures { result ≡ start (option_copied bus.entry) }
    {
        Smbus {
            transfers: Transfers::new(bus),
            bytes: Bytes::new(),
        }
    }

    /// Follows the bus of this name, unless one is followed already.
    pub fn follow(&mut self, name: &[u8])
        requires { length name.now ≤ most_text }
        ensures { self.new ≡ record self.old { recording = following self.old.recording name.now } }
    {
        self.transfers.recording.follow(name);
    }
}

impl LineTask for Smbus {
    ghost most = { most_line };

    ghost Stands = { Stands take_line take_end (λ s. s.recording) };

    ghost Ends = { Ends take_line take_end (λ s. s.recording) };

    ghost counted = { tally_of take_line take_end (λ s. s.recording) };

    ghost job = { importing take_line take_end (λ s. s.recording) };

    ghost writes_all = { imports_all take_line take_end (λ s. s.recording) };

    ghost writes_front = { λ start now bytes text stands. stands.told };

    fn take_line<W: Sink>(
        &mut self,
        line: InputLine<'_>,
        waiting: &mut Waiting,
        writer: &mut W,
    ) -> Result<(), RunFault> {
        self.transfers
            .take_line(line, &mut self.bytes, waiting, writer)
    }

    fn end<W: Sink>(&mut self, waiting: &mut Waiting, writer: &mut W) -> Result<(), RunFault> {
        self.transfers.end(waiting, writer)
    }

    fn tally(&self) -> Tally {
        self.transfers.tally()
    }
}
