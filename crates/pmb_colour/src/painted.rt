//! A writer whose lines go on in their colours.
ghost use Rattle.std.specs.Prelude.{◌≡◌, ◌++◌, [], IfErr, IfOk, Some};
ghost use Rattle.std.specs.Option.{ForSome};
ghost use Rattle.std.proofs.Props.{props};
ghost use Rattle.std.specs.Coded.{Coded-set};
ghost use Rattle.pmb_colour.specs.Onward.{told_held, told_pieces};
ghost use Rattle.pmb_colour.specs.Pieces.{shown};
ghost use Rattle.pmb_colour.specs.machine.Painter.{held_by, inner_of, waiting_of};

use crate::lines::Lines;
use crate::painter::Painter;
use crate::start::Start;
use crate::written::Written;
use pmb_io::{IoFault, Sink};
use std::alloc::Global;
use std::marker::PhantomData;

/// What it is told goes on to another writer, each line in its colours as soon as it has ended; or
/// as it is told, where no lines are painted.
///
/// A line of more than 3,072 bytes has no colour, and goes on from there byte by byte. After a write
/// that failed, what was to go out with it is dropped. Memory is taken by [`Painted::new`] alone.
#[derive(Drop)]
pub struct Painted<W: Sink, S: Start> {
    painter: Painter<W>,
    /// What lines are painted, if any are.
    lines: Option<Lines>,
    told: Written,
    start: PhantomData<S>,
    ghost same: { lines ≡ S.lines } by { Coded-set lines-code lines S.lines },
    // What the other writer holds and what is held here are those of all that was told, as long as no
    // write has failed.
    ghost shows: { (W.told (inner_of painter)).failures ≡ 0 → ForSome S.before (λ before. (W.told (inner_of painter)).held ≡ Some (before ++ shown (told_pieces lines told.bytes))) } by { Prim.hlevel props },
    ghost sent: { (W.told (inner_of painter)).failures ≡ 0 → waiting_of painter ≡ [] },
    ghost line: { (W.told (inner_of painter)).failures ≡ 0 → (held_by painter).line ≡ (told_held lines told.bytes).line },
    ghost rest: { (W.told (inner_of painter)).failures ≡ 0 → (held_by painter).is_rest ≡ (told_held lines told.bytes).is_rest },
}

impl<W: Sink, S: Start> Painted<W, S> {
    ghost use Rattle.std.specs.Io.KnownBytes.{Appends};
    ghost use Rattle.pmb_io.specs.Calls.{CountsFailure};
    ghost use Rattle.pmb_colour.specs.Onward.{all_pieces};
    ghost use Rattle.pmb_colour.specs.Painted.{painted_text, writer_of};

    /// Nothing was told yet. Where there is no memory, the writer is given back.
    pub fn new(alloc: Global, inner: W, lines: Option<Lines>) -> Result<Painted<W, S>, W>
        requires before { (W.told inner).held ≡ S.before }
        requires lines { lines ≡ S.lines }
        ensures inner { IfOk result (λ painted. writer_of painted ≡ inner) }
        ensures told { IfOk result (λ painted. painted_text painted ≡ []) }
        ensures back { IfErr result (λ writer. writer ≡ inner) }
    {
        match Painter::new(alloc, inner) {
            Ok(painter) => Ok(Painted {
                painter,
                lines,
                told: Written::new(),
                start: PhantomData,
            }),
            Err(inner) => Err(inner),
        }
    }

    /// Passes on what is held of the line under way, as it is, and returns the other writer: it has got
    /// all that this one was told, in its colours, if no write has failed.
    ///
    /// # Errors
    ///
    /// The other writer failed: a front of it went on.
    pub fn end(self) -> (W, Result<(), IoFault>)
        ensures shows { (W.told result.0).failures ≡ 0 → Appends S.before (W.told result.0).held (shown (all_pieces S.lines (painted_text self))) }
        ensures failed { CountsFailure (W.told (writer_of self)).failures (W.told result.0).failures result.1 }
    {
        let Painted { painter, .. } = self;
        let mut painter = painter;
        let flushed = painter.flush();
        (painter.into_inner(), flushed)
    }
}

impl<W: Sink, S: Start> Sink for Painted<W, S> {
    ghost use Rattle.std.specs.Prelude.{Some, OnOk, OnErr};
    ghost use Rattle.std.specs.Io.KnownBytes.{Appends};
    ghost use Rattle.pmb_io.specs.Calls.{AppendsFront, CountsFailure};
    ghost use Rattle.pmb_colour.specs.Painted.{painted_text, writer_of};

    // It holds all that it was told.
    ghost told = { λ it. record { held = Some it.told.bytes; failures = (W.told it.painter.inner).failures } };

    /// # Errors
    ///
    /// The other writer failed. The first time, it has got a front of what goes on of all that was told.
    fn write_all(&mut self, bytes: &[u8]) -> Result<(), IoFault>
        ensures written { OnOk result (Appends (Some (painted_text self.old)) (Some (painted_text self.new)) bytes.now) }
        ensures front { OnErr result (AppendsFront (Some (painted_text self.old)) (Some (painted_text self.new)) bytes.now) }
        ensures failed { CountsFailure (W.told (writer_of self.old)).failures (W.told (writer_of self.new)).failures result }
        ensures onward { (W.told (writer_of self.old)).failures ≡ 0 → OnErr result (AppendsFront S.before (W.told (writer_of self.new)).held (shown (told_pieces S.lines (painted_text self.new)))) }
    {
        self.told.append(bytes);
        match self.lines {
            Some(lines) => self.painter.paint(lines, bytes),
            None => self.painter.pass(bytes),
        }
    }
}
