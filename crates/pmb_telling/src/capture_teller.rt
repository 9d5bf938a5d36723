//! The engine of `json` and `log`, for who hands it the pieces of a capture himself.
//!
//! Its rows: `tests_tasks`, `src/capture_reader.rt`.

ghost use Rattle.std.specs.Prelude.{◌≡◌, ◌++◌, [], ℕ, List, IfOk, OnOk};
ghost use Rattle.pmb_command.specs.Parts.{DeviceParts};
ghost use Rattle.pmb_fact_stream.specs.Choice.{ChoiceData, choice_data};
ghost use Rattle.pmb_io.specs.Calls.{WriterTells};
ghost use Rattle.pmb_io.specs.Engines.{Either, PutsOut};
ghost use Rattle.pmb_scan.specs.declared.after_bad_token.AfterBadToken.{AfterBadToken};
ghost use Rattle.pmb_telling.specs.Teller.{TellerStands, counted_by};
ghost use Rattle.pmb_telling.specs.Tell.{StopsTold, WritesToldFront};
ghost use Rattle.pmb_telling.specs.Text.{WritesTold};
ghost use Rattle.pmb_telling.specs.declared.capture_teller.CaptureTeller.{CaptureTeller};

use crate::engine::{Teller, fronts_are_written};
use crate::whole::boxed_teller;
use pmb_fact_stream::Choice;
use pmb_io::{Engine, Flow, RunFault, Sink, Tally, Waiting};
use pmb_keeper::Nothing;
use pmb_scan::AfterBadToken;
use pmb_table::Profile;
use pmb_table::laws::accepted_bus;
use std::alloc::{AllocError, Global};

/// Writes the lines of the facts of a capture whose text comes in pieces of any size.
///
/// Its engine is on the heap: [`new`](CaptureTeller::new) takes memory, and no other call does. What it
/// puts out waits in a buffer of the caller's, who [sends](pmb_io::send) it.
#[derive(Drop)]
pub struct CaptureTeller<'p> {
    teller: Box<Teller<'p, Nothing>>,
}

impl<'p> CaptureTeller<'p> {
    /// Nothing was given yet. Nothing large stays on the stack.
    ///
    /// # Errors
    ///
    /// There was no memory.
    pub fn new(
        alloc: Global,
        profile: &'p Profile,
        choice: Choice<'p>,
        bad_words: AfterBadToken,
    ) -> Result<CaptureTeller<'p>, AllocError>
        ensures { IfOk result (λ teller. TellerStands (choice_data choice.entry) profile.now bad_words teller [] []) }
    {
        // Taken apart and made again: no struct that borrows is handed on as it came.
        let Choice {
            digits,
            start,
            devices,
            ignored,
            telling,
        } = choice;
        let chosen = Choice {
            digits,
            start,
            devices,
            ignored,
            telling,
        };
        accepted_bus(profile);
        match boxed_teller(alloc, profile, chosen, bad_words, Nothing) {
            Some(teller) => Ok(CaptureTeller { teller }),
            None => Err(AllocError),
        }
    }

    /// How many packets came, and how many refusals and words that are no token.
    pub fn tally(&self) -> Tally
        ensures { result ≡ counted_by self.now }
    {
        self.teller.tally()
    }

    /// Takes the next piece of the text, and puts out the lines of what it completes. After `Stop` no more
    /// is wanted, nor the end: a word that is no token ended reading, and its lines are out.
    ///
    /// # Errors
    ///
    /// `Write` where the writer failed. How much of the text went out is unknown then, and the teller is of
    /// no more use.
    pub fn take<W: Sink>(
        &mut self,
        piece: &[u8],
        waiting: &mut Waiting,
        writer: &mut W,
    ) -> Result<Flow, RunFault>
        ensures takes { (choice : ChoiceData) (profile : List DeviceParts) (after : AfterBadToken) (given told : List ℕ) → TellerStands choice profile after self.old given told
            → IfOk result (λ flow. PutsOut (λ more. Either (TellerStands choice profile after self.new (given ++ piece.now) (told ++ more)) (StopsTold choice profile after (given ++ piece.now) (told ++ more) (counted_by self.new)) flow)
            (W.told writer.old).held waiting.old.items (W.told writer.new).held waiting.new.items) }
        ensures failed { WriterTells (W.told writer.old) (W.told writer.new) result }
    {
        let teller = &mut *self.teller;
        teller.take(piece, waiting, writer)
    }

    /// Takes the end of the text, and puts out the last lines. It is of no more use then.
    ///
    /// # Errors
    ///
    /// As those of [`take`](CaptureTeller::take).
    pub fn end<W: Sink>(&mut self, waiting: &mut Waiting, writer: &mut W) -> Result<(), RunFault>
        ensures ends { (choice : ChoiceData) (profile : List DeviceParts) (after : AfterBadToken) (given told : List ℕ) → TellerStands choice profile after self.old given told
            → OnOk result (PutsOut (λ more. WritesTold choice profile after given (told ++ more) (counted_by self.new))
            (W.told writer.old).held waiting.old.items (W.told writer.new).held waiting.new.items) }
        ensures failed { WriterTells (W.told writer.old) (W.told writer.new) result }
    {
        let teller = &mut *self.teller;
        teller.end(waiting, writer)
    }
}

/// What a teller has put out so far is what is told of the bytes so far, a front of what is written for
/// them, if they end there.
pub fn tellers_have_told()
    ensures { (choice : ChoiceData) (profile : List DeviceParts) (after : AfterBadToken) (teller : CaptureTeller) (given told : List ℕ) → TellerStands choice profile after teller given told
        → WritesToldFront choice profile after given told }
{
    fronts_are_written::<Nothing>();
}
