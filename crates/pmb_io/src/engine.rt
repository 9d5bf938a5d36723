//! What is done with the bytes of an input.

ghost use Rattle.std.specs.Prelude.{ℕ, List, ◌++◌, IfOk, OnOk};
ghost use Rattle.pmb_io.specs.Calls.{WriterTells};
ghost use Rattle.pmb_io.specs.Engines.{Either, PutsOut};

use crate::fault::RunFault;
use crate::output::Waiting;
use crate::sink::Sink;

/// Whether an engine wants more of its input.
#[derive(Clone, Copy, Debug, PartialEq, Eq)]
pub enum Flow {
    /// It takes what follows.
    More,
    /// What follows changes nothing.
    Stop,
}

/// What is done with the bytes of an input, which come in pieces of any size: a text is put out for
/// them.
///
/// Each relation is between an engine that was given nothing, the engine that it has become, the
/// bytes that it was given meanwhile, and the text that it has put out for them.
pub trait Engine {
    /// More bytes may follow.
    ghost Stands: { Self → Self → List ℕ → List ℕ → Type 0 };

    /// The engine wants no more, whatever follows: `stops_for_good` is the law.
    ghost Stops: { Self → Self → List ℕ → List ℕ → Type 0 };

    /// The bytes have ended.
    ghost Ends: { Self → Self → List ℕ → List ℕ → Type 0 };

    /// Takes the next piece of the input, and puts out the text of what it completes.
    fn take<W: Sink>(
        &mut self,
        piece: &[u8],
        waiting: &mut Waiting,
        writer: &mut W,
    ) -> Result<Flow, RunFault>
        ensures takes { (start : Self) (bytes text : List ℕ) → Stands start self.old bytes text
            → IfOk result (λ flow. PutsOut (λ more. Either (Stands start self.new (bytes ++ piece.now) (text ++ more)) (Stops start self.new (bytes ++ piece.now) (text ++ more)) flow)
            (W.told writer.old).held waiting.old.items (W.told writer.new).held waiting.new.items) }
        ensures failed { WriterTells (W.told writer.old) (W.told writer.new) result };

    /// Takes the end of the input, and puts out the text of what it completes.
    fn end<W: Sink>(&mut self, waiting: &mut Waiting, writer: &mut W) -> Result<(), RunFault>
        ensures ends { (start : Self) (bytes text : List ℕ) → Stands start self.old bytes text
            → OnOk result (PutsOut (λ more. Ends start self.new bytes (text ++ more))
            (W.told writer.old).held waiting.old.items (W.told writer.new).held waiting.new.items) }
        ensures failed { WriterTells (W.told writer.old) (W.told writer.new) result };

    /// What made it want no more holds whatever follows.
    ghost stops_for_good: { (start now : Self) (bytes text more : List ℕ) → Stops start now bytes text → Stops start now (bytes ++ more) text };
}
