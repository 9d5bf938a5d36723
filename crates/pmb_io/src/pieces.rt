//! The loop over what a reader gives.
//!
//! Its rows: `tests/rows/captures.txt`, `tests/rows/failures.txt`.

ghost use Rattle.std.specs.Prelude.{◌≡◌, ◌≤◌, ◌<◌, ℕ, List, length, [], ◌++◌, IfOk, OnOk};
ghost use Rattle.std.specs.Io.KnownBytes.{ReadConsumes};
ghost use Rattle.pmb_io.specs.Calls.{CountsBytes, CountsPiece, ReaderTells, TellsEnd, WriterTells};
ghost use Rattle.pmb_io.specs.Engines.{Either, WritesOut, engine_job};
ghost use Rattle.pmb_io.specs.Runs.{Ran};

use crate::engine::{Engine, Flow};
use crate::fault::RunFault;
use crate::output::{Waiting, send};
use crate::sink::Sink;
use crate::source::Source;

/// How many bytes one read asks for.
const PIECE: usize = 65536;

/// How many reads are made before it is given up.
const MOST_READS: u64 = 1 << 32;

/// Hands `first` and then each piece that the reader gives to an engine, up to the end, or until the
/// engine wants no more.
///
/// The text that a piece completes is written before the next is read.
///
/// # Errors
///
/// `Read` where the reader failed, and `TooManyReads` where 2^32 reads gave bytes and the engine
/// wanted more: what was given before is written. `Write` where the writer failed.
pub fn each_piece<E: Engine, R: Source, W: Sink>(
    engine: &mut E,
    first: &[u8],
    reader: &mut R,
    writer: &mut W,
) -> Result<(), RunFault>
    requires { E.Stands engine.old engine.old [] [] }
    ensures { Ran R.told W.told (engine_job E.Stands E.Stops E.Ends engine.old engine.new) first.now (reader.old, writer.old) (reader.new, writer.new) result }
{
    let mut waiting = Waiting::new();
    match take_piece(engine, first, &mut waiting, writer)? {
        Flow::More => {}
        Flow::Stop => return Ok(()),
    }
    let mut piece = [0; PIECE];
    'reads: for _ in 0..MOST_READS {
        let count = next_piece(reader, &mut piece)?;
        if count == 0 {
            return take_end(engine, &mut waiting, writer);
        }
        match take_piece(engine, &piece[..count], &mut waiting, writer)? {
            Flow::More => {}
            Flow::Stop => return Ok(()),
        }
    }
    Err(RunFault::TooManyReads)
}

/// Reads once, and returns how many bytes that gave; 0 is the end.
fn next_piece<R: Source>(reader: &mut R, piece: &mut [u8]) -> Result<usize, RunFault>
    requires room { 0 < length piece.old }
    ensures within { IfOk result (λ n. n ≤ length piece.new) }
    ensures bytes { ReadConsumes (R.told reader.old).left (R.told reader.new).left result piece.new }
    ensures failed { ReaderTells (R.told reader.old) (R.told reader.new) result }
    ensures read { CountsPiece (R.told reader.old) (R.told reader.new) result }
    ensures given { CountsBytes (R.told reader.old).given (R.told reader.new).given result }
    ensures ended { TellsEnd (R.told reader.old).ended (R.told reader.new).ended result piece.new }
{
    let Ok(count) = reader.read(piece) else {
        return Err(RunFault::Read);
    };
    Ok(count)
}

/// Hands a piece to an engine, and writes what it puts out.
fn take_piece<E: Engine, W: Sink>(
    engine: &mut E,
    piece: &[u8],
    waiting: &mut Waiting,
    writer: &mut W,
) -> Result<Flow, RunFault>
    requires { waiting.old.items ≡ [] }
    ensures takes { (start : E) (bytes text : List ℕ) → E.Stands start engine.old bytes text
        → IfOk result (λ flow. WritesOut (λ more. Either (E.Stands start engine.new (bytes ++ piece.now) (text ++ more)) (E.Stops start engine.new (bytes ++ piece.now) (text ++ more)) flow)
        (W.told writer.old).held (W.told writer.new).held) }
    ensures sent { OnOk result (waiting.new.items ≡ []) }
    ensures failed { WriterTells (W.told writer.old) (W.told writer.new) result }
{
    let flow = engine.take(piece, waiting, writer)?;
    send(waiting, writer)?;
    Ok(flow)
}

/// Hands the end to an engine, and writes what it puts out.
fn take_end<E: Engine, W: Sink>(
    engine: &mut E,
    waiting: &mut Waiting,
    writer: &mut W,
) -> Result<(), RunFault>
    requires { waiting.old.items ≡ [] }
    ensures ends { (start : E) (bytes text : List ℕ) → E.Stands start engine.old bytes text
        → OnOk result (WritesOut (λ more. E.Ends start engine.new bytes (text ++ more)) (W.told writer.old).held (W.told writer.new).held) }
    ensures failed { WriterTells (W.told writer.old) (W.told writer.new) result }
{
    engine.end(waiting, writer)?;
    send(waiting, writer)
}
