//! An engine over a whole input.
//!
//! Its rows: `tests/rows/captures.txt`, `json_objects.txt`.

ghost use Rattle.std.specs.Prelude.{◌≡◌, [], ◌++◌, ℕ, List, OnOk};
ghost use Rattle.pmb_io.specs.Calls.{WriterTells};
ghost use Rattle.pmb_io.specs.Engines.{PutsOut, engine_job};
ghost use Rattle.pmb_whole_input.specs.Whole.{IsText, WritesOrNoMemory};

use crate::buffer::empty_buffer;
use pmb_io::{Engine, Flow, RunFault, Sink, ToolFault, Waiting, send};
use std::alloc::Global;

/// Hands an input to an engine as its only piece, and writes what the engine puts out, by a buffer on
/// the heap.
///
/// # Errors
///
/// `Memory` where there was none for the buffer: nothing was written. `Write` where the writer failed.
pub fn whole_input<E: Engine, W: Sink>(
    alloc: Global,
    engine: &mut E,
    input: &[u8],
    writer: &mut W,
) -> Result<(), ToolFault>
    requires { E.Stands engine.old engine.old [] [] }
    ensures { WritesOrNoMemory W.told (engine_job E.Stands E.Stops E.Ends engine.old engine.new) input.now writer.old writer.new result }
{
    let Some(mut waiting) = empty_buffer(alloc) else {
        return Err(ToolFault::Memory);
    };
    let Ok(()) = put_all(engine, input, &mut *waiting, writer) else {
        return Err(ToolFault::Write);
    };
    let Ok(()) = send(&mut *waiting, writer) else {
        return Err(ToolFault::Write);
    };
    Ok(())
}

/// Hands an input and its end to an engine, unless it wants no more.
fn put_all<E: Engine, W: Sink>(
    engine: &mut E,
    input: &[u8],
    waiting: &mut Waiting,
    writer: &mut W,
) -> Result<(), RunFault>
    requires { E.Stands engine.old engine.old [] [] }
    ensures puts { OnOk result (PutsOut (λ text. IsText (engine_job E.Stands E.Stops E.Ends engine.old engine.new) tt input.now text)
        (W.told writer.old).held waiting.old.items (W.told writer.new).held waiting.new.items) }
    ensures failed { WriterTells (W.told writer.old) (W.told writer.new) result }
{
    match engine.take(input, waiting, writer)? {
        Flow::Stop => Ok(()),
        Flow::More => engine.end(waiting, writer),
    }
}
