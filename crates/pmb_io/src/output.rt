//! Text on its way to a writer, in a buffer of fixed size.
//!
//! Its rows: `tests_bytes`, `src/io/waiting.rt`.

ghost use Rattle.std.specs.Prelude.{◌≡◌, ◌+◌, ◌<◌, ◌≤◌, ◌++◌, [], length, Ok, OnOk, OnErr};
ghost use Rattle.pmb_io.specs.Calls.{WriterTells, AppendsFront};
ghost use Rattle.pmb_io.specs.Outgoing.{PutsText};

use crate::fault::RunFault;
use crate::sink::Sink;
use arrayvec::ArrayVec;

/// How many bytes wait at most.
pub const ROOM: usize = 32768;

/// Bytes that are still to be written.
pub type Waiting = ArrayVec<u8, 32768>;

/// Sends to the writer what waits for it.
///
/// # Errors
///
/// `Write` where the writer failed: a front of the bytes went out, and all of them still wait.
pub fn send<W: Sink>(waiting: &mut Waiting, writer: &mut W) -> Result<(), RunFault>
    ensures ok { OnOk result (PutsText (W.told writer.old).held waiting.old.items (W.told writer.new).held waiting.new.items []) }
    ensures empty { OnOk result (waiting.new.items ≡ []) }
    ensures kept { OnErr result (waiting.new.items ≡ waiting.old.items) }
    ensures front { OnErr result (AppendsFront (W.told writer.old).held (W.told writer.new).held waiting.old.items) }
    ensures failed { WriterTells (W.told writer.old) (W.told writer.new) result }
{
    if waiting.is_empty() {
        return Ok(());
    }
    match writer.write_all(waiting.as_slice()) {
        Ok(()) => {
            waiting.clear();
            Ok(())
        }
        Err(_) => Err(RunFault::Write),
    }
}

/// Has a text of at most [`ROOM`] bytes wait after what waits already, which is sent first where
/// both don't fit.
///
/// # Errors
///
/// `Write` where the writer failed: a front of what waited went out, and all of it still waits; the
/// text doesn't wait then.
pub fn put<W: Sink>(waiting: &mut Waiting, text: &[u8], writer: &mut W) -> Result<(), RunFault>
    requires { length text.now ≤ ROOM }
    ensures ok { OnOk result (PutsText (W.told writer.old).held waiting.old.items (W.told writer.new).held waiting.new.items text.now) }
    ensures kept { OnErr result (waiting.new.items ≡ waiting.old.items) }
    ensures front { OnErr result (AppendsFront (W.told writer.old).held (W.told writer.new).held waiting.old.items) }

    // Where both fit, nothing is written.
    ensures fits { length waiting.old.items + length text.now ≤ ROOM → result ≡ Ok tt }
    ensures waits { length waiting.old.items + length text.now ≤ ROOM → waiting.new.items ≡ waiting.old.items ++ text.now }
    ensures unwritten { length waiting.old.items + length text.now ≤ ROOM → writer.new ≡ writer.old }
    ensures failed { WriterTells (W.told writer.old) (W.told writer.new) result }
{
    make_room(waiting, text.len(), writer)?;
    let _ = waiting.try_extend_from_slice(text);
    Ok(())
}

/// Makes room for so many bytes, at most [`ROOM`], after what waits, which is sent first where there
/// is less.
///
/// # Errors
///
/// `Write` where the writer failed: a front of what waited went out, and all of it still waits.
pub fn make_room<W: Sink>(
    waiting: &mut Waiting,
    count: usize,
    writer: &mut W,
) -> Result<(), RunFault>
    requires { count ≤ ROOM }
    ensures ok { OnOk result (PutsText (W.told writer.old).held waiting.old.items (W.told writer.new).held waiting.new.items []) }
    ensures room { OnOk result (length waiting.new.items + count ≤ ROOM) }
    ensures empty { ROOM < length waiting.old.items + count → OnOk result (waiting.new.items ≡ []) }
    ensures kept { OnErr result (waiting.new.items ≡ waiting.old.items) }
    ensures front { OnErr result (AppendsFront (W.told writer.old).held (W.told writer.new).held waiting.old.items) }

    // Where there is room already, nothing is written.
    ensures fits { length waiting.old.items + count ≤ ROOM → result ≡ Ok tt }
    ensures waits { length waiting.old.items + count ≤ ROOM → waiting.new.items ≡ waiting.old.items }
    ensures unwritten { length waiting.old.items + count ≤ ROOM → writer.new ≡ writer.old }
    ensures failed { WriterTells (W.told writer.old) (W.told writer.new) result }
{
    if waiting.len() + count > ROOM {
        return send(waiting, writer);
    }
    Ok(())
}
