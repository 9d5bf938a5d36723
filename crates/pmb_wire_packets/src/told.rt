//! What is told at a line of a recording.

ghost use Rattle.std.specs.Prelude.{◌≡◌, ◌++◌, codes, decimal, OnOk};
ghost use Rattle.pmb_io.specs.Calls.{WriterTells};
ghost use Rattle.pmb_io.specs.Outgoing.{PutsText};
ghost use Rattle.pmb_recording.specs.Told.{at_line};

use itoa::Buffer;
use pmb_io::laws::texts_add_up;
use pmb_io::{RunFault, Sink, Waiting, put};

/// How many bytes of a long text are put out at once.
const PIECE: usize = 4096;

/// Puts out a line that tells something of a line of the recording.
pub(crate) fn put_at_line<W: Sink>(
    line: u64,
    text: &[u8],
    waiting: &mut Waiting,
    writer: &mut W,
) -> Result<(), RunFault>
    ensures ok { OnOk result (PutsText (W.told writer.old).held waiting.old.items (W.told writer.new).held waiting.new.items (at_line line text.now)) }
    ensures failed { WriterTells (W.told writer.old) (W.told writer.new) result }
{
    texts_add_up();
    put_front(line, waiting, writer)?;
    put_text(text, waiting, writer)?;
    put(waiting, b"\n", writer)
}

/// Puts out the front of such a line.
fn put_front<W: Sink>(line: u64, waiting: &mut Waiting, writer: &mut W) -> Result<(), RunFault>
    ensures ok { OnOk result (PutsText (W.told writer.old).held waiting.old.items (W.told writer.new).held waiting.new.items (codes "# line " ++ (decimal line ++ codes ": "))) }
    ensures failed { WriterTells (W.told writer.old) (W.told writer.new) result }
{
    texts_add_up();
    put(waiting, b"# line ", writer)?;
    put(waiting, Buffer::new().format(line).as_bytes(), writer)?;
    put(waiting, b": ", writer)
}

/// Puts out a text of any length.
fn put_text<W: Sink>(text: &[u8], waiting: &mut Waiting, writer: &mut W) -> Result<(), RunFault>
    ensures ok { OnOk result (PutsText (W.told writer.old).held waiting.old.items (W.told writer.new).held waiting.new.items text.now) }
    ensures failed { WriterTells (W.told writer.old) (W.told writer.new) result }
{
    texts_add_up();
    let mut rest = text;
    while rest.len() > PIECE {
        let (piece, behind) = rest.split_at(PIECE);
        put(waiting, piece, writer)?;
        rest = behind;
    }
    put(waiting, rest, writer)
}
