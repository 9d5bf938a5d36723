//! Lines that wait for a writer, or go out.

ghost use Rattle.std.specs.Prelude.{◌≡◌, ◌≤◌, ◌++◌, ◌∷◌, [], length, OnErr, OnOk};
ghost use Rattle.pmb_io.specs.Calls.{AppendsFront, WriterTells};
ghost use Rattle.pmb_io.specs.Outgoing.{PutsText};
ghost use Rattle.pmb_colour.specs.Painting.{line_pieces};
ghost use Rattle.pmb_colour.specs.Pieces.{plain, shown};

use crate::colour::{AROUND, append};
use crate::line::append_line;
use crate::lines::Lines;
use pmb_io::laws::texts_add_up;
use pmb_io::{RunFault, Sink, Waiting, make_room};

/// The most bytes of a line that has a colour.
pub(crate) const MOST: usize = 3072;

/// Puts out a line in its colours, and its LF.
///
/// # Errors
///
/// The writer failed: a front of what waited went out.
pub(crate) fn put_line<W: Sink>(
    lines: Lines,
    line: &[u8],
    waiting: &mut Waiting,
    writer: &mut W,
) -> Result<(), RunFault>
    requires { length line.now ≤ MOST }
    ensures ok { OnOk result (PutsText (W.told writer.old).held waiting.old.items (W.told writer.new).held waiting.new.items (shown (line_pieces lines line.now ++ plain (0x0a ∷ []) ∷ []))) }
    ensures front { OnErr result (AppendsFront (W.told writer.old).held (W.told writer.new).held waiting.old.items) }
    ensures failed { WriterTells (W.told writer.old) (W.told writer.new) result }
{
    texts_add_up();
    make_room(waiting, 10 * line.len() + (AROUND + 1), writer)?;
    append_line(waiting, lines, line);
    append(waiting, b"\n");
    Ok(())
}

/// Puts out a front of a line, and a byte behind it, as they are.
///
/// # Errors
///
/// The writer failed: a front of what waited went out.
pub(crate) fn put_front<W: Sink>(
    line: &[u8],
    byte: u8,
    waiting: &mut Waiting,
    writer: &mut W,
) -> Result<(), RunFault>
    requires { length line.now ≤ MOST }
    ensures ok { OnOk result (PutsText (W.told writer.old).held waiting.old.items (W.told writer.new).held waiting.new.items (shown (plain line.now ∷ plain (byte ∷ []) ∷ []))) }
    ensures front { OnErr result (AppendsFront (W.told writer.old).held (W.told writer.new).held waiting.old.items) }
    ensures failed { WriterTells (W.told writer.old) (W.told writer.new) result }
{
    texts_add_up();
    make_room(waiting, line.len() + 1, writer)?;
    append(waiting, line);
    append(waiting, &[byte]);
    Ok(())
}
