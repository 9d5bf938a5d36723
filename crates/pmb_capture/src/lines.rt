//! The lines of refusals, of words that are no token, and of a tally.
//!
//! Its rows: `tests/rows/captures.txt`.

ghost use Rattle.std.specs.Prelude.{◌≡◌, ◌+◌, ◌≤◌, ℕ, List, Bool, bit_and, ◌==◌, [], ◌∷◌, ◌++◌, length, codes};
ghost use Rattle.pmb_bus.specs.Kinds.{bits};
ghost use Rattle.pmb_reader.specs.Refusal.{refusal_data};
ghost use Rattle.pmb_capture.specs.Lines.{bad_token_line as bad_token_text, joined_names, refusal_line as refusal_text, tally_line as tally_text};
ghost use Rattle.pmb_transaction.specs.Names.{kind_names, with_name};

use arrayvec::ArrayVec;
use itoa::Buffer;
use pmb_bus::Kinds;
use pmb_io::{ROOM, Tally, Waiting};
use pmb_reader::Refusal;

/// A line with its LF.
pub(crate) type Line = ArrayVec<u8, 128>;

/// Appends a text that its caller doesn't name, for which there must be room.
#[inline]
fn append_slice<const N: usize>(line: &mut ArrayVec<u8, N>, text: &[u8])
    requires { length line.old.items + length text.now ≤ N }
    ensures { line.new.items ≡ line.old.items ++ text.now }
{
    let _ = line.try_extend_from_slice(text);
}

/// Appends a short text, for which there must be room. Each caller names it, so that the compiler
/// makes a move or two of the pushes.
#[inline]
pub(crate) fn append<const N: usize>(line: &mut ArrayVec<u8, N>, text: &[u8])
    requires { length line.old.items + length text.now ≤ N }
    ensures { line.new.items ≡ line.old.items ++ text.now }
{
    for byte in text {
        line.push(*byte);
    }
}

/// Has the line of a refusal wait after what waits.
pub(crate) fn append_refusal(line: &mut Waiting, refusal: Refusal)
    requires { length line.old.items + 128 ≤ ROOM }
    ensures { line.new.items ≡ line.old.items ++ refusal_text (refusal_data refusal) }
{
    append(line, b"# refusal at ");
    append_slice(line, Buffer::new().format(refusal.at).as_bytes());
    append(line, b": ");
    append_slice(line, refusal.reason.name());
    append(line, b", expected ");
    append_kinds(line, refusal.expected);
    append(line, b"\n");
}

/// Appends the names of kinds, with ` or ` between each two.
fn append_kinds(line: &mut Waiting, kinds: Kinds)
    requires { length line.old.items + 45 ≤ ROOM }
    ensures names { line.new.items ≡ line.old.items ++ joined_names [] (kind_names kinds) }
    ensures short { length line.new.items ≤ length line.old.items + 45 }
{
    let mark = append_kind(line, b"", kinds, Kinds::START, b"Start");
    let mark = append_kind(line, mark, kinds, Kinds::BYTE, b"Byte");
    let mark = append_kind(line, mark, kinds, Kinds::ACK, b"Ack");
    let mark = append_kind(line, mark, kinds, Kinds::NACK, b"Nack");
    append_kind(line, mark, kinds, Kinds::STOP, b"Stop");
}

/// Appends a mark and the name of a kind, where it is one of these kinds, and answers the mark
/// before the next name.
fn append_kind(
    line: &mut Waiting,
    mark: &'static [u8],
    kinds: Kinds,
    kind: Kinds,
    name: &[u8],
) -> &'static [u8]
    requires room { length line.old.items + 9 ≤ ROOM }
    requires mark { length mark.now ≤ 4 }
    requires name { length name.now ≤ 5 }
    ensures names { (rest : List (List ℕ))
        → line.new.items ++ joined_names result.now rest ≡ line.old.items ++ joined_names mark.now (with_name (bit_and (bits kinds) (bits kind) == bits kind) name.now rest) }
    ensures next { length result.now ≤ 4 }
    ensures short { length line.new.items ≤ length line.old.items + 9 }
{
    if !kinds.contains(kind) {
        return mark;
    }
    append(line, mark);
    append(line, name);
    b" or "
}

/// The line of a word that is no token.
pub(crate) fn bad_token_line(at: u64) -> Line
    ensures { result.items ≡ bad_token_text at }
{
    let mut line = Line::new();
    append(&mut line, b"# bad token at byte ");
    append_slice(&mut line, Buffer::new().format(at).as_bytes());
    append(&mut line, b"\n");
    line
}

/// The line of a tally.
pub(crate) fn tally_line(tally: Tally) -> Line
    ensures { result.items ≡ tally_text tally }
{
    let mut line = Line::new();
    append(&mut line, b"packets ");
    append_slice(&mut line, Buffer::new().format(tally.packets).as_bytes());
    append(&mut line, b" refusals ");
    append_slice(&mut line, Buffer::new().format(tally.refusals).as_bytes());
    append(&mut line, b"\n");
    line
}
