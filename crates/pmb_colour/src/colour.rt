//! Texts in a colour, by sequences of a terminal.

ghost use Rattle.std.specs.Prelude.{◌≡◌, ◌+◌, ◌≤◌, ◌++◌, length};
ghost use Rattle.pmb_colour.specs.Pieces.{painted, sequence, reset};

use arrayvec::ArrayVec;

/// A colour.
#[derive(Clone, Copy, Debug, PartialEq, Eq)]
pub(crate) enum Colour {
    Red,
    Yellow,
}

/// How many bytes the sequences around a text have.
pub(crate) const AROUND: usize = 9;

/// What ends a colour.
const RESET: &[u8] = b"\x1b[0m";

/// What sets a colour.
fn sequence(colour: Colour) -> &'static [u8]
    ensures text { result.now ≡ sequence colour }
    ensures short { length result.now ≤ 5 }
{
    match colour {
        Colour::Red => b"\x1b[31m",
        Colour::Yellow => b"\x1b[33m",
    }
}

/// Appends a text.
pub(crate) fn append<const N: usize>(out: &mut ArrayVec<u8, N>, text: &[u8])
    requires { length out.old.items + length text.now ≤ N }
    ensures says { out.new.items ≡ out.old.items ++ text.now }
    ensures longer { length out.new.items ≤ length out.old.items + length text.now }
{
    let _ = out.try_extend_from_slice(text);
}

/// Appends a text in a colour, or as it is.
pub(crate) fn append_painted<const N: usize>(
    out: &mut ArrayVec<u8, N>,
    colour: Option<Colour>,
    text: &[u8],
)
    requires { length out.old.items + (length text.now + AROUND) ≤ N }
    ensures says { out.new.items ≡ out.old.items ++ painted colour text.now }
    ensures longer { length out.new.items ≤ length out.old.items + (length text.now + AROUND) }
{
    match colour {
        Some(colour) => {
            append(out, sequence(colour));
            append(out, text);
            append(out, RESET);
        }
        None => append(out, text),
    }
}
