//! Texts and numbers, put at the end of a line.

ghost use Rattle.std.specs.Prelude.{◌≡◌, ◌+◌, ◌≤◌, ◌<◌, ◌++◌, length, decimal};
ghost use Rattle.pmb_progress.specs.Line.{tenths};
ghost use Rattle.pmb_progress.specs.Over.{blanks};

use arrayvec::ArrayVec;
use itoa::Buffer;

/// Appends a text.
pub(crate) fn append<const N: usize>(out: &mut ArrayVec<u8, N>, text: &[u8])
    requires { length out.old.items + length text.now ≤ N }
    ensures says { out.new.items ≡ out.old.items ++ text.now }
    ensures longer { length out.new.items ≡ length out.old.items + length text.now }
{
    let _ = out.try_extend_from_slice(text);
}

/// Appends so many blanks.
pub(crate) fn append_blanks<const N: usize>(out: &mut ArrayVec<u8, N>, count: usize)
    requires { length out.old.items + count ≤ N }
    ensures says { out.new.items ≡ out.old.items ++ blanks count }
    ensures longer { length out.new.items ≡ length out.old.items + count }
{
    for _ in 0..count {
        out.push(b' ');
    }
}

/// Appends a number.
pub(crate) fn append_number<const N: usize>(out: &mut ArrayVec<u8, N>, number: u64)
    requires { length out.old.items + 20 ≤ N }
    ensures says { out.new.items ≡ out.old.items ++ decimal number }
    ensures longer { length out.new.items ≤ length out.old.items + 20 }
    ensures tenth { number < 10000000000000000000 → length out.new.items ≤ length out.old.items + 19 }
    ensures short { number < 100000000000 → length out.new.items ≤ length out.old.items + 11 }
{
    append(out, Buffer::new().format(number).as_bytes());
}

/// Appends a number of tenths, with a point.
pub(crate) fn append_tenths<const N: usize>(out: &mut ArrayVec<u8, N>, number: u64)
    requires { length out.old.items + 22 ≤ N }
    ensures says { out.new.items ≡ out.old.items ++ tenths number }
    ensures longer { length out.new.items ≤ length out.old.items + 21 }
    ensures short { number < 1000000000000 → length out.new.items ≤ length out.old.items + 13 }
{
    append_number(out, number / 10);
    append(out, b".");
    out.push(b'0' + (number % 10) as u8);
}
