//! Whole numbers, put at the end of bytes by their digits.
//!
//! Most numbers of an object are short: places in a capture, and counts. Those below a hundred
//! million are written in place, two digits at a time. Longer ones are formatted by `itoa`, which
//! clears a buffer for each, and then copied: for a short number that costs several times as much.
//!
//! Its rows: `tests_json`, `src/objects/numbers.rt`.

ghost use Rattle.std.specs.Prelude.{◌≡◌, ◌+◌, ◌/◌, ◌%◌, ◌<◌, ◌≤◌, ◌++◌, ◌∷◌, [], decimal, length};

use crate::text::append;
use arrayvec::ArrayVec;
use itoa::Buffer;

/// The two digits of each number below a hundred.
static PAIRS: [u8; 200] =
    *b"00010203040506070809101112131415161718192021222324252627282930313233343536373839404142434445464748495051525354555657585960616263646566676869707172737475767778798081828384858687888990919293949596979899";

/// Appends a number.
#[inline(never)]
pub(crate) fn append_number<const N: usize>(out: &mut ArrayVec<u8, N>, number: u64)
    requires { length out.old.items + 20 ≤ N }
    ensures text { out.new.items ≡ out.old.items ++ decimal number }
    ensures short { length out.new.items ≤ length out.old.items + 20 }
{
    if number < 10_000 {
        append_four(out, number);
    } else if number < 100_000_000 {
        append_four(out, number / 10_000);
        append_pair(out, number / 100 % 100);
        append_pair(out, number % 100);
    } else {
        append(out, Buffer::new().format(number).as_bytes());
    }
}

/// Appends a number of at most four digits.
#[inline(always)]
fn append_four<const N: usize>(out: &mut ArrayVec<u8, N>, number: u64)
    requires few { number < 10000 }
    requires room { length out.old.items + 4 ≤ N }
    ensures text { out.new.items ≡ out.old.items ++ decimal number }
    ensures short { length out.new.items ≤ length out.old.items + 4 }
{
    if number < 100 {
        append_two(out, number);
    } else {
        append_two(out, number / 100);
        append_pair(out, number % 100);
    }
}

/// Appends a number of at most two digits.
#[inline(always)]
fn append_two<const N: usize>(out: &mut ArrayVec<u8, N>, number: u64)
    requires few { number < 100 }
    requires room { length out.old.items + 2 ≤ N }
    ensures text { out.new.items ≡ out.old.items ++ decimal number }
    ensures short { length out.new.items ≤ length out.old.items + 2 }
{
    if number < 10 {
        out.push(b'0' + number as u8);
    } else {
        append_pair(out, number);
    }
}

/// Appends the two digits of a number below a hundred, the first of which may be a zero.
#[inline(always)]
fn append_pair<const N: usize>(out: &mut ArrayVec<u8, N>, number: u64)
    requires few { number < 100 }
    requires room { length out.old.items + 2 ≤ N }
    ensures text { out.new.items ≡ out.old.items ++ (48 + number / 10) ∷ (48 + number % 10) ∷ [] }
    ensures short { length out.new.items ≡ length out.old.items + 2 }
{
    let at = number as usize * 2;
    let (tens, ones) = (PAIRS[at], PAIRS[at + 1]);
    out.push(tens);
    out.push(ones);
}
