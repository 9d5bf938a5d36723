//! What the line of progress says.

ghost use Rattle.std.specs.Prelude.{◌≡◌, ◌+◌, ◌≤◌, ◌++◌, ◌/◌, length, max};
ghost use Rattle.pmb_progress.specs.Line.{amount, packets, percent, progress_line, share, speed};

use crate::number::{append, append_number, append_tenths};
use arrayvec::ArrayVec;

/// The line of progress: `seen` bytes were read in `ms` milliseconds, of `whole` in all where that is known, and
/// `packets` packets ended in them, where they are counted. It is shorter than 80 columns.
pub fn progress_line(
    whole: Option<u64>,
    seen: u64,
    ms: u64,
    packets: Option<u64>,
) -> ArrayVec<u8, 80>
    ensures says { result.items ≡ progress_line whole seen ms packets }
    ensures short { length result.items ≤ 79 }
{
    let mut line = ArrayVec::new();
    append(&mut line, b"pmb: ");
    append_share(&mut line, whole, seen);
    append(&mut line, b"  ");
    append_speed(&mut line, seen / ms.max(1));
    append_packets(&mut line, packets);
    line
}

// Appends how much was read.
fn append_share<const N: usize>(out: &mut ArrayVec<u8, N>, whole: Option<u64>, seen: u64)
    requires { length out.old.items + 25 ≤ N }
    ensures says { out.new.items ≡ out.old.items ++ share whole seen }
    ensures longer { length out.new.items ≤ length out.old.items + 16 }
{
    match whole {
        Some(whole) => {
            if seen <= whole {
                append_number(out, percent(seen, whole));
                append(out, b"%");
            } else {
                append_amount(out, seen);
            }
        }
        None => append_amount(out, seen),
    }
}

// A part in hundredths.
fn percent(part: u64, whole: u64) -> u64
    requires { part ≤ whole }
    ensures says { result ≡ percent part whole }
    ensures most { result ≤ 100 }
{
    (part as u128 * 100 / whole.max(1) as u128) as u64
}

// Appends so many bytes.
fn append_amount<const N: usize>(out: &mut ArrayVec<u8, N>, bytes: u64)
    requires { length out.old.items + 25 ≤ N }
    ensures says { out.new.items ≡ out.old.items ++ amount bytes }
    ensures longer { length out.new.items ≤ length out.old.items + 16 }
{
    if bytes < 1_000_000 {
        append_number(out, bytes / 1000);
        append(out, b" kB");
    } else if bytes < 1_000_000_000 {
        append_tenths(out, bytes / 100_000);
        append(out, b" MB");
    } else {
        append_tenths(out, bytes / 100_000_000);
        append(out, b" GB");
    }
}

// Appends a speed, from that in bytes a millisecond.
fn append_speed<const N: usize>(out: &mut ArrayVec<u8, N>, kilobytes: u64)
    requires { length out.old.items + 27 ≤ N }
    ensures says { out.new.items ≡ out.old.items ++ speed kilobytes }
    ensures longer { length out.new.items ≤ length out.old.items + 26 }
{
    if kilobytes < 1000 {
        append_number(out, kilobytes);
        append(out, b" kB/s");
    } else {
        append_tenths(out, kilobytes / 100);
        append(out, b" MB/s");
    }
}

// Appends how many packets ended, where they are counted.
fn append_packets<const N: usize>(out: &mut ArrayVec<u8, N>, count: Option<u64>)
    requires { length out.old.items + 30 ≤ N }
    ensures says { out.new.items ≡ out.old.items ++ packets count }
    ensures longer { length out.new.items ≤ length out.old.items + 30 }
{
    match count {
        Some(count) => {
            append(out, b"  packets ");
            append_number(out, count);
        }
        None => {}
    }
}
