//! Bytes on the wire: of what is written each is acknowledged, and of what is read each but the last.

ghost use Rattle.std.specs.Prelude.{◌≡◌, ◌≤◌, ◌+◌, ◌-◌, ◌++◌, length, take, drop};
ghost use Rattle.pmb_kernel.specs.Transfers.{put_in, read_bytes, written_bytes};

use arrayvec::ArrayVec;
use pmb_recording::{MOST_WIRE, WireByte};

/// The bytes of a packet.
pub(crate) type Wire = ArrayVec<WireByte, MOST_WIRE>;

/// Appends bytes that are written.
pub(crate) fn push_written(wire: &mut Wire, bytes: &[u8])
    requires { length wire.old.items + length bytes.now ≤ MOST_WIRE }
    ensures { wire.new.items ≡ wire.old.items ++ written_bytes bytes.now }
{
    for byte in bytes {
        wire.push(WireByte {
            follows_start: false,
            byte: *byte,
            is_acknowledged: true,
        });
    }
}

/// Appends bytes that are read.
fn push_read(wire: &mut Wire, bytes: &[u8])
    requires { length wire.old.items + length bytes.now ≤ MOST_WIRE }
    ensures { wire.new.items ≡ wire.old.items ++ read_bytes bytes.now }
{
    if let [front @ .., last] = bytes {
        push_written(wire, front);
        wire.push(WireByte {
            follows_start: false,
            byte: *last,
            is_acknowledged: false,
        });
    }
}

/// Puts bytes that are read after the first `at` bytes, or after all where there are fewer.
pub(crate) fn put_read(wire: &mut Wire, at: usize, bytes: &[u8])
    requires { length wire.old.items + length bytes.now ≤ MOST_WIRE }
    ensures { wire.new.items ≡ put_in at (read_bytes bytes.now) wire.old.items }
{
    let before = wire.len();
    push_read(wire, bytes);
    if at < before {
        turn(wire.as_mut_slice(), at, bytes.len());
    }
}

/// Puts the last `count` bytes before those that stand after the first `at`.
fn turn(wire: &mut [WireByte], at: usize, count: usize)
    requires { at + count ≤ length wire.old }
    ensures { wire.new ≡ take at wire.old ++ (drop (length wire.old - count) wire.old ++ take (length wire.old - count - at) (drop at wire.old)) }
{
    wire[at..].rotate_right(count);
}
