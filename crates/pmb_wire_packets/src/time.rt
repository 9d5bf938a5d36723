//! Times of wires, as they are told.

ghost use Rattle.std.specs.Prelude.{◌≡◌, ◌+◌, ◌≤◌, ◌<◌, ◌++◌, length};
ghost use Rattle.pmb_wire_packets.specs.Time.{billion, nine_digits, seconds as seconds_text, with_point};

use arrayvec::ArrayVec;
use itoa::Buffer;

/// A time as an import writes it, such as `0.001250000`.
pub type Time = ArrayVec<u8, 64>;

/// The parts of a second that nine digits tell.
const BILLION: u128 = 1_000_000_000;

/// Femtoseconds in a billionth of a second.
const MILLION: u128 = 1_000_000;

/// A time in seconds, rounded down to nine digits after the point. Both are in femtoseconds;
/// `origin` is the time that counts as 0.
pub fn seconds(origin: u128, time: u128) -> Time
    ensures text { result.items ≡ seconds_text origin time }
    ensures short { length result.items ≤ 50 }
{
    let mut text = Time::new();
    if time < origin {
        append(&mut text, b"-");
        append_seconds(&mut text, (origin - time - 1) / MILLION + 1);
    } else {
        append_seconds(&mut text, (time - origin) / MILLION);
    }
    text
}

/// Appends a number of billionths of a second as seconds.
#[tactic(auto, using(crate::proofs::Digits::wide_digits))]
fn append_seconds(text: &mut Time, billionths: u128)
    requires room { length text.old.items ≤ 1 }
    ensures text { text.new.items ≡ text.old.items ++ with_point billionths }
    ensures short { length text.new.items ≤ length text.old.items + 49 }
{
    append(text, Buffer::new().format(billionths / BILLION).as_bytes());
    append(text, b".");
    append_nine(text, billionths % BILLION);
}

/// Appends a number below a billion with nine digits.
#[tactic(auto, using(crate::proofs::Digits::few_digits, crate::proofs::Digits::some_digits))]
fn append_nine(text: &mut Time, number: u128)
    requires small { number < billion }
    requires room { length text.old.items + 9 ≤ 64 }
    ensures text { text.new.items ≡ text.old.items ++ nine_digits number }
    ensures short { length text.new.items ≤ length text.old.items + 9 }
{
    let mut buffer = Buffer::new();
    let digits = buffer.format(BILLION + number).as_bytes();
    append(text, &digits[1..]);
}

fn append(text: &mut Time, more: &[u8])
    requires { length text.old.items + length more.now ≤ 64 }
    ensures text { text.new.items ≡ text.old.items ++ more.now }
    ensures longer { length text.new.items ≡ length text.old.items + length more.now }
{
    let _ = text.try_extend_from_slice(more);
}
