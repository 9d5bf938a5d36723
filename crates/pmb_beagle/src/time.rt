//! The time of a row.

ghost use Rattle.std.specs.Prelude.{◌≡◌, ◌≤◌, ◌+◌, ◌++◌, Some, length, true};
ghost use Rattle.pmb_beagle.specs.Time.{are_digits as digits_of, in_seconds as seconds_of, time_of as time_text, told as told_text};

use arrayvec::ArrayVec;
use itoa::Buffer;
use pmb_words::{decimal, fitting_decimal, part};

/// A time, as it is told: empty where none is.
pub(crate) type Time = ArrayVec<u8, 40>;

/// `1.234567 s` for `0:01.234.567`.
pub(crate) fn time_of(text: &[u8]) -> Time
    ensures { result.items ≡ time_text text.now }
{
    let (minutes, Some(rest)) = part(b':', text) else {
        return Time::new();
    };
    let (seconds, Some(rest)) = part(b'.', rest) else {
        return Time::new();
    };
    let (thousandths, Some(millionths)) = part(b'.', rest) else {
        return Time::new();
    };
    if !are_digits(2, seconds) || !are_digits(3, thousandths) || !are_digits(3, millionths) {
        return Time::new();
    }
    match in_seconds(fitting_decimal(minutes), fitting_decimal(seconds)) {
        Some(whole) => told(whole, thousandths, millionths),
        None => Time::new(),
    }
}

/// Whether a text has so many digits.
fn are_digits(count: usize, text: &[u8]) -> bool
    ensures is { result ≡ digits_of count text.now }
    ensures length { result ≡ true → length text.now ≡ count }
{
    text.len() == count && decimal(text).is_some()
}

/// Minutes and seconds in seconds, where these fit.
fn in_seconds(minutes: Option<u64>, seconds: Option<u64>) -> Option<u64>
    ensures { result ≡ seconds_of minutes seconds }
{
    minutes?.checked_mul(60)?.checked_add(seconds?)
}

fn told(whole: u64, thousandths: &[u8], millionths: &[u8]) -> Time
    requires thousandths { length thousandths.now ≤ 3 }
    requires millionths { length millionths.now ≤ 3 }
    ensures { result.items ≡ told_text (Some whole) thousandths.now millionths.now }
{
    let mut time = Time::new();
    append(&mut time, Buffer::new().format(whole).as_bytes());
    append(&mut time, b".");
    append(&mut time, thousandths);
    append(&mut time, millionths);
    append(&mut time, b" s");
    time
}

fn append(time: &mut Time, text: &[u8])
    requires { length time.old.items + length text.now ≤ 40 }
    ensures text { time.new.items ≡ time.old.items ++ text.now }
    ensures longer { length time.new.items ≡ length time.old.items + length text.now }
{
    let _ = time.try_extend_from_slice(text);
}
