//! The time of a sample.

ghost use Rattle.std.specs.Prelude.{◌≡◌, ◌+◌, ◌*◌, ◌≤◌, ◌<◌, ◌++◌, length, option_map};
ghost use Rattle.pmb_sigrok_line.specs.Time.{billion, nine_digits, part_at, time_at as time_text, time_of as time_of_sample};
ghost use Rattle.pmb_sigrok_line.specs.Shown.{hertz_of};

use crate::rate::Rate;
use arrayvec::ArrayVec;
use itoa::Buffer;

/// A time as an import writes it, such as `0.001250000 s`: empty where none is known.
pub type Time = ArrayVec<u8, 40>;

/// The parts of a second that nine digits tell.
const BILLION: u64 = 1_000_000_000;

/// The time of a sample in seconds, rounded down to nine digits after the point. Empty without a
/// sample or a rate.
pub fn time_of(sample: Option<u64>, rate: Option<Rate>) -> Time
    ensures { result.items ≡ time_of_sample sample (option_map hertz_of rate) }
{
    match (sample, rate) {
        (Some(sample), Some(rate)) => time_at(sample, rate),
        _ => Time::new(),
    }
}

fn time_at(sample: u64, rate: Rate) -> Time
    ensures { result.items ≡ time_text sample (hertz_of rate) }
{
    let mut time = Time::new();
    append(
        &mut time,
        Buffer::new().format(sample / rate.hertz()).as_bytes(),
    );
    append(&mut time, b".");
    append_nine(&mut time, part_of_second(sample, rate));
    append(&mut time, b" s");
    time
}

/// Appends a number below a billion with nine digits.
#[tactic(auto, using(crate::proofs::Digits::few_digits, crate::proofs::Digits::some_digits))]
fn append_nine(time: &mut Time, number: u64)
    requires small { number < billion }
    requires room { length time.old.items + 9 ≤ 40 }
    ensures text { time.new.items ≡ time.old.items ++ nine_digits number }
    ensures short { length time.new.items ≤ length time.old.items + 9 }
{
    let mut buffer = Buffer::new();
    let digits = buffer.format(BILLION + number).as_bytes();
    append(time, &digits[1..]);
}

/// The billionths of a second after the last whole one.
fn part_of_second(sample: u64, rate: Rate) -> u64
    ensures part { result ≡ part_at sample (hertz_of rate) }
    ensures small { result < billion }
{
    (sample % rate.hertz()) * BILLION / rate.hertz()
}

fn append(time: &mut Time, text: &[u8])
    requires { length time.old.items + length text.now ≤ 40 }
    ensures text { time.new.items ≡ time.old.items ++ text.now }
    ensures longer { length time.new.items ≡ length time.old.items + length text.now }
{
    let _ = time.try_extend_from_slice(text);
}
