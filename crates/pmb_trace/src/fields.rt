//! The fields of an event: words that begin with their name.

ghost use Rattle.std.specs.Prelude.{◌≡◌, [], ◌<◌, ◌≤◌, ◌++◌, IfSome, if◌then◌else◌, codes, decimal as decimal_digits, length, option_copied, option_map};
ghost use Rattle.pmb_words.specs.Parts.{after, parted};
ghost use Rattle.pmb_words.specs.Numbers.{decimal_of};
ghost use Rattle.pmb_trace.specs.Fields.{address_field as address_in, bus_field as bus_in, bytes_field, bytes_up_to_closing, command_field as command_in};
ghost use Rattle.pmb_trace.specs.Fields.{decimal_field as decimal_in, flags_field as flags_in, four_digits as four_in, negative, one_or_two_digits as one_or_two_in};
ghost use Rattle.pmb_trace.specs.Fields.{outcome as outcome_in, outcome_field as outcome_at, three_digits as three_in, with_sign as signed_in};
ghost use Rattle.pmb_trace.specs.Line.{event_seconds, is_fraction as are_fraction, point};
ghost use Rattle.pmb_trace.specs.Views.{number_of, outcome_of, shown, value_of};

use crate::line::before_colon;
use arrayvec::ArrayVec;
use itoa::Buffer;
use pmb_words::{behind, byte, decimal, hexadecimal, part};

/// A number as it is written, and its value.
#[derive(Clone, Copy, Drop, Debug)]
pub struct Number<'a> {
    /// Its digits.
    pub text: &'a [u8],
    /// Its value.
    pub value: u64,
}

/// A number that may be below 0, and its value where it is not.
#[derive(Clone, Copy, Drop, Debug)]
pub struct Outcome<'a> {
    /// How it is told.
    pub text: OutcomeText<'a>,
    /// Its value, or none below 0.
    pub value: Option<u64>,
}

/// How a number that may be below 0 is told.
#[derive(Clone, Copy, Drop, Debug)]
pub enum OutcomeText<'a> {
    /// As it is written: digits, with `-` in front or without.
    Written(&'a [u8]),
    /// `-` and this number, since it is written without its sign.
    Below(u16),
}

/// Room for a number with its sign.
pub type Told = ArrayVec<u8, 8>;

/// A number that is that far below 0, in `room`.
pub fn below_zero(number: u16, room: &mut Told) -> &[u8]
    ensures { result.now ≡ codes "-" ++ decimal_digits number }
{
    room.clear();
    room.push(b'-');
    let mut buffer = Buffer::new();
    let _ = room.try_extend_from_slice(buffer.format(number).as_bytes());
    room.as_slice()
}

/// The bytes that a line shows.
pub type Bytes = ArrayVec<u8, 21848>;

/// The most bytes of a word.
pub const MOST_WORD: usize = 65540;

/// `i2c-0`: the name of a bus.
pub fn bus_field(word: &[u8]) -> Option<&[u8]>
    ensures { option_copied result ≡ bus_in word.now }
{
    let number = behind(b"i2c-", word)?;
    decimal(number)?;
    Some(word)
}

/// Decimal digits behind a name.
pub fn decimal_field<'a>(name: &[u8], word: &'a [u8]) -> Option<Number<'a>>
    ensures { option_map number_of result ≡ decimal_in name.now word.now }
{
    let text = behind(name, word)?;
    let value = decimal(text)?;
    Some(Number { text, value })
}

/// `a=058`.
pub fn address_field(word: &[u8]) -> Option<u64>
    ensures { result ≡ value_of (address_in word.now) }
{
    three_digits(behind(b"a=", word)?)
}

/// The number of three hexadecimal digits.
fn three_digits(digits: &[u8]) -> Option<u64>
    ensures { result ≡ value_of (three_in digits.now) }
{
    match digits {
        [_, _, _] => hexadecimal(digits),
        _ => None,
    }
}

/// `f=0001`.
pub fn flags_field(word: &[u8]) -> Option<Number<'_>>
    ensures value { option_map number_of result ≡ flags_in word.now }
    ensures small { IfSome result (λ number. number.value < 65536) }
{
    four_digits(behind(b"f=", word)?)
}

/// Four hexadecimal digits, and their number.
fn four_digits(text: &[u8]) -> Option<Number<'_>>
    ensures value { option_map number_of result ≡ four_in text.now }
    ensures small { IfSome result (λ number. number.value < 65536) }
{
    match text {
        [_, _, _, _] => {
            let value = hexadecimal(text)?;
            Some(Number { text, value })
        }
        _ => None,
    }
}

/// `c=88`.
pub fn command_field(word: &[u8]) -> Option<u64>
    ensures { result ≡ value_of (command_in word.now) }
{
    one_or_two_digits(behind(b"c=", word)?)
}

/// The number of one or two hexadecimal digits.
fn one_or_two_digits(digits: &[u8]) -> Option<u64>
    ensures { result ≡ value_of (one_or_two_in digits.now) }
{
    match digits {
        [_] => hexadecimal(digits),
        [_, _] => hexadecimal(digits),
        _ => None,
    }
}

/// `[21-00-18]`, `[]`: whether it is bytes, which are kept.
pub fn read_bytes(word: &[u8], bytes: &mut Bytes) -> bool
    requires { length word.now ≤ MOST_WORD }
    ensures { shown result bytes.new.items ≡ bytes_field word.now }
{
    bytes.clear();
    let Some(text) = behind(b"[", word) else {
        return false;
    };
    if text == b"]".as_slice() {
        return true;
    }
    read_up_to_closing(text, bytes)
}

/// Bytes of two digits with `-` between, and `]`.
fn read_up_to_closing(text: &[u8], bytes: &mut Bytes) -> bool
    requires short { length text.now ≤ MOST_WORD }
    requires none { bytes.old.items ≡ [] }
    ensures { shown result bytes.new.items ≡ bytes_up_to_closing text.now }
{
    let mut rest = text;
    while let [high, low, separator, others @ ..] = rest {
        let Some(value) = byte(*high, *low) else {
            return false;
        };
        bytes.push(value);
        if others.is_empty() {
            return *separator == b']';
        }
        if *separator != b'-' {
            return false;
        }
        rest = others;
    }
    false
}

/// `ret=2`, `res=-6`, and `res=65530` for that.
pub fn outcome_field<'a>(name: &[u8], word: &'a [u8]) -> Option<Outcome<'a>>
    ensures { option_map outcome_of result ≡ outcome_at name.now word.now }
{
    signed(behind(name, word)?)
}

/// A number that may be below 0.
fn signed(text: &[u8]) -> Option<Outcome<'_>>
    ensures { option_map outcome_of result ≡ outcome_in text.now (decimal_of text.now) }
{
    match decimal(text) {
        Some(number) => Some(with_sign(text, number)),
        None => negative_outcome(text),
    }
}

/// A number without a sign, as it is written: below 0 where the sixteen bits of a result are.
fn with_sign(text: &[u8], number: u64) -> Outcome<'_>
    ensures { outcome_of result ≡ signed_in text.now number }
{
    if (0x8000..0x10000).contains(&number) {
        return Outcome {
            text: OutcomeText::Below((0x10000 - number) as u16),
            value: None,
        };
    }
    Outcome {
        text: OutcomeText::Written(text),
        value: Some(number),
    }
}

/// A number with a minus in front: below 0, but for 0 itself.
fn negative_outcome(text: &[u8]) -> Option<Outcome<'_>>
    ensures { option_map outcome_of result ≡ negative text.now (after (codes "-") text.now) }
{
    let number = decimal(behind(b"-", text)?)?;
    Some(Outcome {
        text: OutcomeText::Written(text),
        value: if number == 0 { Some(0) } else { None },
    })
}

/// The time that the word in front of an event's name gives, in seconds: empty where it gives none.
pub fn event_time(word: &[u8]) -> &[u8]
    ensures { result.now ≡ event_seconds word.now }
{
    match before_colon(word) {
        Some(number) => if_fraction(number),
        None => b"",
    }
}

/// A number that is a fraction, else nothing.
fn if_fraction(number: &[u8]) -> &[u8]
    ensures { result.now ≡ (if are_fraction (parted point number.now) then number.now else []) }
{
    if is_fraction(number) { number } else { b"" }
}

/// Digits, a point, digits.
fn is_fraction(number: &[u8]) -> bool
    ensures { result ≡ are_fraction (parted point number.now) }
{
    let (front, rest) = part(b'.', number);
    match rest {
        Some(rest) => decimal(front).is_some() && decimal(rest).is_some(),
        None => false,
    }
}
