//! Numbers of samples, as programs write them.

ghost use Rattle.std.specs.Prelude.{◌≡◌, ◌+◌, false, length, option_map};
ghost use Rattle.pmb_sample_fields.specs.Numbers.{behind_digits, behind_fraction, behind_sign, digits_at, exponent_of, exponent_with, fraction_at, has_minus, number_behind, number_of};
ghost use Rattle.pmb_sample_fields.specs.machine.Parts.{exponent_in, number_in};
ghost use Rattle.pmb_words.specs.Numbers.{decimal_of, is_digit};

use pmb_words::decimal;

/// The most bytes of a number.
pub const MOST_BYTES: usize = 64;

/// Ten to a number, or one divided by that.
#[derive(Clone, Copy, Drop, Debug)]
pub(crate) struct Exponent {
    /// One is divided by it.
    pub is_negative: bool,
    /// The number.
    pub size: u64,
}

/// A number, in parts of its text.
#[derive(Clone, Copy, Drop, Debug)]
pub(crate) struct Number<'a> {
    /// It begins with a minus.
    pub is_negative: bool,
    /// The digits in front of its point.
    pub whole: &'a [u8],
    /// Those behind it.
    pub fraction: &'a [u8],
    /// What stands behind `e`.
    pub exponent: Exponent,
}

/// The number that a text writes.
pub(crate) fn read_number(text: &[u8]) -> Option<Number<'_>>
    ensures { option_map number_in result ≡ number_of text.now }
{
    if text.len() > MOST_BYTES {
        return None;
    }
    let (is_negative, rest) = split_sign(text);
    read_unsigned(is_negative, rest)
}

/// The number of a text behind its sign.
fn read_unsigned(is_negative: bool, text: &[u8]) -> Option<Number<'_>>
    ensures { option_map number_in result ≡ number_behind is_negative text.now }
{
    let (whole, behind) = split_digits(text);
    let (fraction, rest) = split_fraction(behind);
    let exponent = read_exponent(rest)?;
    if whole.is_empty() && fraction.is_empty() {
        return None;
    }
    Some(Number {
        is_negative,
        whole,
        fraction,
        exponent,
    })
}

/// Whether a text begins with a minus, and what follows its sign.
fn split_sign(text: &[u8]) -> (bool, &[u8])
    ensures minus { result.0 ≡ has_minus text.now }
    ensures rest { result.1.now ≡ behind_sign text.now }
{
    match text {
        [b'-', rest @ ..] => (true, rest),
        [b'+', rest @ ..] => (false, rest),
        _ => (false, text),
    }
}

/// The digits behind the point with which a text begins, and what follows them.
fn split_fraction(text: &[u8]) -> (&[u8], &[u8])
    ensures front { result.0.now ≡ fraction_at text.now }
    ensures rest { result.1.now ≡ behind_fraction text.now }
{
    match text {
        [b'.', rest @ ..] => split_digits(rest),
        _ => (b"", text),
    }
}

/// The digits with which a text begins, and what follows them.
fn split_digits(text: &[u8]) -> (&[u8], &[u8])
    ensures front { result.0.now ≡ digits_at text.now }
    ensures rest { result.1.now ≡ behind_digits text.now }
{
    text.split_at(count_digits(text))
}

fn count_digits(text: &[u8]) -> usize
    ensures { result ≡ length (digits_at text.now) }
{
    let mut count = 0;
    let mut left = text;
    while let [byte, rest @ ..] = left {
        if !digit(*byte) {
            return count;
        }
        count += 1;
        left = rest;
    }
    count
}

fn digit(byte: u8) -> bool
    ensures { result ≡ is_digit byte }
{
    byte >= b'0' && byte <= b'9'
}

/// The exponent that follows the digits of a number: nothing, or `e` and its number.
fn read_exponent(text: &[u8]) -> Option<Exponent>
    ensures { option_map exponent_in result ≡ exponent_of text.now }
{
    match text {
        [] => Some(Exponent {
            is_negative: false,
            size: 0,
        }),
        [b'e' | b'E', rest @ ..] => read_size(rest),
        _ => None,
    }
}

/// The number of an exponent, with its sign.
fn read_size(text: &[u8]) -> Option<Exponent>
    ensures { option_map exponent_in result ≡ exponent_with (has_minus text.now) (decimal_of (behind_sign text.now)) }
{
    let (is_negative, digits) = split_sign(text);
    let size = decimal(digits)?;
    Some(Exponent { is_negative, size })
}
