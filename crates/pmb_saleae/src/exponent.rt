//! Decimal numbers, and those with an exponent, which are told without it.

ghost use Rattle.std.specs.Prelude.{◌≡◌, ◌+◌, ◌≤◌, ◌++◌, length, option_copied};
ghost use Rattle.pmb_words.specs.Parts.{Parted};
ghost use Rattle.pmb_saleae.specs.Exponent.{are_digits, are_digits_if, behind_point, behind_sign, digits_or_none, has_minus};
ghost use Rattle.pmb_saleae.specs.Exponent.{is_decimal as decimal_parts, is_sign as sign_byte, or_zero, places_of as places_in};
ghost use Rattle.pmb_saleae.specs.Exponent.{parted_at_e, sign_of, to_left as digits_to_left, to_right as digits_to_right};
ghost use Rattle.pmb_saleae.specs.Exponent.{without_zeros as without, written as written_digits, written_by as by_places};
ghost use Rattle.pmb_saleae.specs.Exponent.{written_out as plain_number, zeros};

use arrayvec::ArrayVec;
use pmb_words::{decimal, part};

/// Digits, and a point and a sign among them: empty where there are none.
pub(crate) type Digits = ArrayVec<u8, 200>;

/// By how many places a point moves at most, and over how many digits.
const MOST: usize = 40;

/// The sign of a number, if it has one, and what follows.
pub(crate) fn signed(text: &[u8]) -> (&[u8], &[u8])
    ensures sign { result.0.now ≡ sign_of text.now }
    ensures rest { result.1.now ≡ behind_sign text.now }
{
    let [byte, rest @ ..] = text else {
        return (b"", b"");
    };
    if *byte == b'-' {
        (b"-", rest)
    } else if *byte == b'+' {
        (b"+", rest)
    } else {
        (b"", text)
    }
}

/// Digits, and a point and digits or not.
pub(crate) fn is_decimal(front: &[u8], rest: Option<&[u8]>) -> bool
    ensures { result ≡ decimal_parts (record { front = front.now; rest = option_copied rest.entry }) }
{
    if decimal(front).is_none() {
        return false;
    }
    match rest {
        Some(digits) => decimal(digits).is_some(),
        None => true,
    }
}

/// A number with an exponent, without it: empty where a text is no such number, or one that is too
/// long.
pub(crate) fn written_out(text: &[u8]) -> Digits
    ensures { result.items ≡ plain_number text.now }
{
    let (number, Some(exponent)) = parts_at_e(text) else {
        return Digits::new();
    };
    let (sign, digits) = signed(number);
    let (front, rest) = part(b'.', digits);
    written_by(sign, front, rest, exponent)
}

/// What stands in front of an exponent, and the exponent.
fn parts_at_e(text: &[u8]) -> (&[u8], Option<&[u8]>)
    ensures front { result.0.now ≡ (parted_at_e text.now).front }
    ensures rest { option_copied result.1 ≡ (parted_at_e text.now).rest }
{
    let (front, rest) = part(b'e', text);
    if rest.is_some() {
        return (front, rest);
    }
    part(b'E', text)
}

/// A number by its parts.
fn written_by(sign: &[u8], front: &[u8], rest: Option<&[u8]>, exponent: &[u8]) -> Digits
    requires { length sign.now ≤ 1 }
    ensures { result.items ≡ by_places sign.now (record { front = front.now; rest = option_copied rest.entry }) exponent.now (places_in exponent.now) }
{
    let Some(places) = places(exponent) else {
        return Digits::new();
    };
    let behind = rest.unwrap_or(b"");
    if !is_decimal(front, rest)
        || places > MOST as u64
        || front.len() > MOST
        || behind.len() > MOST
    {
        return Digits::new();
    }
    let places = places as usize;
    if is_negative(exponent) {
        to_left(sign, front, behind, places)
    } else {
        to_right(sign, front, behind, places)
    }
}

/// By how many places an exponent moves the point.
fn places(exponent: &[u8]) -> Option<u64>
    ensures { result ≡ places_in exponent.now }
{
    let (_, digits) = signed(exponent);
    decimal(digits)
}

/// Whether an exponent has a minus.
fn is_negative(exponent: &[u8]) -> bool
    ensures { result ≡ has_minus exponent.now }
{
    match exponent {
        [byte, ..] => *byte == b'-',
        [] => false,
    }
}

/// A number whose point moves to the left.
fn to_left(sign: &[u8], whole: &[u8], behind: &[u8], places: usize) -> Digits
    requires sign { length sign.now ≤ 1 }
    requires whole { length whole.now ≤ 40 }
    requires behind { length behind.now ≤ 40 }
    requires places { places ≤ 40 }
    ensures { result.items ≡ written_digits sign.now (digits_to_left places (record { whole = whole.now; part = behind.now })) }
{
    let kept = whole.len().saturating_sub(places);
    let mut moved = Digits::new();
    append_zeros(&mut moved, places.saturating_sub(whole.len()));
    append(&mut moved, &whole[kept..]);
    append(&mut moved, behind);
    written(sign, &whole[..kept], moved.as_slice())
}

/// A number whose point moves to the right.
fn to_right(sign: &[u8], whole: &[u8], behind: &[u8], places: usize) -> Digits
    requires sign { length sign.now ≤ 1 }
    requires whole { length whole.now ≤ 40 }
    requires behind { length behind.now ≤ 40 }
    requires places { places ≤ 40 }
    ensures { result.items ≡ written_digits sign.now (digits_to_right places (record { whole = whole.now; part = behind.now })) }
{
    let taken = places.min(behind.len());
    let mut moved = Digits::new();
    append(&mut moved, whole);
    append(&mut moved, &behind[..taken]);
    append_zeros(&mut moved, places - taken);
    written(sign, moved.as_slice(), &behind[taken..])
}

/// A number by its sign and its digits.
fn written(sign: &[u8], whole: &[u8], behind: &[u8]) -> Digits
    requires room { length sign.now + (length whole.now + length behind.now) ≤ 190 }
    ensures { result.items ≡ written_digits sign.now (record { whole = whole.now; part = behind.now }) }
{
    let mut text = Digits::new();
    append(&mut text, sign);
    append_whole(&mut text, without_zeros(whole));
    append_part(&mut text, behind);
    text
}

/// Digits without zeros in front.
fn without_zeros(digits: &[u8]) -> &[u8]
    ensures same { result.now ≡ without digits.now }
    ensures short { length result.now ≤ length digits.now }
{
    let mut left = digits;
    while let [digit, rest @ ..] = left {
        if *digit != b'0' {
            return left;
        }
        left = rest;
    }
    left
}

/// Appends digits, or a zero where there are none.
fn append_whole(text: &mut Digits, digits: &[u8])
    requires { length text.old.items + length digits.now ≤ 195 }
    ensures text { text.new.items ≡ text.old.items ++ or_zero digits.now }
    ensures longer { length text.new.items ≤ length text.old.items + length digits.now + 1 }
{
    if digits.is_empty() {
        append(text, b"0");
    } else {
        append(text, digits);
    }
}

/// Appends a point and digits, where there are any.
fn append_part(text: &mut Digits, digits: &[u8])
    requires { length text.old.items + length digits.now ≤ 195 }
    ensures { text.new.items ≡ text.old.items ++ behind_point digits.now }
{
    if digits.is_empty() {
        return;
    }
    append(text, b".");
    append(text, digits);
}

fn append(text: &mut Digits, digits: &[u8])
    requires { length text.old.items + length digits.now ≤ 200 }
    ensures text { text.new.items ≡ text.old.items ++ digits.now }
    ensures longer { length text.new.items ≡ length text.old.items + length digits.now }
{
    let _ = text.try_extend_from_slice(digits);
}

/// Appends so many zeros.
fn append_zeros(text: &mut Digits, count: usize)
    requires few { count ≤ 40 }
    requires room { length text.old.items ≤ 160 }
    ensures text { text.new.items ≡ text.old.items ++ zeros count }
    ensures longer { length text.new.items ≡ length text.old.items + count }
{
    append(text, &[b'0'; MOST][..count]);
}
