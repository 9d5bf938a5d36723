//! The time of a row.

ghost use Rattle.std.specs.Prelude.{◌≡◌, false};
ghost use Rattle.pmb_words.specs.Numbers.{is_digit};
ghost use Rattle.pmb_saleae.specs.Time.{fits, has_form, is_date, is_fraction_and_zone, is_offset, is_rest};
ghost use Rattle.pmb_saleae.specs.Time.{is_seconds, is_zone, unit_of};

use crate::exponent::{is_decimal, signed};
use pmb_words::{behind, part};

/// A time: what is told behind it.
#[derive(Clone, Copy, Drop, Debug, PartialEq, Eq)]
pub(crate) enum Unit {
    /// Seconds.
    Seconds,
    /// A date, which has no unit.
    Date,
}

/// The form of a time that is told as it stands: a decimal number, or a date of ISO 8601.
pub(crate) fn time_unit(time: &[u8]) -> Option<Unit>
    ensures { result ≡ unit_of time.now }
{
    if seconds(time) {
        return Some(Unit::Seconds);
    }
    if date(time) { Some(Unit::Date) } else { None }
}

/// A decimal number, with a sign or without.
fn seconds(time: &[u8]) -> bool
    ensures { result ≡ is_seconds time.now }
{
    let (_, digits) = signed(time);
    let (front, rest) = part(b'.', digits);
    is_decimal(front, rest)
}

/// The form of a date, which has 0 where any digit may stand.
const DATE_FORM: &[u8] = b"0000-00-00T00:00:00";

/// `YYYY-MM-DDThh:mm:ss`, a point and digits or not, and the zone or none.
fn date(time: &[u8]) -> bool
    ensures { result ≡ is_date time.now }
{
    if time.len() < 19 {
        return false;
    }
    let (front, rest) = time.split_at(19);
    fits_form(DATE_FORM, front) && ends_date(rest)
}

/// A point and digits or not, and the zone or none.
fn ends_date(rest: &[u8]) -> bool
    ensures { result ≡ is_rest rest.now }
{
    match behind(b".", rest) {
        Some(digits) => ends_fraction(digits),
        None => zone(rest),
    }
}

/// Digits, one at least, and the zone or none.
fn ends_fraction(text: &[u8]) -> bool
    ensures { result ≡ is_fraction_and_zone false text.now }
{
    let mut some = false;
    let mut left = text;
    while let [byte, rest @ ..] = left {
        if !digit(*byte) {
            return some && zone(left);
        }
        some = true;
        left = rest;
    }
    some
}

/// `Z`, an offset or nothing.
fn zone(text: &[u8]) -> bool
    ensures { result ≡ is_zone text.now }
{
    fits_form(b"", text) || fits_form(b"Z", text) || offset(text)
}

/// `hh:mm` or `hhmm` behind a sign.
fn offset(text: &[u8]) -> bool
    ensures { result ≡ is_offset text.now }
{
    fits_form(b"+00:00", text)
        || fits_form(b"+0000", text)
        || fits_form(b"-00:00", text)
        || fits_form(b"-0000", text)
}

/// Whether a text has a form, which has 0 where any digit may stand.
fn fits_form(form: &[u8], text: &[u8]) -> bool
    ensures { result ≡ has_form form.now text.now }
{
    let mut form_left = form;
    let mut left = text;
    while let [formed, form_rest @ ..] = form_left {
        let [byte, rest @ ..] = left else {
            return false;
        };
        if !fits_byte(*formed, *byte) {
            return false;
        }
        form_left = form_rest;
        left = rest;
    }
    left.is_empty()
}

fn fits_byte(formed: u8, byte: u8) -> bool
    ensures { result ≡ fits formed byte }
{
    if formed == b'0' {
        digit(byte)
    } else {
        byte == formed
    }
}

fn digit(byte: u8) -> bool
    ensures { result ≡ is_digit byte }
{
    b'0' <= byte && byte <= b'9'
}
