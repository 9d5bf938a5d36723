//! The text of a number of units of a last digit, as `pmb_decimal` writes one.
//!
//! Its rows: `tests_numbers`, `src/means.rt`.

ghost use Rattle.std.specs.Prelude.{◌≡◌, ◌+◌, ◌/◌, ◌%◌, ◌^◌, ◌<◌, ◌≤◌, ◌++◌, length};
ghost use Rattle.std.specs.Fmt.{decimal};
ghost use Rattle.pmb_quantity.specs.QuantityText.{minus, padded};
ghost use Rattle.pmb_quantity.specs.Reading.{without_last_zeros};
ghost use Rattle.pmb_decimal.specs.Decimal.{after_point, magnitude_text, with_sign};

use arrayvec::ArrayVec;
use itoa::Buffer;
use pmb_decimal::Digits;

/// Appends a `-` before a negative number of units.
pub(crate) fn append_sign<const N: usize>(numerator: i128, units: u128, out: &mut ArrayVec<u8, N>)
    requires room { length out.old.items + 1 ≤ N }
    ensures text { out.new.items ≡ out.old.items ++ minus (with_sign numerator units) }
    ensures short { length out.new.items ≤ length out.old.items + 1 }
{
    if numerator < 0 && units > 0 {
        out.push(b'-');
    }
}

/// How many units of the last digit make 1.
pub(crate) fn unit_of(digits: Digits) -> u64
    ensures value { result ≡ 10 ^ digits }
    ensures positive { 0 < result }
    ensures small { result ≤ 10 ^ 12 }
{
    10u64.pow(u32::from(digits.count()))
}

/// Appends a number of units of the last digit, without a sign.
pub(crate) fn append_units<const N: usize>(
    units: u128,
    unit: u64,
    digits: Digits,
    out: &mut ArrayVec<u8, N>,
)
    requires unit { unit ≡ 10 ^ digits }
    requires fits { units / unit < 2 ^ 62 }
    requires room { length out.old.items + 32 ≤ N }
    ensures text { out.new.items ≡ out.old.items ++ magnitude_text digits units }
    ensures short { length out.new.items ≤ length out.old.items + 32 }
{
    let (whole, part) = split(units, unit);
    append_whole(whole, out);
    append_part(part, digits.count(), out);
}

/// The whole part and the rest of a number of units.
fn split(units: u128, unit: u64) -> (u64, u64)
    requires positive { 0 < unit }
    requires fits { units / unit < 2 ^ 62 }
    ensures whole { result.0 ≡ units / unit }
    ensures part { result.1 ≡ units % unit }
{
    match u64::try_from(units) {
        Ok(units) => (units / unit, units % unit),
        Err(_) => {
            let unit = u128::from(unit);
            ((units / unit) as u64, (units % unit) as u64)
        }
    }
}

/// Appends a whole number.
fn append_whole<const N: usize>(whole: u64, out: &mut ArrayVec<u8, N>)
    requires fits { whole < 2 ^ 62 }
    requires room { length out.old.items + 19 ≤ N }
    ensures text { out.new.items ≡ out.old.items ++ decimal whole }
    ensures short { length out.new.items ≤ length out.old.items + 19 }
{
    append(out, Buffer::new().format(whole).as_bytes());
}

/// Appends bytes.
fn append<const N: usize>(out: &mut ArrayVec<u8, N>, bytes: &[u8])
    requires { length out.old.items + length bytes.now ≤ N }
    ensures { out.new.items ≡ out.old.items ++ bytes.now }
{
    let _ = out.try_extend_from_slice(bytes);
}

/// Appends a point and the digits after it, or nothing where all of them are 0.
fn append_part<const N: usize>(part: u64, places: u8, out: &mut ArrayVec<u8, N>)
    requires few { places ≤ 12 }
    requires below { part < 10 ^ places }
    requires room { length out.old.items + 13 ≤ N }
    ensures text { out.new.items
        ≡ out.old.items ++ after_point (without_last_zeros (padded places part)) }
    ensures short { length out.new.items ≤ length out.old.items + 13 }
{
    if part > 0 {
        out.push(b'.');
        append_digits(part, places, out);
    }
}

/// Appends that many last digits of a number, without the zeros at their end.
fn append_digits<const N: usize>(number: u64, places: u8, out: &mut ArrayVec<u8, N>)
    requires room { length out.old.items + places ≤ N }
    ensures text { out.new.items ≡ out.old.items ++ without_last_zeros (padded places number) }
    ensures short { length out.new.items ≤ length out.old.items + places }
{
    if places > 0 {
        if number % 10 == 0 {
            append_digits(number / 10, places - 1, out);
        } else {
            append_padded(number, places, out);
        }
    }
}

/// Appends that many last digits of a number.
fn append_padded<const N: usize>(number: u64, places: u8, out: &mut ArrayVec<u8, N>)
    requires room { length out.old.items + places ≤ N }
    ensures text { out.new.items ≡ out.old.items ++ padded places number }
    ensures short { length out.new.items ≡ length out.old.items + places }
{
    if places > 0 {
        append_padded(number / 10, places - 1, out);
        out.push(b'0' + (number % 10) as u8);
    }
}
