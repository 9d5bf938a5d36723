//! How a quantity is written.
//!
//! Its rows: `tests_numbers`, `src/formats/quantity.rt`; `tests/rows/numbers.txt`.
ghost use Rattle.std.specs.Prelude.{◌≡◌, ◌+◌, ◌*◌, ◌/◌, ◌%◌, ◌^◌, ◌<◌, ◌≤◌, [], ◌∷◌, ◌++◌, length, Some, IfSome};
ghost use Rattle.std.specs.Fmt.{decimal};
ghost use Rattle.arrayvec.specs.ArrayString.{array_string_len};
ghost use Rattle.pmb_quantity.specs.QuantityText.{after_point, magnitude_text, padded, places_of, spelling};

use crate::quantity::{Quantity, power_of_five, without_fives};
use arrayvec::ArrayString;

/// The text of a quantity: a sign, 19 digits, a point and 24 digits at most.
pub type QuantityText = ArrayString<45>;

/// The most digits after a point.
pub(crate) const PLACES: u32 = 24;

/// More fives than a number of 64 bits has as factors.
const MOST_FIVES: u32 = 28;

impl Quantity {
    /// The shortest exact decimal, as `-1.5`, where one has at most 24 digits after the point; else
    /// numerator and denominator, as `-2/3`.
    pub fn text(&self) -> QuantityText
        ensures { result.bytes ≡ spelling self.now }
    {
        let mut text = QuantityText::new();
        self.write_text(&mut text);
        text
    }

    /// The same text, put into one that is empty, so that no text is moved.
    pub fn write_text(&self, text: &mut QuantityText)
        requires { text.old.bytes ≡ [] }
        ensures { text.new.bytes ≡ spelling self.now }
    {
        if self.num() < 0 {
            push_ascii(text, b'-');
        }
        push_magnitude(text, self.num().unsigned_abs(), self.den().unsigned_abs());
    }
}

/// Appends a fraction without its sign. A denominator that is two to a power, as those of the linear
/// formats are, is written without a division.
fn push_magnitude(text: &mut QuantityText, numerator: u64, denominator: u64)
    requires numerator_fits { numerator < 2 ^ 62 }
    requires denominator_fits { denominator < 2 ^ 62 }
    requires positive { 0 < denominator }
    requires room { array_string_len text.old ≤ 1 }
    ensures { text.new.bytes
        ≡ text.old.bytes ++ magnitude_text numerator denominator (places_of denominator) }
{
    let halvings = denominator.trailing_zeros();
    if halvings <= PLACES && denominator == 1 << halvings {
        push_halved(text, numerator, halvings);
    } else {
        push_divided(text, numerator, denominator);
    }
}

/// Appends a number that is halved so many times. It needs a digit after the point for each.
fn push_halved(text: &mut QuantityText, numerator: u64, places: u32)
    requires numerator_fits { numerator < 2 ^ 62 }
    requires few { places ≤ 24 }
    requires room { array_string_len text.old ≤ 1 }
    ensures { text.new.bytes
        ≡ text.old.bytes ++ magnitude_text numerator (2 ^ places) (Some places) }
{
    push_number(text, numerator >> places);
    if places > 0 {
        push_ascii(text, b'.');
        push_halves(text, numerator & ((1 << places) - 1), places);
    }
}

/// Appends the digits after the point of a number below 2^places that is halved so many times. Each
/// is the whole part of ten times what is left.
fn push_halves(text: &mut QuantityText, numerator: u64, places: u32)
    requires below { numerator < 2 ^ places }
    requires few { places ≤ 24 }
    requires room { array_string_len text.old + places ≤ 45 }
    ensures { text.new.bytes ≡ text.old.bytes ++ padded places (numerator * 5 ^ places) }
{
    let mut left = numerator;
    let mut places = places;
    while places > 0 {
        places -= 1;
        let fives = 5 * left;
        push_ascii(text, b'0' + (fives >> places) as u8);
        left = fives & ((1 << places) - 1);
    }
}

/// Appends a fraction of any other denominator without its sign.
fn push_divided(text: &mut QuantityText, numerator: u64, denominator: u64)
    requires numerator_fits { numerator < 2 ^ 62 }
    requires denominator_fits { denominator < 2 ^ 62 }
    requires positive { 0 < denominator }
    requires room { array_string_len text.old ≤ 1 }
    ensures { text.new.bytes
        ≡ text.old.bytes ++ magnitude_text numerator denominator (places_of denominator) }
{
    match places_of(denominator) {
        Some(places) => {
            push_number(text, numerator / denominator);
            let unit = unit_of(places, denominator);
            push_after_point(text, places, u128::from(numerator % denominator) * unit);
        }
        None => {
            push_number(text, numerator);
            push_ascii(text, b'/');
            push_number(text, denominator);
        }
    }
}

/// The fewest digits after a point, up to 24, that write a fraction of this denominator: none, where
/// 24 digits don't do. Each digit takes out a two and a five.
fn places_of(denominator: u64) -> Option<u32>
    requires { 0 < denominator }
    ensures value { result ≡ places_of denominator }
    ensures few { IfSome result (λ places. places ≤ 24) }
{
    let twos = denominator.trailing_zeros();
    let (rest, left) = without_fives(denominator >> twos, MOST_FIVES);
    if rest != 1 {
        return None;
    }
    let places = twos.max(MOST_FIVES - left);
    if places <= PLACES { Some(places) } else { None }
}

/// How many units of the last place one part of this denominator has. Up to 18 places are divided
/// as numbers of 64 bits, which is several times as fast.
fn unit_of(places: u32, denominator: u64) -> u128
    requires few { places ≤ 24 }
    requires positive { 0 < denominator }
    ensures { result ≡ 10 ^ places / denominator }
{
    if places <= 18 {
        u128::from((power_of_five(places) << places) / denominator)
    } else {
        power_of_ten(places) / u128::from(denominator)
    }
}

/// Ten to so many places.
pub(crate) fn power_of_ten(places: u32) -> u128
    requires { places ≤ 24 }
    ensures value { result ≡ 10 ^ places }
    ensures small { result < 2 ^ 80 }
    ensures positive { 0 < result }
{
    10u128.pow(places)
}

/// Appends a number, two digits at a time.
fn push_number(text: &mut QuantityText, number: u64)
    requires { array_string_len text.old + length (decimal number) ≤ 45 }
    ensures { text.new.bytes ≡ text.old.bytes ++ decimal number }
{
    if number < 10 {
        push_ascii(text, b'0' + number as u8);
        return;
    }
    if number < 100 {
        push_pair(text, number);
        return;
    }
    push_number(text, number / 100);
    push_pair(text, number % 100);
}

/// Appends two digits.
fn push_pair(text: &mut QuantityText, number: u64)
    requires small { number < 100 }
    requires room { array_string_len text.old + 2 ≤ 45 }
    ensures { text.new.bytes ≡ text.old.bytes ++ (48 + number / 10) ∷ (48 + number % 10) ∷ [] }
{
    push_ascii(text, b'0' + (number / 10) as u8);
    push_ascii(text, b'0' + (number % 10) as u8);
}

/// Appends a point and so many digits, or nothing for none.
fn push_after_point(text: &mut QuantityText, places: u32, number: u128)
    requires few { places ≤ 24 }
    requires room { array_string_len text.old + places + 1 ≤ 45 }
    ensures { text.new.bytes ≡ text.old.bytes ++ after_point places number }
{
    if places > 0 {
        push_ascii(text, b'.');
        match u64::try_from(number) {
            Ok(number) => push_padded_word(text, places, number),
            Err(_) => push_padded(text, places, number),
        }
    }
}

/// Appends the last digits of a number, so many.
fn push_padded(text: &mut QuantityText, places: u32, number: u128)
    requires { array_string_len text.old + places ≤ 45 }
    ensures { text.new.bytes ≡ text.old.bytes ++ padded places number }
{
    if places > 0 {
        push_padded(text, places - 1, number / 10);
        push_ascii(text, b'0' + (number % 10) as u8);
    }
}

/// The same of a number of 64 bits, whose digits are told much faster.
fn push_padded_word(text: &mut QuantityText, places: u32, number: u64)
    requires { array_string_len text.old + places ≤ 45 }
    ensures { text.new.bytes ≡ text.old.bytes ++ padded places number }
{
    if places > 0 {
        push_padded_word(text, places - 1, number / 10);
        push_ascii(text, b'0' + (number % 10) as u8);
    }
}

/// Appends an ASCII character. The remainder changes none, and tells the compiler that it has one
/// byte.
fn push_ascii(text: &mut QuantityText, character: u8)
    requires is_ascii { character < 128 }
    requires room { array_string_len text.old < 45 }
    ensures { text.new.bytes ≡ text.old.bytes ++ character ∷ [] }
{
    text.push(char::from(character % 128));
}
