//! Numbers, as programs print them.

ghost use Rattle.std.specs.Prelude.{◌≡◌, ℕ, ◌*◌, ◌^◌, ◌<◌, ◌≤◌, length, IfSome};
ghost use Rattle.hex.specs.Hex.{hex_digit_value};
ghost use Rattle.pmb_words.specs.Numbers.{byte_of, decimal_of, fitting_of, hexadecimal_of, with_digit, with_value};

/// The number that a text writes with one decimal digit or more: the greatest `u64` where it is over
/// that.
#[inline]
pub fn decimal(text: &[u8]) -> Option<u64>
    ensures { result ≡ decimal_of text.now }
{
    if text.is_empty() {
        return None;
    }
    let mut number: u64 = 0;
    let mut left = text;
    while let [digit, rest @ ..] = left {
        if *digit < b'0' || *digit > b'9' {
            return None;
        }
        let value = u64::from(*digit - b'0');
        number = number.saturating_mul(10).saturating_add(value);
        left = rest;
    }
    Some(number)
}

/// The number that a text writes with one decimal digit or more, where it fits a `u64`.
#[inline]
pub fn fitting_decimal(text: &[u8]) -> Option<u64>
    ensures { result ≡ fitting_of text.now }
{
    if text.is_empty() {
        return None;
    }
    let mut number = Some(0);
    let mut left = text;
    while let [digit, rest @ ..] = left {
        if *digit < b'0' || *digit > b'9' {
            return None;
        }
        number = with_decimal(number, *digit - b'0');
        left = rest;
    }
    number
}

/// A number with a digit behind it, where it fits.
#[inline]
fn with_decimal(number: Option<u64>, value: u8) -> Option<u64>
    requires { value ≤ 9 }
    ensures { result ≡ with_value number value }
{
    number?.checked_mul(10)?.checked_add(u64::from(value))
}

/// The value of a hexadecimal digit, of either case.
#[inline]
pub fn hexadecimal_digit(digit: u8) -> Option<u8>
    ensures value { result ≡ hex_digit_value digit }
    ensures small { IfSome result (λ value. value < 16) }
{
    match digit {
        b'0'..=b'9' => Some(digit - b'0'),
        b'a'..=b'f' => Some(digit - b'a' + 10),
        b'A'..=b'F' => Some(digit - b'A' + 10),
        _ => None,
    }
}

/// The byte of two hexadecimal digits.
#[inline]
pub fn byte(high: u8, low: u8) -> Option<u8>
    ensures value { result ≡ byte_of high low }
    ensures small { IfSome result (λ value. value < 256) }
{
    let high = hexadecimal_digit(high)?;
    let low = hexadecimal_digit(low)?;
    Some(high * 16 + low)
}

/// A number with a hexadecimal digit behind it.
#[inline]
fn with_hexadecimal(number: Option<u64>, digit: u8) -> Option<u64>
    requires { IfSome number (λ number. number < 2 ^ 32) }
    ensures value { result ≡ with_digit number (hex_digit_value digit) }
    ensures small { (most : ℕ) → IfSome number (λ number. number < most) → IfSome result (λ result. result < 16 * most) }
{
    let number = number?;
    let value = hexadecimal_digit(digit)?;
    Some(number * 16 + u64::from(value))
}

/// The number of at most four hexadecimal digits, 0 without any.
#[inline]
pub fn hexadecimal(digits: &[u8]) -> Option<u64>
    requires { length digits.now ≤ 4 }
    ensures value { result ≡ hexadecimal_of digits.now }
    ensures small { IfSome result (λ number. number < 65536) }
{
    match digits {
        [] => Some(0),
        [a] => with_hexadecimal(Some(0), *a),
        [a, b] => with_hexadecimal(with_hexadecimal(Some(0), *a), *b),
        [a, b, c] => {
            let high = with_hexadecimal(with_hexadecimal(Some(0), *a), *b);
            with_hexadecimal(high, *c)
        }
        [a, b, c, d] => {
            let high = with_hexadecimal(with_hexadecimal(Some(0), *a), *b);
            with_hexadecimal(with_hexadecimal(high, *c), *d)
        }
        _ => None,
    }
}
