//! Bytes, as a table writes them.

ghost use Rattle.std.specs.Prelude.{◌≡◌};
ghost use Rattle.pmb_saleae.specs.Number.{number_of, two_digits};

use pmb_words::{behind, byte, decimal};

/// How a table writes bytes.
#[derive(Clone, Copy, Debug, PartialEq, Eq)]
pub enum Radix {
    /// `0x58`.
    Hexadecimal,
    /// `88`.
    Decimal,
}

/// A number and how it is written.
#[derive(Clone, Copy, Debug, PartialEq, Eq)]
pub(crate) struct Number {
    pub(crate) radix: Radix,
    pub(crate) value: u64,
}

/// `0x58`, or one to three decimal digits.
pub(crate) fn read_number(text: &[u8]) -> Option<Number>
    ensures { result ≡ number_of text.now }
{
    if let Some(digits) = behind(b"0x", text) {
        return hexadecimal_number(digits);
    }
    if text.len() > 3 {
        return None;
    }
    Some(Number {
        radix: Radix::Decimal,
        value: decimal(text)?,
    })
}

/// Two hexadecimal digits.
fn hexadecimal_number(digits: &[u8]) -> Option<Number>
    ensures { result ≡ two_digits digits.now }
{
    let [high, low] = digits else {
        return None;
    };
    Some(Number {
        radix: Radix::Hexadecimal,
        value: u64::from(byte(*high, *low)?),
    })
}
