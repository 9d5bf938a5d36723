//! Words of two bytes as numbers.
ghost use Rattle.std.specs.Prelude.{◌≡◌, ◌-◌, ◌^◌, ◌<◌, ◌≤◌, ℕ, ℤ, pos, negsuc, unsigned_abs};
ghost use Rattle.pmb_format.specs.Words.{CountsUp, signed_at, twos_complement};

/// Which number a word of two bytes is.
pub trait Word {
    /// The number of each word.
    ghost number: { ℕ → ℤ };

    /// The number of a word.
    fn number(code: u16) -> i32
        ensures value { result ≡ number code }
        ensures small { unsigned_abs result < 2 ^ 16 };

    /// The word of an index, from the least number upwards.
    ghost at: { ℕ → ℕ };

    /// The number at index 0.
    ghost least_number: { ℤ };

    /// The word of an index.
    fn at(index: u16) -> u16
        ensures { result ≡ at index };

    /// A law: the numbers rise by one with the index. It does nothing.
    fn counts()
        ensures { CountsUp number at least_number };
}

/// A word counts from 0 to 65535.
#[derive(Clone, Copy, Debug, PartialEq, Eq)]
pub struct UnsignedWord;

impl Word for UnsignedWord {
    ghost number = { λ code. pos code };

    fn number(code: u16) -> i32 {
        i32::from(code)
    }

    ghost at = { λ index. index };

    ghost least_number = { pos 0 };

    fn at(index: u16) -> u16 {
        index
    }

    fn counts() {}
}

/// A word counts from -32768 to 32767, in two's complement.
#[derive(Clone, Copy, Debug, PartialEq, Eq)]
pub struct SignedWord;

impl Word for SignedWord {
    ghost number = { twos_complement 16 };

    fn number(code: u16) -> i32 {
        twos_complement(16, code)
    }

    ghost at = { signed_at };

    ghost least_number = { negsuc 32767 };

    fn at(index: u16) -> u16 {
        index ^ 0x8000
    }

    fn counts() {}
}

/// A field of so many bits, read as a two's complement number.
pub fn twos_complement(bits: u32, field: u16) -> i32
    requires some { 1 ≤ bits }
    requires few { bits ≤ 16 }
    requires fits { field < 2 ^ bits }
    ensures value { result ≡ twos_complement bits field }
    ensures small { unsigned_abs result ≤ 2 ^ (bits - 1) }
{
    let half = 1i32 << (bits - 1);
    let value = i32::from(field);
    if value < half {
        value
    } else {
        value - 2 * half
    }
}
