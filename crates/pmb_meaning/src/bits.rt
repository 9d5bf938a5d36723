//! Bits of data, as numbers.

ghost use Rattle.std.specs.Prelude.{◌≡◌, ◌*◌, ◌<◌, ◌≤◌, ◌^◌, length};
ghost use Rattle.pmb_meaning.specs.Meaning.{number_of, picked};

/// Bytes as one number, the low byte first.
pub(crate) fn number(bytes: &[u8]) -> u64
    requires { length bytes.now ≤ 7 }
    ensures number { result ≡ number_of bytes.now }
    ensures small { result < 256 ^ length bytes.now }
{
    match bytes {
        [] => 0,
        [first, rest @ ..] => u64::from(*first) + 256 * number(rest),
    }
}

/// Some bits of a number, as a number: from the lowest of them, that many.
pub(crate) fn picked(number: u64, low: u8, width: u8) -> u32
    requires low { low < 64 }
    requires width { width ≤ 24 }
    ensures number { result ≡ picked number low width }
    ensures fits { result < 2 ^ width }
    ensures small { result < 2 ^ 24 }
{
    ((number >> low) % (1 << width)) as u32
}
