//! The plain encoder: it compares a quantity with every code of a format, by the format's
//! definition alone.
//!
//! It is slow, and short enough to be believed. The encoders are compared with it.
use pmb_value::RangeFault;

/// The codes of every format are among the numbers below this one.
const WORDS: u32 = 0x1_0000;

/// A format, as its definition says it.
#[derive(Clone, Copy)]
pub(crate) enum Definition {
    /// LINEAR11.
    Linear11,
    /// LINEAR11 with one exponent, here over -16.
    Linear11Fixed(u32),
    /// DIRECT, by m, b and two powers of ten, 10^max(-R, 0) and 10^max(R, 0).
    Direct(i64, i64, i64, i64),
}

/// A code, and how far it is from a quantity.
#[derive(Clone, Copy)]
struct Candidate {
    code: u16,
    distance: u64,
}

impl Candidate {
    /// Whether this one is nearer, or as near and even where the other is odd.
    fn beats(&self, other: &Candidate) -> bool {
        self.distance < other.distance
            || (self.distance == other.distance && self.code % 2 < other.code % 2)
    }
}

impl Definition {
    /// The numerator of a word's value, over the denominator.
    pub(crate) fn numerator(&self, word: u16) -> i64 {
        match *self {
            Definition::Linear11 | Definition::Linear11Fixed(_) => {
                mantissa(word).wrapping_mul(1i64.wrapping_shl(power(word)))
            }
            Definition::Direct(m, b, down, up) => {
                let number = i64::from(word);
                let signed = if number < 32768 {
                    number
                } else {
                    number - 65536
                };
                let difference = signed.wrapping_mul(down).wrapping_sub(b.wrapping_mul(up));
                m.signum().wrapping_mul(difference)
            }
        }
    }

    /// The denominator of every value.
    pub(crate) fn denominator(&self) -> i64 {
        match *self {
            Definition::Linear11 | Definition::Linear11Fixed(_) => 65536,
            Definition::Direct(m, _, _, up) => m.wrapping_abs().wrapping_mul(up),
        }
    }

    /// Whether an encoder writes this word.
    pub(crate) fn is_written(&self, word: u16) -> bool {
        match *self {
            Definition::Linear11 => word == 0 || is_least(word),
            Definition::Linear11Fixed(fixed) => power(word) == fixed,
            Definition::Direct(..) => true,
        }
    }

    /// The code nearest to the quantity `twice / (2 * denominator)`, the even one at a tie, or the
    /// fault of one outside the range.
    pub(crate) fn encode(&self, twice: i64) -> Result<u16, RangeFault> {
        let mut best: Option<Candidate> = None;
        let mut reaches = false;
        let mut is_reached = false;
        for index in 0..WORDS {
            let code = index as u16;
            if self.is_written(code) {
                let value = self.numerator(code).wrapping_mul(2);
                reaches |= value <= twice;
                is_reached |= twice <= value;
                let distance = twice.wrapping_sub(value).unsigned_abs();
                best = better(Candidate { code, distance }, best);
            }
        }
        match best {
            Some(nearest) if reaches && is_reached => Ok(nearest.code),
            _ if reaches => Err(RangeFault::Above),
            _ => Err(RangeFault::Below),
        }
    }

    /// The least numerator over another, if there is one.
    pub(crate) fn next(&self, numerator: i64) -> Option<i64> {
        let mut least = i64::MAX;
        for index in 0..WORDS {
            let code = index as u16;
            let other = self.numerator(code);
            if other > numerator && other < least && self.is_written(code) {
                least = other;
            }
        }
        if least < i64::MAX { Some(least) } else { None }
    }
}

/// The better of two.
fn better(candidate: Candidate, best: Option<Candidate>) -> Option<Candidate> {
    match best {
        Some(holder) if !candidate.beats(&holder) => best,
        _ => Some(candidate),
    }
}

/// Bits 10:0 in two's complement.
fn mantissa(word: u16) -> i64 {
    let field = i64::from(word % 2048);
    if field < 1024 { field } else { field - 2048 }
}

/// Bits 15:11 in two's complement, over -16.
fn power(word: u16) -> u32 {
    (u32::from(word) / 2048 + 16) % 32
}

/// Whether no smaller exponent holds the value, which is not zero.
fn is_least(word: u16) -> bool {
    let mantissa = mantissa(word);
    mantissa != 0 && (power(word) == 0 || mantissa < -512 || mantissa > 511)
}
