//! Fractions from a fixed seed, beside a slow definition: long division as by hand, a digit at a
//! time, and one more at the last digit where what is left asks for it.
use crate::compare::same;
use arrayvec::ArrayVec;
use pmb_decimal::{Digits, append_decimal};
use pmb_quantity::Quantity;

/// The digits of a decimal: 19 before the point, and 12 after it.
const DIGITS: usize = 31;

/// How often one number goes into another, at most 9 times, and what is left.
fn taken_out(number: u128, place: u128) -> (u8, u128) {
    let mut left = number;
    let mut digit = 0u8;
    for _ in 0..9u8 {
        if left >= place {
            left -= place;
            digit = digit.wrapping_add(1);
        }
    }
    (digit, left)
}

/// One more at the digit of this index.
fn raise(digits: &mut [u8; DIGITS], last: usize) {
    let mut carries = true;
    for back in 0..DIGITS {
        let at = 30 - back;
        if carries && at <= last {
            carries = digits[at] == 9;
            digits[at] = if carries {
                0
            } else {
                digits[at].wrapping_add(1)
            };
        }
    }
}

/// The digits of the nearest decimal with that many after the point.
fn long_division(numerator: u64, denominator: u64, count: usize) -> [u8; DIGITS] {
    let mut digits = [0u8; DIGITS];
    let mut left = u128::from(numerator);
    let mut place = u128::from(denominator).wrapping_mul(1_000_000_000_000_000_000);
    let last = count.wrapping_add(18);
    let mut odd = false;
    for at in 0..DIGITS {
        if at <= last {
            let (digit, rest) = taken_out(left, place);
            digits[at] = digit;
            odd = digit % 2 == 1;
            if at < 18 {
                place = place / 10;
                left = rest;
            } else {
                left = rest.wrapping_mul(10);
            }
        }
    }
    let half = u128::from(denominator).wrapping_mul(5);
    if left > half || (left == half && odd) {
        raise(&mut digits, last);
    }
    digits
}

/// The text of some digits.
fn text_of(negative: bool, digits: &[u8; DIGITS]) -> ArrayVec<u8, 64> {
    let mut text = ArrayVec::<u8, 64>::new();
    if negative && digits.iter().any(|digit| *digit != 0) {
        let _ = text.try_push(b'-');
    }
    let mut begun = false;
    for at in 0..DIGITS {
        begun = begun || at == 18 || digits[at] != 0;
        let ended = at > 18 && digits[at..].iter().all(|digit| *digit == 0);
        if at == 19 && !ended {
            let _ = text.try_push(b'.');
        }
        if begun && !ended {
            let _ = text.try_push(digits[at].wrapping_add(b'0'));
        }
    }
    text
}

/// Numbers that follow no pattern, from a fixed seed.
#[derive(Drop)]
struct Random {
    state: u64,
}

impl Random {
    /// A number below 2^62, and above 0, of any size.
    fn number(&mut self) -> i64 {
        let sized = self.word() % 62;
        let number = (self.word() << 31) ^ self.word();
        ((number & 0x3fff_ffff_ffff_ffff) >> sized) as i64 | 1
    }

    /// The next 31 bits.
    fn word(&mut self) -> u64 {
        self.state = self
            .state
            .wrapping_mul(6_364_136_223_846_793_005)
            .wrapping_add(1_442_695_040_888_963_407);
        self.state >> 33
    }

    /// A denominator: of the linear formats, one that has ties, or any.
    fn denominator(&mut self) -> i64 {
        match self.word() % 3 {
            0 => 1i64.wrapping_shl((self.word() % 25) as u32),
            1 => 10i64
                .wrapping_pow((self.word() % 13) as u32)
                .wrapping_mul(2),
            _ => self.number(),
        }
    }
}

#[test]
fn decimals_are_the_slow_ones(rt: HostRuntime) {
    let mut random = Random { state: 24 };
    for case in 0..1_000u32 {
        let sign = if random.word() % 2 == 0 { 1 } else { -1 };
        let numerator = random.number().wrapping_mul(sign);
        let denominator = random.denominator();
        let count = (random.word() % 13) as u8;
        let quantity = Quantity::new(numerator, denominator).expect(&rt, "a quantity");
        let digits = Digits::new(count).expect(&rt, "digits");
        let mut text = ArrayVec::<u8, 33>::new();
        append_decimal(&quantity, digits, &mut text);
        let slow = long_division(
            quantity.num().unsigned_abs(),
            quantity.den().unsigned_abs(),
            usize::from(count),
        );
        same(
            &rt,
            ("case", case, numerator, "/", denominator, count, "digits"),
            text.as_slice(),
            text_of(quantity.num() < 0, &slow).as_slice(),
        );
    }
}
