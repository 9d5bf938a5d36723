//! Quantities and their nearest decimals, worked out by hand.
use crate::compare::same;
use arrayvec::ArrayVec;
use pmb_decimal::{Digits, append_decimal};
use pmb_quantity::Quantity;

/// The greatest numerator and denominator.
const GREATEST: i64 = 4_611_686_018_427_387_903;

/// A name, a numerator, a denominator, the number of digits, and the text.
#[rattlefmt::skip]
static ROWS: [(&str, i64, i64, u8, &str); 46] = [
    ("zero", 0, 1, 6, "0"),
    ("zero without digits", 0, 1, 0, "0"),
    ("a whole number", 12, 1, 6, "12"),
    ("zeros before the point stay", 1200, 1, 6, "1200"),
    ("a negative whole number", -7, 1, 12, "-7"),
    ("half without digits", 1, 2, 0, "0"),
    ("minus half without digits", -1, 2, 0, "0"),
    ("one and a half without digits", 3, 2, 0, "2"),
    ("minus one and a half without digits", -3, 2, 0, "-2"),
    ("two and a half without digits", 5, 2, 0, "2"),
    ("minus two and a half without digits", -5, 2, 0, "-2"),
    ("three and a half without digits", 7, 2, 0, "4"),
    ("half", 1, 2, 6, "0.5"),
    ("a quarter, the even digit below", 1, 4, 1, "0.2"),
    ("three quarters, the even digit above", 3, 4, 1, "0.8"),
    ("a negative tie below", -1, 4, 1, "-0.2"),
    ("a negative tie above", -3, 4, 1, "-0.8"),
    ("just over a tie", 2_500_001, 10_000_000, 1, "0.3"),
    ("just under a tie", 7_499_999, 10_000_000, 1, "0.7"),
    ("a third", 1, 3, 6, "0.333333"),
    ("minus a third", -1, 3, 6, "-0.333333"),
    ("two thirds", 2, 3, 6, "0.666667"),
    ("two thirds without digits", 2, 3, 0, "1"),
    ("a third without digits", 1, 3, 0, "0"),
    ("minus a third without digits", -1, 3, 0, "0"),
    ("a third with all digits", 1, 3, 12, "0.333333333333"),
    ("rounded to zero", -4, 10_000_000, 6, "0"),
    ("a tie that is rounded to zero", -5, 10_000_000, 6, "0"),
    ("just over that tie", -51, 100_000_000, 6, "-0.000001"),
    ("a tie up to 1", 9_999_995, 10_000_000, 6, "1"),
    ("a tie down", 9_999_985, 10_000_000, 6, "0.999998"),
    ("zeros at the end", 9_999_996, 10_000_000, 2, "1"),
    ("a zero in between", 5_040_000, 1_000_000, 6, "5.04"),
    ("zeros after the point", 1_000_001, 1_000_000, 6, "1.000001"),
    ("zeros that are rounded away", 10_000_001, 10_000_000, 6, "1"),
    ("a LINEAR11 value", 1_023, 1024, 6, "0.999023"),
    ("a LINEAR11 value with all digits", 1_023, 1024, 12, "0.9990234375"),
    ("the least of ULINEAR16", 1, 65_536, 6, "0.000015"),
    ("a LINEAR16 value", 6_145, 512, 6, "12.001953"),
    ("the greatest", GREATEST, 1, 0, "4611686018427387903"),
    ("the greatest with all digits", GREATEST, 1, 12, "4611686018427387903"),
    ("the least", -GREATEST, 1, 12, "-4611686018427387903"),
    ("the greatest that has a part", GREATEST, 2, 12, "2305843009213693951.5"),
    ("the least fraction", 1, GREATEST, 12, "0"),
    ("two greatest numbers", GREATEST - 1, GREATEST, 12, "1"),
    ("the longest text", -GREATEST, 4, 12, "-1152921504606846975.75"),
];

#[test]
fn rows(rt: HostRuntime) {
    for &(name, numerator, denominator, count, wanted) in &ROWS {
        let quantity = Quantity::new(numerator, denominator).expect(&rt, "a quantity");
        let digits = Digits::new(count).expect(&rt, "digits");
        let mut text = ArrayVec::<u8, 33>::new();
        append_decimal(&quantity, digits, &mut text);
        same(&rt, name, text.as_slice(), wanted.as_bytes());
    }
}

// What stands before it stays.
#[test]
fn appends(rt: HostRuntime) {
    let quantity = Quantity::new(-1, 8).expect(&rt, "a quantity");
    let mut text = ArrayVec::<u8, 40>::new();
    text.push(b':');
    append_decimal(&quantity, Digits::default(), &mut text);
    same(&rt, "a member", text.as_slice(), b":-0.125".as_slice());
}
