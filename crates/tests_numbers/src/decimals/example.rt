//! The program of the crate's documentation.
use crate::compare::same;
use arrayvec::ArrayVec;
use pmb_decimal::{Digits, append_decimal, laws};
use pmb_quantity::Quantity;

#[test]
fn example(rt: HostRuntime) {
    let third = Quantity::new(-1, 3).expect(&rt, "a quantity");
    let mut text = ArrayVec::<u8, 33>::new();
    let digits = Digits::new(4).expect(&rt, "digits");
    append_decimal(&third, digits, &mut text);
    same(&rt, "a third", text.as_slice(), b"-0.3333".as_slice());
    laws::decimals_are_nearest();
    laws::one_decimal_is_nearest();
    laws::decimals_read_back();
    laws::decimals_are_numbers();
    laws::exact_decimals_are_texts();
}

#[test]
fn numbers_of_digits(rt: HostRuntime) {
    same(&rt, "at first", Digits::default().count(), 6);
    for count in 0..13u8 {
        let digits = Digits::new(count).expect(&rt, "digits");
        same(&rt, count, digits.count(), count);
    }
    same(&rt, "one too many", Digits::new(13), None);
    same(&rt, "far too many", Digits::new(255), None);
}
