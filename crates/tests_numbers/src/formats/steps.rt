//! The count of an encoder's work.
use crate::compare::same;
use pmb_value::{Format, Linear11, Quantity, Steps};

#[test]
fn steps_count(rt: HostRuntime) {
    let mut steps = Steps::new();
    same(&rt, "none taken yet", steps.taken(), 0);
    let one = Quantity::new(1, 1).expect(&rt, "a quantity");
    same(&rt, "one", Linear11.encode(&one, &mut steps), Ok(0xba00));
    // Powers of two from 2^-16 on reach one at the eighth, and then comes the division.
    same(&rt, "one", steps.taken(), 9);
    let far = Quantity::new(1, 4_611_686_018_427_387_903).expect(&rt, "a quantity");
    same(
        &rt,
        "next to zero",
        Linear11.encode(&far, &mut steps),
        Ok(0x0000),
    );
    same(&rt, "the division is made for zero too", steps.taken(), 11);
}
