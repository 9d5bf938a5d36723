//! Numbers, whole ones and those that a text spells.

use crate::compare::same;
use arrayvec::ArrayVec;
use pmb_json_text::{ItemOrder, begin, end, number_member, number_text_member};

/// A number, and the line of an object that has it alone.
static WHOLE: [(u64, &str); 6] = [
    (0, "{\"n\":0}\n"),
    (9, "{\"n\":9}\n"),
    (10, "{\"n\":10}\n"),
    (65_536, "{\"n\":65536}\n"),
    (9_223_372_036_854_775_808, "{\"n\":9223372036854775808}\n"),
    (u64::MAX, "{\"n\":18446744073709551615}\n"),
];

#[test]
fn whole_numbers(rt: HostRuntime) {
    for (number, line) in &WHOLE {
        let mut out = ArrayVec::<u8, 64>::new();
        begin(&mut out);
        number_member(&mut out, ItemOrder::First, "n", *number);
        end(&mut out);
        same(&rt, line, out.as_slice(), line.as_bytes());
    }
}

#[test]
fn numbers_of_a_text(rt: HostRuntime) {
    let mut out = ArrayVec::<u8, 128>::new();
    begin(&mut out);
    number_text_member(&mut out, ItemOrder::First, "volts", b"-0.5");
    number_text_member(&mut out, ItemOrder::Later, "amperes", b"12e-3");
    end(&mut out);
    same(
        &rt,
        "numbers of a text",
        out.as_slice(),
        &b"{\"volts\":-0.5,\"amperes\":12e-3}\n"[..],
    );
}
