//! IEEE 754 half precision: worked values, the ends of its range, and ties.
use crate::compare::same;
use crate::formats::checks::{ABOVE, BELOW, check_code, check_text};
use pmb_half::{Half, has_no_value};
use pmb_value::RangeFault;

/// A name, a text, and its code or fault.
#[rattlefmt::skip]
static CODES: [(&str, &str, Result<u16, RangeFault>); 33] = [
    ("exact", "12", Ok(0x4a00)),
    ("one", "1", Ok(0x3c00)),
    ("below zero", "-2", Ok(0xc000)),
    ("rounded down", "1/3", Ok(0x3555)),
    ("rounded up", "0.1", Ok(0x2e66)),
    ("rounded, below zero", "-1/3", Ok(0xb555)),
    ("zero", "0", Ok(0x0000)),
    ("a tie goes to the even code", "2049", Ok(0x6800)),
    ("the next tie", "2051", Ok(0x6802)),
    ("a tie below zero", "-2049", Ok(0xe800)),
    ("the next tie below zero", "-2051", Ok(0xe802)),
    ("a little over a tie", "2049.000001", Ok(0x6801)),
    ("a tie with the next exponent", "4095.0", Ok(0x6c00)),
    ("a tie below the greatest", "65488", Ok(0x7bfe)),
    ("least above zero", "1/16777216", Ok(0x0001)),
    ("greatest below zero", "-1/16777216", Ok(0x8001)),
    ("a tie at zero", "1/33554432", Ok(0x0000)),
    ("a tie at zero, below it", "-1/33554432", Ok(0x0000)),
    ("a tie next to zero", "3/33554432", Ok(0x0002)),
    ("a tie next to zero, below it", "-3/33554432", Ok(0x8002)),
    ("a little over a tie at zero", "0.0000000299", Ok(0x0001)),
    ("least of all", "1/4611686018427387903", Ok(0x0000)),
    ("greatest subnormal", "1023/16777216", Ok(0x03ff)),
    ("least normal", "1/16384", Ok(0x0400)),
    ("a tie of both", "2047/33554432", Ok(0x0400)),
    ("62 bits over 62 bits", "4611686018427387903/4611686018427387902", Ok(0x3c00)),
    ("62 bits over 62 bits, below zero", "-4611686018427387903/4611686018427387902", Ok(0xbc00)),
    ("greatest", "65504", Ok(0x7bff)),
    ("least", "-65504", Ok(0xfbff)),
    ("over by one", "65505", ABOVE),
    ("a little over", "65504.000001", ABOVE),
    ("under by one", "-65505", BELOW),
    ("a little under", "-65504.001", BELOW),
];

#[test]
fn half_codes(rt: HostRuntime) {
    for &(name, text, wanted) in &CODES {
        check_code(&rt, name, &Half, text, wanted);
    }
}

/// A name, a code, and the text of its value.
#[rattlefmt::skip]
static TEXTS: [(&str, u16, &str); 14] = [
    ("zero", 0x0000, "0"),
    ("zero, not canonical", 0x8000, "0"),
    ("least above zero", 0x0001, "0.000000059604644775390625"),
    ("greatest below zero", 0x8001, "-0.000000059604644775390625"),
    ("greatest subnormal", 0x03ff, "0.000060975551605224609375"),
    ("least normal", 0x0400, "0.00006103515625"),
    ("nearest to a third", 0x3555, "0.333251953125"),
    ("next below one", 0x3bff, "0.99951171875"),
    ("one", 0x3c00, "1"),
    ("next above one", 0x3c01, "1.0009765625"),
    ("below zero", 0xc000, "-2"),
    ("exact", 0x4a00, "12"),
    ("greatest", 0x7bff, "65504"),
    ("least", 0xfbff, "-65504"),
];

#[test]
fn half_texts(rt: HostRuntime) {
    for &(name, code, wanted) in &TEXTS {
        check_text(&rt, name, &Half, code, wanted);
    }
}

/// A name, a word, and whether it is an infinity or no number.
#[rattlefmt::skip]
static WORDS: [(&str, u16, bool); 8] = [
    ("zero", 0x0000, false),
    ("greatest", 0x7bff, false),
    ("infinity", 0x7c00, true),
    ("no number", 0x7c01, true),
    ("the last above zero", 0x7fff, true),
    ("least", 0xfbff, false),
    ("infinity below zero", 0xfc00, true),
    ("the last word", 0xffff, true),
];

#[test]
fn half_words(rt: HostRuntime) {
    for &(name, word, wanted) in &WORDS {
        same(&rt, name, has_no_value(word), wanted);
    }
}
