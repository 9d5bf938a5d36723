//! LINEAR11: rows of data sheets, the ends of its range, and ties.
use crate::compare::same;
use crate::formats::checks::{ABOVE, BELOW, check_code, check_text};
use pmb_value::{Format, Linear11, RangeFault, Steps};

/// A name, a text, and its code or fault.
#[rattlefmt::skip]
static CODES: [(&str, &str, Result<u16, RangeFault>); 18] = [
    ("exact", "12", Ok(0xd300)),
    ("one, at its least exponent", "1", Ok(0xba00)),
    ("a tie goes to the even code", "1023.5", Ok(0x0a00)),
    ("greatest", "33521664", Ok(0x7bff)),
    ("nearer to a code of another exponent", "-1024.75", Ok(0x0400)),
    ("a tie between two exponents", "-1025", Ok(0x0400)),
    ("least", "-33554432", Ok(0x7c00)),
    ("a tie at zero", "1/131072", Ok(0x0000)),
    ("a tie next to zero", "3/131072", Ok(0x8002)),
    ("zero", "0", Ok(0x0000)),
    ("62 bits over 62 bits", "4611686018427387903/4611686018427387902", Ok(0xba00)),
    ("62 bits over 62 bits, below zero", "-4611686018427387903/4611686018427387902", Ok(0xb400)),
    ("least of all", "1/4611686018427387903", Ok(0x0000)),
    ("a little beyond a tie", "-1048577/137438953472", Ok(0x87ff)),
    ("over by one", "33521665", ABOVE),
    ("a little over", "33521664.000001", ABOVE),
    ("under by one", "-33554433", BELOW),
    ("a little under", "-33554432.000001", BELOW),
];

#[test]
fn linear11_codes(rt: HostRuntime) {
    for &(name, text, wanted) in &CODES {
        check_code(&rt, name, &Linear11, text, wanted);
    }
}

/// A name, a code, and the text of its value.
static TEXTS: [(&str, u16, &str); 3] = [
    ("one, not canonical", 0x0001, "1"),
    ("zero, not canonical", 0x8000, "0"),
    ("exact", 0xd300, "12"),
];

#[test]
fn linear11_texts(rt: HostRuntime) {
    for &(name, code, wanted) in &TEXTS {
        check_text(&rt, name, &Linear11, code, wanted);
    }
}

/// The middle between two neighbouring values, which is the row's name too: at each change of
/// exponent, and around zero.
static TIES: [(&str, u16); 66] = [
    ("-16793600", 0x7400),
    ("-8396800", 0x6c00),
    ("-4198400", 0x6400),
    ("-2099200", 0x5c00),
    ("-1049600", 0x5400),
    ("-524800", 0x4c00),
    ("-262400", 0x4400),
    ("-131200", 0x3c00),
    ("-65600", 0x3400),
    ("-32800", 0x2c00),
    ("-16400", 0x2400),
    ("-8200", 0x1c00),
    ("-4100", 0x1400),
    ("-2050", 0x0c00),
    ("-1025", 0x0400),
    ("-512.5", 0xfc00),
    ("-256.25", 0xf400),
    ("-128.125", 0xec00),
    ("-64.0625", 0xe400),
    ("-32.03125", 0xdc00),
    ("-16.015625", 0xd400),
    ("-8.0078125", 0xcc00),
    ("-4.00390625", 0xc400),
    ("-2.001953125", 0xbc00),
    ("-1.0009765625", 0xb400),
    ("-0.50048828125", 0xac00),
    ("-0.250244140625", 0xa400),
    ("-0.1251220703125", 0x9c00),
    ("-0.06256103515625", 0x9400),
    ("-0.031280517578125", 0x8c00),
    ("-0.0156402587890625", 0x8400),
    ("0.01561737060546875", 0x8a00),
    ("0.0312347412109375", 0x9200),
    ("0.062469482421875", 0x9a00),
    ("0.12493896484375", 0xa200),
    ("0.2498779296875", 0xaa00),
    ("0.499755859375", 0xb200),
    ("0.99951171875", 0xba00),
    ("1.9990234375", 0xc200),
    ("3.998046875", 0xca00),
    ("7.99609375", 0xd200),
    ("15.9921875", 0xda00),
    ("31.984375", 0xe200),
    ("63.96875", 0xea00),
    ("127.9375", 0xf200),
    ("255.875", 0xfa00),
    ("511.75", 0x0200),
    ("1023.5", 0x0a00),
    ("2047", 0x1200),
    ("4094", 0x1a00),
    ("8188", 0x2200),
    ("16376", 0x2a00),
    ("32752", 0x3200),
    ("65504", 0x3a00),
    ("131008", 0x4200),
    ("262016", 0x4a00),
    ("524032", 0x5200),
    ("1048064", 0x5a00),
    ("2096128", 0x6200),
    ("4192256", 0x6a00),
    ("8384512", 0x7200),
    ("16769024", 0x7a00),
    ("-0.00002288818359375", 0x87fe),
    ("-0.00000762939453125", 0x0000),
    ("0.00000762939453125", 0x0000),
    ("0.00002288818359375", 0x8002),
];

#[test]
fn linear11_ties(rt: HostRuntime) {
    for &(text, code) in &TIES {
        check_code(&rt, text, &Linear11, text, Ok(code));
    }
}

/// The canonical code of a LINEAR11 code: the mantissa is doubled while it has room.
fn canonical(code: u16) -> Option<u16> {
    let mut mantissa = i32::from(code & 0x7ff);
    if mantissa >= 1024 {
        mantissa -= 2048;
    }
    let mut exponent = i32::from(code >> 11);
    if exponent >= 16 {
        exponent -= 32;
    }
    for _ in 0..32u8 {
        if mantissa >= -512 && mantissa <= 511 && exponent > -16 {
            mantissa *= 2;
            exponent -= 1;
        }
    }
    if mantissa == 0 {
        return Some(0);
    }
    u16::try_from(exponent.rem_euclid(32) * 2048 + mantissa.rem_euclid(2048)).ok()
}

#[test]
fn linear11_round_trip(rt: HostRuntime) {
    for step in 0..1075u16 {
        let code = step * 61;
        let quantity = Linear11.decode(code);
        let again = Linear11.encode(&quantity, &mut Steps::new());
        same(&rt, ("at", code), again.ok(), canonical(code));
    }
}
