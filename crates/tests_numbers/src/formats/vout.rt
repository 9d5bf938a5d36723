//! The formats that VOUT_MODE names.
use crate::compare::same;
use crate::formats::checks::{ABOVE, BELOW, check_code, check_text};
use pmb_value::{Direct, ModeFault, RangeFault, VoutFormat, vout_format};

/// A name, a text, and its code or fault under VOUT_MODE 17h: exponent -9.
static CODES: [(&str, &str, Result<u16, RangeFault>); 6] = [
    ("exact", "12", Ok(0x1800)),
    ("a tie goes down to an even code", "1/1024", Ok(0x0000)),
    ("a tie goes up to an even code", "3/1024", Ok(0x0002)),
    ("greatest", "127.998046875", Ok(0xffff)),
    ("over", "128", ABOVE),
    ("under", "-1", BELOW),
];

#[test]
fn vout_codes(rt: HostRuntime) {
    let format = vout_format(0x17, false, None).expect(&rt, "a format");
    for &(name, text, wanted) in &CODES {
        check_code(&rt, name, &format, text, wanted);
    }
}

/// A name, a text, and its code for a trim under VOUT_MODE 17h: a tie goes to the even code on both
/// sides of zero.
static TRIMS: [(&str, &str, Result<u16, RangeFault>); 4] = [
    ("a tie over zero", "1/1024", Ok(0x0000)),
    ("the next tie over zero", "3/1024", Ok(0x0002)),
    ("a tie below zero", "-1/1024", Ok(0x0000)),
    ("the next tie below zero", "-3/1024", Ok(0xfffe)),
];

#[test]
fn vout_signed(rt: HostRuntime) {
    let trim = vout_format(0x17, true, None).expect(&rt, "a format");
    for &(name, text, wanted) in &TRIMS {
        check_code(&rt, name, &trim, text, wanted);
    }
    check_text(&rt, "a trim below zero", &trim, 0xffff, "-0.001953125");
}

#[test]
fn vout_direct(rt: HostRuntime) {
    let direct = Direct::new(3, 2, 1).expect(&rt, "coefficients");
    let format = vout_format(0x5f, true, Some(direct));
    same(
        &rt,
        "its own coefficients",
        format,
        Ok(VoutFormat::Direct(direct)),
    );
}

#[test]
fn vout_direct_without_a_sign(rt: HostRuntime) {
    let direct = Direct::new(3, 2, 1).expect(&rt, "coefficients");
    let unsigned = direct.unsigned();
    let format = vout_format(0x40, false, Some(unsigned));
    same(
        &rt,
        "words without a sign",
        format,
        Ok(VoutFormat::Direct(unsigned)),
    );
}

#[test]
fn vout_direct_of_a_trim(rt: HostRuntime) {
    let direct = Direct::new(3, 2, 1).expect(&rt, "coefficients");
    let unsigned = direct.unsigned();
    let format = vout_format(0x40, true, Some(unsigned));
    same(
        &rt,
        "a trim has a sign",
        format,
        Ok(VoutFormat::Direct(direct)),
    );
}

/// A name, a VOUT_MODE, and its fault where there are no coefficients.
static FAULTS: [(&str, u8, ModeFault); 5] = [
    ("relative, linear", 0x97, ModeFault::Relative),
    ("relative before VID", 0xa0, ModeFault::Relative),
    ("VID", 0x20, ModeFault::Vid),
    ("IEEE half precision", 0x60, ModeFault::Ieee),
    ("DIRECT", 0x40, ModeFault::NoCoefficients),
];

#[test]
fn vout_faults(rt: HostRuntime) {
    for &(name, mode, fault) in &FAULTS {
        same(&rt, name, vout_format(mode, false, None), Err(fault));
    }
}
