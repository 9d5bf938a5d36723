//! The program of the crate's documentation.

use crate::compare::same;
use arrayvec::ArrayVec;
use pmb_command::standard;
use pmb_decimal::Digits;
use pmb_json_fields::{Access, Basis, DATA_MEMBERS, data_members, laws};
use pmb_keys::Command;
use pmb_unknown_start::KnownMode;
use pmb_value::{NumberFormat, Sign};
use pmb_voltage::{Voltages, laws as voltage_laws};

#[test]
fn example(rt: HostRuntime) {
    let mut out = ArrayVec::<u8, 4096>::new();
    let digits = Digits::new(2).expect(&rt, "digits");
    let voltages = Voltages {
        mode: KnownMode::Known(0x17),
        page: Some(0),
        coefficients: None,
        vid: None,
    };
    let command = Command::standard(standard(0x8b).expect(&rt, "a command"));
    data_members(
        &mut out,
        digits,
        Access::Read,
        &voltages,
        Basis::Assumed,
        &command,
        &[0xff, 0x01],
    );
    let members = b",\"value\":\"0.998046875\",\"number\":1,\"mode\":\"assumed\",\"unit\":\"V\"";
    same(&rt, "members", out.as_slice(), &members[..]);
    laws::keys_are_some_of_nine();
    laws::keys_are_distinct();
}

// That of `pmb_voltage`.
#[test]
fn voltage_example(rt: HostRuntime) {
    let voltages = Voltages {
        mode: KnownMode::Known(0x17),
        page: Some(0),
        coefficients: None,
        vid: None,
    };
    same(&rt, "a volt", is_a_volt(&voltages), true);
    voltage_laws::known_formats_are_the_same();
}

/// Whether the word 0200h of READ_VOUT is 1 V, and no factor.
fn is_a_volt(voltages: &Voltages<'_>) -> bool {
    match &voltages.format(0x8b, Sign::Unsigned) {
        Ok(read) => !read.is_ratio && is_one(&read.number),
        Err(_) => false,
    }
}

/// Whether the word 0200h is 1 in a format.
fn is_one(format: &NumberFormat) -> bool {
    match format.value(0x0200) {
        Ok(value) => value.text().as_str() == "1",
        Err(_) => false,
    }
}

// 16 bits whose names have 32 characters of 6 bytes each would take that many.
#[test]
fn bound(rt: HostRuntime) {
    same(
        &rt,
        "how long they may be",
        DATA_MEMBERS,
        22 + 16 * (3 + 6 * 32),
    );
}
