//! The units of commands, by hand from PMBus Part II and from the rules in `docs/profiles.md`.
use crate::compare::same;
use crate::parts::profile_of;
use pmb_command::standard_unit;

/// The standard's units, each with the codes of its commands.
#[rattlefmt::skip]
static UNITS: [(&str, &[u8]); 11] = [
    ("V", &[
        0x21, 0x22, 0x23, 0x24, 0x25, 0x26, 0x2b, 0x35, 0x36, 0x40, 0x42, 0x43, 0x44, 0x48, 0x55, 0x57,
        0x58, 0x59, 0x5e, 0x5f, 0x88, 0x8a, 0x8b, 0xa0, 0xa1, 0xa4, 0xa5,
    ]),
    ("A", &[0x39, 0x46, 0x4a, 0x4b, 0x5b, 0x5d, 0x89, 0x8c, 0xa2, 0xa6]),
    ("W", &[0x31, 0x68, 0x6a, 0x6b, 0x96, 0x97, 0xa3, 0xa7]),
    ("degC", &[0x4f, 0x51, 0x52, 0x53, 0x8d, 0x8e, 0x8f, 0xa8, 0xa9, 0xc0, 0xc1, 0xc2]),
    ("ms", &[0x60, 0x61, 0x62, 0x64, 0x65, 0x66]),
    ("rpm", &[0x90, 0x91, 0x92, 0x93]),
    ("kHz", &[0x33, 0x95]),
    ("%", &[0x32, 0x94]),
    ("mV/us", &[0x27]),
    ("mV/A", &[0x28]),
    ("mOhm", &[0x38]),
];

/// The unit of a code by the table.
fn unit_of(code: u8) -> Option<&'static str> {
    for (unit, codes) in &UNITS {
        if codes.contains(&code) {
            return Some(unit);
        }
    }
    None
}

#[test]
fn standard_units(rt: HostRuntime) {
    for code in 0..=255u8 {
        same(&rt, ("code", code), standard_unit(code), unit_of(code));
    }
}

/// The keys of a command with the code 88h, which name the row, and its unit.
static ROWS: [(&str, Option<&str>); 11] = [
    ("name = 'READ_VIN'", Some("V")),
    ("name = 'READ_VIN', exponent = -3", Some("V")),
    ("name = 'READ_VIN', kind = 'linear11'", None),
    ("name = 'READ_VIN', kind = 'half'", None),
    (
        "name = 'READ_VIN', kind = 'direct', m = 1, b = 0, r = 0",
        None,
    ),
    (
        "name = 'READ_VIN', kind = 'direct', m = 1, b = 0, r = 0, unit = 'mV'",
        Some("mV"),
    ),
    ("name = 'READ_VIN', unit = '\"\\'", Some("\"\\")),
    ("name = 'READ_VIN', kind = 'raw'", None),
    (
        "code = 0x88, name = 'READ_VIN', read = 'two', kind = 'linear11'",
        None,
    ),
    (
        "code = 0x88, read = 'two', kind = 'vout', unit = 'Grad Celsius, ca'",
        Some("Grad Celsius, ca"),
    ),
    ("code = 0x88, read = 'four'", None),
];

#[test]
fn units_of_a_profile(rt: HostRuntime) {
    for (keys, unit) in &ROWS {
        let text = format!(in rt.alloc();
            "device = [{{ address = 0x10, pec = 'off', standard = false, command = [{{ {keys} }}] }}]"
        ).expect(&rt, "memory");
        let profile = profile_of(&rt, rt.alloc(), text.as_str());
        let device = profile.device(0x10).expect(&rt, "a device");
        same(&rt, ("at", keys), device.unit(0x88), *unit);
        let command = device.command(0x88).expect(&rt, keys);
        same(&rt, ("of", keys), command.unit(), *unit);
    }
}
