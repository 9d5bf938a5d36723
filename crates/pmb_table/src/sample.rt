//! A profile to begin with.
//!
//! Its rows: `tests_commands`, `src/sample.rt`; `tests/rows/profile_text.txt`.

/// A profile of three devices: at 58h one that takes packets with a packet error code and without,
/// with two pages, a first value of READ_VIN and a command of its own; at 59h one without packet
/// error codes; at 5ah one with them.
pub const SAMPLE: &str = r#"[[device]]
address = 0x58
pec = "optional"
pages = 2
vout_mode = 0x17

[[device.command]]
name = "READ_VIN"
initial = "00d3"

[[device.command]]
code = 0xd0
name = "RATIO"
write = "two"
read = "two"
kind = "direct"
m = 3
b = 2
r = 1

[[device]]
address = 0x59
pec = "off"

[[device]]
address = 0x5a
pec = "on"
"#;
