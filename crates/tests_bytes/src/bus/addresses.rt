//! The bytes that address a device.

use crate::compare::same;
use pmb_bus::{ALERT_ADDRESS, read_address, write_address};

/// An address, and the bytes that address it for writing and for reading.
const ROWS: [(u8, u8, u8); 8] = [
    (0x00, 0x00, 0x01),
    (0x01, 0x02, 0x03),
    (0x08, 0x10, 0x11),
    (ALERT_ADDRESS, 0x18, 0x19),
    (0x40, 0x80, 0x81),
    (0x58, 0xb0, 0xb1),
    (0x77, 0xee, 0xef),
    (0x7f, 0xfe, 0xff),
];

#[test]
fn each_address_has_two_bytes(rt: HostRuntime) {
    for (address, write, read) in ROWS {
        same(&rt, address, write_address(address), write);
        same(&rt, address, read_address(address), read);
    }
    same(&rt, "the alert address", ALERT_ADDRESS, 0x0c);
}
