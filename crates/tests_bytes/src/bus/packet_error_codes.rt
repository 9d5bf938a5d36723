//! Packet error codes: known vectors, and the plain way to compute them, a bit at a time.

use crate::compare::same;
use pmb_bus::{pec_next, pec_of};

/// Bytes and their code. After the check value of CRC-8 stand bytes of packets.
fn vectors() -> &'static [(&'static [u8], u8)] {
    &[
        (b"", 0x00),
        (b"123456789", 0xf4),
        (&[0xb0, 0x21, 0x00, 0x18], 0xf8),
        (&[0xb0, 0x88, 0xb1, 0x00, 0xd3], 0xf6),
        (&[0xb0, 0x03], 0x46),
        (&[0xb0, 0x99, 0xb1, 0x00], 0x51),
        (&[0xb4, 0x03], 0x12),
    ]
}

/// One byte more by the division itself: eight steps of one bit.
fn next_by_bits(crc: u8, byte: u8) -> u8 {
    let mut rest = crc ^ byte;
    for _ in 0..8 {
        let highest = rest & 0x80 != 0;
        rest <<= 1;
        if highest {
            rest ^= 0x07;
        }
    }
    rest
}

fn of_by_bits(bytes: &[u8]) -> u8 {
    let mut crc = 0;
    for &byte in bytes {
        crc = next_by_bits(crc, byte);
    }
    crc
}

#[test]
fn known_codes(rt: HostRuntime) {
    for &(bytes, code) in vectors() {
        same(&rt, bytes, pec_of(bytes), code);
        let mut crc = 0;
        for &byte in bytes {
            crc = pec_next(crc, byte);
        }
        same(&rt, (bytes, "a byte at a time"), crc, code);
    }
}

#[test]
fn bytes_and_their_code_leave_nothing(rt: HostRuntime) {
    for &(bytes, code) in vectors() {
        same(&rt, bytes, pec_next(pec_of(bytes), code), 0);
    }
}

#[test]
fn each_step_is_eight_steps_of_a_bit(rt: HostRuntime) {
    for crc in 0..=255u8 {
        for byte in 0..=255u8 {
            same(
                &rt,
                (crc, "and", byte),
                pec_next(crc, byte),
                next_by_bits(crc, byte),
            );
        }
    }
}

#[test]
fn all_bytes_bit_by_bit(rt: HostRuntime) {
    let mut bytes = [0u8; 300];
    for i in 0..bytes.len() {
        bytes[i] = (i * 7 % 256) as u8;
    }
    for length in 0..=bytes.len() {
        let bytes = &bytes[..length];
        same(&rt, (length, "bytes"), pec_of(bytes), of_by_bits(bytes));
    }
}
