//! What is answered to reads and calls.

use crate::compare::ensure;
use pmb_registers::{CmlBit, Registers};
use pmb_table::{Profile, SAMPLE};
use std::test::Fail;

/// A selected page, the body of a read or a call, and the answer to it.
type Row = (u8, &'static [u8], Result<&'static [u8], CmlBit>);

/// The rows of the table. A call keeps the proof of a loop over them from carrying the table.
fn rows() -> &'static [Row] {
    &ANSWERS
}

/// Answers of the device at 58h of the sample profile, as it begins.
static ANSWERS: [Row; 10] = [
    (0, b"\x88", Ok(b"\x00\xd3")),
    (1, b"\x20", Ok(b"\x17")),
    (0, b"\x99", Ok(b"")),
    (0xff, b"\x88", Err(CmlBit::BadValue)),
    (0xff, b"\x00", Ok(b"\xff")),
    (0, b"\x30\x02\xd0\x01", Ok(b"\x03\x00\x02\x00\x01")),
    (0, b"\x30\x02\x21\x01", Err(CmlBit::BadValue)),
    (0, b"\x30\x02\x88\x01", Err(CmlBit::BadValue)),
    (0, b"\x1a\x01\x21", Err(CmlBit::BadCommand)),
    (0, b"", Err(CmlBit::BadCommand)),
];

/// Whether that is the answer to a body.
fn is_answer(registers: &Registers<'_>, body: &[u8], expected: Result<&[u8], CmlBit>) -> bool {
    match registers.answer(body) {
        Ok(reply) => expected == Ok(reply.as_slice()),
        Err(bit) => expected == Err(bit),
    }
}

#[test]
fn each_body_is_answered(rt: HostRuntime) -> Result<(), Fail> {
    let profile = Profile::from_toml(rt.alloc(), SAMPLE.as_bytes()).map_err(|_| "profile")?;
    let device = profile.device(0x58).ok_or("no device")?;
    for (i, (page, body, expected)) in rows().iter().enumerate() {
        let mut registers = Registers::new(rt.alloc(), device)?;
        registers.write(0x00, &[*page]);
        ensure(&rt, i, is_answer(&registers, body, *expected));
    }
    Ok(())
}
