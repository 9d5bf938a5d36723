//! The packets of transactions of all kinds.

use crate::compare::same;
use crate::writer::says::Say::{Alert, Call, NoAlert, Read, Refused, Write};
use crate::writer::says::{Row, Share, answer, rows_of, transaction};
use pmb_table::{Profile, SAMPLE};
use std::test::Fail;

/// A name, a transaction, and its capture text under the sample profile.
#[rattlefmt::skip]
static PACKETS: [Row; 31] = [
    ("a word with a packet error code", Write(&[Share(0x58, 0x21, &[0x00, 0x18], true)]), "S b0 A 21 A 00 A 18 A f8 A P\n"),
    ("a word", Write(&[Share(0x58, 0x21, &[0x00, 0x18], false)]), "S b0 A 21 A 00 A 18 A P\n"),
    ("a read with a packet error code", Read(0x58, 0x88, &[0x00, 0xd3], true), "S b0 A 88 A S b1 A 00 A d3 A f6 N P\n"),
    ("a read", Read(0x58, 0x88, &[0x00, 0xd3], false), "S b0 A 88 A S b1 A 00 A d3 N P\n"),
    ("a refused packet error code", Refused(&[], 0x58, &[0x03, 0x47], false), "S b0 A 03 A 47 N P\n"),
    ("a group", Write(&[Share(0x58, 0x03, &[], false), Share(0x59, 0x03, &[], false)]), "S b0 A 03 A S b2 A 03 A P\n"),
    ("a group of own packet error codes", Write(&[Share(0x58, 0x03, &[], true), Share(0x5a, 0x03, &[], true)]), "S b0 A 03 A 46 A S b4 A 03 A 12 A P\n"),
    ("an address refused", Refused(&[], 0x20, &[], false), "S 40 N P\n"),
    ("the greatest address refused", Refused(&[], 0x7f, &[], false), "S fe N P\n"),
    ("an empty block read", Read(0x58, 0x99, &[], false), "S b0 A 99 A S b1 A 00 N P\n"),
    ("an empty block read with a packet error code", Read(0x58, 0x99, &[], true), "S b0 A 99 A S b1 A 00 A 51 N P\n"),
    ("an empty block written", Write(&[Share(0x58, 0x99, &[], false)]), "S b0 A 99 A 00 A P\n"),
    ("a block written", Write(&[Share(0x58, 0x99, &[0x41, 0x42], false)]), "S b0 A 99 A 02 A 41 A 42 A P\n"),
    ("SMBALERT_MASK written", Write(&[Share(0x58, 0x1b, &[0x01, 0x7a], false)]), "S b0 A 1b A 01 A 7a A P\n"),
    ("SMBALERT_MASK called", Call(0x58, 0x1b, &[0x7a], &[0x10], false), "S b0 A 1b A 01 A 7a A S b1 A 01 A 10 N P\n"),
    ("a call with blocks", Call(0x58, 0x30, &[0xd0, 0x01], &[0x03, 0x00, 0x02, 0x00, 0x01], false), "S b0 A 30 A 02 A d0 A 01 A S b1 A 05 A 03 A 00 A 02 A 00 A 01 N P\n"),
    ("a call with a packet error code", Call(0x58, 0x1b, &[0x7a], &[0x10], true), "S b0 A 1b A 01 A 7a A S b1 A 01 A 10 A 7a N P\n"),
    ("a call where all have a packet error code", Call(0x5a, 0x1b, &[0x7a], &[0x10], true), "S b4 A 1b A 01 A 7a A S b5 A 01 A 10 A a4 N P\n"),
    ("a call where none has one", Call(0x59, 0x1b, &[0x7a], &[0x10], false), "S b2 A 1b A 01 A 7a A S b3 A 01 A 10 N P\n"),
    ("a device that always takes a packet error code", Write(&[Share(0x5a, 0x03, &[], true)]), "S b4 A 03 A 12 A P\n"),
    ("a byte read", Read(0x59, 0x19, &[0xb0], false), "S b2 A 19 A S b3 A b0 N P\n"),
    ("a refused value", Refused(&[], 0x58, &[0x00, 0x05], false), "S b0 A 00 A 05 N P\n"),
    ("one byte refused, which no command has as its code", Refused(&[], 0x58, &[0xc8], false), "S b0 A c8 N P\n"),
    ("a read refused", Refused(&[], 0x58, &[0x21], true), "S b0 A 21 A S b1 N P\n"),
    ("a call refused", Refused(&[], 0x58, &[0x1b, 0x01, 0x7a], true), "S b0 A 1b A 01 A 7a A S b1 N P\n"),
    ("an address refused in a group", Refused(&[Share(0x58, 0x03, &[], true)], 0x59, &[], false), "S b0 A 03 A 46 A S b2 N P\n"),
    ("a byte refused in a group", Refused(&[Share(0x58, 0x03, &[], false)], 0x59, &[0x21, 0x00], false), "S b0 A 03 A S b2 A 21 A 00 N P\n"),
    ("a whole write, which is also the beginning of a call", Refused(&[], 0x58, &[0x1b, 0x02, 0x7a, 0x55], false), "S b0 A 1b A 02 A 7a A 55 N P\n"),
    ("an alert", Alert(0xb0, false), "S 19 A b0 N P\n"),
    ("an alert with a packet error code", Alert(0xb0, true), "S 19 A b0 A f3 N P\n"),
    ("no alert", NoAlert, "S 19 N P\n"),
];

#[test]
fn packets_of_the_sample(rt: HostRuntime) -> Result<(), Fail> {
    let profile = Profile::from_toml(rt.alloc(), SAMPLE.as_bytes()).map_err(|_| "sample")?;
    for (name, say, text) in rows_of(&PACKETS) {
        let transaction = transaction(say);
        let answer = answer(rt.alloc(), &profile, &transaction)?;
        same(&rt, name, answer.as_str(), *text);
    }
    Ok(())
}

/// A device with commands of four and of eight bytes.
const LONG: &str = "device = [{ address = 0x10, pec = 'optional', standard = false, command = [\
     { code = 0xe0, write = 'four', read = 'four' }, { code = 0xe1, read = 'eight' }, \
     { code = 0xe2, write = 'zero', read = 'one' }, { code = 0xe3, call = 'two' }] }]";

/// A name, a transaction, and its capture text under `LONG`.
#[rattlefmt::skip]
static LONG_FORMS: [Row; 9] = [
    ("four bytes written", Write(&[Share(0x10, 0xe0, &[0x01, 0x02, 0x03, 0x04], true)]), "S 20 A e0 A 01 A 02 A 03 A 04 A e3 A P\n"),
    ("four bytes read", Read(0x10, 0xe0, &[0x01, 0x02, 0x03, 0x04], false), "S 20 A e0 A S 21 A 01 A 02 A 03 A 04 N P\n"),
    ("eight bytes read", Read(0x10, 0xe1, &[0x01, 0x02, 0x03, 0x04, 0x05, 0x06, 0x07, 0x08], false), "S 20 A e1 A S 21 A 01 A 02 A 03 A 04 A 05 A 06 A 07 A 08 N P\n"),
    ("nothing written where a byte is read", Write(&[Share(0x10, 0xe2, &[], false)]), "S 20 A e2 A P\n"),
    ("a byte read", Read(0x10, 0xe2, &[0x55], false), "S 20 A e2 A S 21 A 55 N P\n"),
    ("a call of two bytes", Call(0x10, 0xe3, &[0x01, 0x02], &[0x03, 0x04], false), "S 20 A e3 A 01 A 02 A S 21 A 03 A 04 N P\n"),
    ("the third of four bytes refused", Refused(&[], 0x10, &[0xe0, 0x01, 0x02, 0x03], false), "S 20 A e0 A 01 A 02 A 03 N P\n"),
    ("four bytes read of fewer", Read(0x10, 0xe0, &[0x01, 0x02, 0x03], false), "WrongLength"),
    ("eight bytes read of more", Read(0x10, 0xe1, &[0x01, 0x02, 0x03, 0x04, 0x05, 0x06, 0x07, 0x08, 0x09], false), "WrongLength"),
];

#[test]
fn packets_of_long_forms(rt: HostRuntime) -> Result<(), Fail> {
    let profile = Profile::from_toml(rt.alloc(), LONG.as_bytes()).map_err(|_| "profile")?;
    for (name, say, text) in rows_of(&LONG_FORMS) {
        let transaction = transaction(say);
        let answer = answer(rt.alloc(), &profile, &transaction)?;
        same(&rt, name, answer.as_str(), *text);
    }
    Ok(())
}
