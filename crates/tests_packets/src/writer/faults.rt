//! The first fault of transactions without a packet, and two faults at once.

use crate::compare::same;
use crate::writer::says::Say::{Call, Read, Refused, Write};
use crate::writer::says::{Row, Share, answer, rows_of, transaction};
use pmb_table::{Profile, SAMPLE};
use std::test::Fail;

/// A name, a transaction, and its first fault under the sample profile, or its text.
#[rattlefmt::skip]
static FAULTS: [Row; 52] = [
    ("no part", Write(&[]), "NoParts"),
    ("a part's device", Write(&[Share(0x20, 0x03, &[], false)]), "UnknownDevice"),
    ("a part's address", Write(&[Share(0x58, 0x03, &[], false), Share(0x58, 0x03, &[], false)]), "AddressTwice"),
    ("a part's command", Write(&[Share(0x58, 0xc8, &[], false)]), "UnknownCommand"),
    ("a part that is read alone", Write(&[Share(0x58, 0x88, &[0x00, 0x00], false)]), "NotAllowed"),
    ("a part that is called alone", Write(&[Share(0x58, 0x30, &[], false)]), "NotAllowed"),
    ("a part's length", Write(&[Share(0x58, 0x21, &[0x00], false)]), "WrongLength"),
    ("a part's code left out", Write(&[Share(0x5a, 0x03, &[], false)]), "PecMode"),
    ("a part's code", Write(&[Share(0x59, 0x21, &[0x00, 0x18], true)]), "PecMode"),
    ("a later part", Write(&[Share(0x58, 0x03, &[], false), Share(0x59, 0x03, &[], true)]), "PecMode"),
    ("the first of two parts", Write(&[Share(0x58, 0xc8, &[], false), Share(0x20, 0x03, &[], false)]), "UnknownCommand"),
    ("a device before an address", Write(&[Share(0x58, 0x03, &[], false), Share(0x20, 0xc8, &[], false)]), "UnknownDevice"),
    ("an address before a command", Write(&[Share(0x58, 0x03, &[], false), Share(0x58, 0xc8, &[], false)]), "AddressTwice"),
    ("no form before a length and a mode", Write(&[Share(0x59, 0x88, &[], true)]), "NotAllowed"),
    ("a length before a mode", Write(&[Share(0x59, 0x21, &[], true)]), "WrongLength"),
    ("a read's device", Read(0x20, 0xc8, &[], false), "UnknownDevice"),
    ("a read's command", Read(0x58, 0xc8, &[], false), "UnknownCommand"),
    ("a read of what is written alone", Read(0x58, 0x03, &[], false), "NotAllowed"),
    ("a read's form before its length", Read(0x59, 0x1b, &[0x00], true), "NotAllowed"),
    ("a read's length", Read(0x58, 0x88, &[0x00], false), "WrongLength"),
    ("a read's length before its mode", Read(0x59, 0x88, &[0x00], true), "WrongLength"),
    ("a read's code left out", Read(0x5a, 0x88, &[0x00, 0x00], false), "PecMode"),
    ("a read's code", Read(0x59, 0x88, &[0x00, 0x00], true), "PecMode"),
    ("a read's code where all have one", Read(0x5a, 0x19, &[0xb0], true), "S b4 A 19 A S b5 A b0 A 4f N P\n"),
    ("a call's device", Call(0x20, 0xc8, &[], &[], false), "UnknownDevice"),
    ("a call's command", Call(0x58, 0xc8, &[], &[], false), "UnknownCommand"),
    ("a call of what is read alone", Call(0x58, 0x88, &[], &[], false), "NotAllowed"),
    ("a call's form before its mode", Call(0x59, 0x88, &[], &[], true), "NotAllowed"),
    ("a call's code left out", Call(0x5a, 0x1b, &[], &[], false), "PecMode"),
    ("a call's code", Call(0x59, 0x1b, &[], &[], true), "PecMode"),
    ("parts before an address", Refused(&[Share(0x58, 0xc8, &[], false)], 0x80, &[], false), "UnknownCommand"),
    ("a part's address twice", Refused(&[Share(0x58, 0x03, &[], false), Share(0x58, 0x03, &[], false)], 0x59, &[], false), "AddressTwice"),
    ("eight bits", Refused(&[], 0x80, &[], false), "UnknownDevice"),
    ("the address of a part", Refused(&[Share(0x58, 0x03, &[], false)], 0x58, &[], false), "AddressTwice"),
    ("one byte to no device", Refused(&[], 0x20, &[0x03], false), "UnknownDevice"),
    ("the address of a part before a device", Refused(&[Share(0x58, 0x03, &[], false)], 0x58, &[0xc8, 0x00], true), "AddressTwice"),
    ("reading no device", Refused(&[], 0x20, &[], true), "UnknownDevice"),
    ("reading in a group", Refused(&[Share(0x58, 0x03, &[], false)], 0x59, &[], true), "NotAllowed"),
    ("reading in a group, of no command", Refused(&[Share(0x58, 0x03, &[], false)], 0x59, &[0xc8], true), "NotAllowed"),
    ("reading behind no code", Refused(&[], 0x58, &[], true), "WrongLength"),
    ("reading behind no command", Refused(&[], 0x58, &[0xc8], true), "UnknownCommand"),
    ("reading what is written alone", Refused(&[], 0x58, &[0x03], true), "NotAllowed"),
    ("reading it with data", Refused(&[], 0x58, &[0x03, 0x00], true), "NotAllowed"),
    ("reading behind data", Refused(&[], 0x58, &[0x88, 0x00], true), "WrongLength"),
    ("reading behind half a call", Refused(&[], 0x58, &[0x1b, 0x02, 0x00], true), "WrongLength"),
    ("two bytes of no command", Refused(&[], 0x58, &[0xc8, 0x00], false), "UnknownCommand"),
    ("two bytes of what isn't written, in a group", Refused(&[Share(0x58, 0x03, &[], false)], 0x59, &[0x88, 0x00], false), "NotAllowed"),
    ("two bytes of what is read alone", Refused(&[], 0x58, &[0x88, 0x00], false), "WrongLength"),
    ("a byte behind a whole write", Refused(&[], 0x59, &[0x03, 0x00], false), "WrongLength"),
    ("a byte behind a packet error code", Refused(&[], 0x58, &[0x03, 0x46, 0x00], false), "WrongLength"),
    ("a byte behind a whole call", Refused(&[], 0x59, &[0x1b, 0x01, 0x7a, 0x00], false), "WrongLength"),
    ("the beginning of a call, in a group", Refused(&[Share(0x58, 0x03, &[], false)], 0x59, &[0x1b, 0x02, 0x7a, 0x00], false), "WrongLength"),
];

#[test]
fn first_faults(rt: HostRuntime) -> Result<(), Fail> {
    let profile = Profile::from_toml(rt.alloc(), SAMPLE.as_bytes()).map_err(|_| "sample")?;
    for (name, say, text) in rows_of(&FAULTS) {
        let transaction = transaction(say);
        let answer = answer(rt.alloc(), &profile, &transaction)?;
        same(&rt, name, answer.as_str(), *text);
    }
    Ok(())
}
