//! Items of a capture that is fed in pieces, as records (`pmb_items`, `specs/Record`). The first seven say
//! what the objects of the row "six lines" of `tests/rows/json_objects.txt` say.

use pmb_capture_reader::CaptureReader;
use pmb_cli::{AfterBadToken, Choice, Digits, Start, Telling};
use pmb_table::{Profile, SAMPLE};
use std::alloc::{AllocError, Global};
use std::test::Fail;

const CAPTURE: &[u8] =
    b"S b0 A 21 A 00 A 18 A f8 A P\nS b0 A 79 A S b1 A 40 A 88 N P\nS b0 A 03 A S b2 A 03 A P\nS b0 A 03 A 47 N P\nS 19 A b0 N P\nS b0 A 88 A S b1 A 00 A d3 A f7 N P\nxyz it\n";

/// How many bytes a record has.
const RECORD: usize = 680;

/// Where the numbers of a record stand that are ffffh where there is none: code, page, phase, the packet
/// error code and the right one, the device, and the lengths of what was sent and replied, of the time, and
/// of the word.
const MISSING: [usize; 10] = [56, 58, 60, 62, 64, 66, 76, 336, 596, 638];

/// A field, from the byte with that number on.
type Field = (usize, &'static [u8]);

/// VOUT_COMMAND is 12 V, and its packet error code is right.
const WRITE: &[Field] = &[
    (8, &[1]),
    (16, &[1]),
    (24, &[1]),
    (32, &[1]),
    (40, &[12]),
    (48, &[1]),
    (56, &[0x21, 0, 0, 0]),
    (62, &[1, 0]),
    (66, &[0x58, 0, 1]),
    (70, &[1, 1]),
    (76, &[2, 0, 0x00, 0x18]),
];

/// STATUS_WORD is read.
const READ: &[Field] = &[
    (0, &[12]),
    (8, &[2]),
    (16, &[1]),
    (56, &[0x79, 0, 0, 0]),
    (62, &[0, 0]),
    (66, &[0x58, 0, 2]),
    (336, &[2, 0, 0x40, 0x88]),
];

/// CLEAR_FAULTS in a group of two, to each of the devices.
const FIRST_PART: &[Field] = &[
    (0, &[25]),
    (8, &[3]),
    (16, &[1]),
    (24, &[1]),
    (32, &[2]),
    (56, &[0x03, 0]),
    (62, &[0, 0]),
    (66, &[0x58, 0, 1]),
    (76, &[0, 0]),
];

const SECOND_PART: &[Field] = &[
    (0, &[30]),
    (8, &[3]),
    (16, &[13]),
    (24, &[2]),
    (32, &[2]),
    (56, &[0x03, 0]),
    (62, &[0, 0]),
    (66, &[0x59, 0, 1]),
    (76, &[0, 0]),
];

/// A wrong packet error code that the device refused: a later byte.
const REFUSED: &[Field] = &[
    (0, &[36]),
    (8, &[4]),
    (16, &[1]),
    (24, &[1]),
    (32, &[1]),
    (56, &[0x03, 0]),
    (62, &[0, 0, 0x46, 0]),
    (66, &[0x58, 0, 4, 3]),
    (76, &[2, 0, 0x03, 0x47]),
];

const ALERT: &[Field] = &[
    (0, &[44]),
    (8, &[5]),
    (16, &[1]),
    (62, &[0, 0]),
    (66, &[0x58, 0, 5]),
    (336, &[1, 0, 0xb0]),
];

/// BadPec: a byte might have come, and f7h came where f6h is right.
const REFUSAL: &[Field] = &[
    (0, &[62]),
    (8, &[6]),
    (16, &[30]),
    (56, &[0x88, 0, 0, 0]),
    (64, &[0xf6, 0]),
    (66, &[0x58, 0, 7]),
    (72, &[3, 2, 2, 0xf7]),
    (76, &[1, 0, 0x88]),
    (336, &[2, 0, 0x00, 0xd3]),
];

const BAD_TOKEN: &[Field] = &[
    (0, &[65]),
    (8, &[7]),
    (16, &[1]),
    (68, &[8]),
    (638, &[3, 0, b'x', b'y', b'z']),
];

const ALL: &[&[Field]] = &[
    WRITE,
    READ,
    FIRST_PART,
    SECOND_PART,
    REFUSED,
    ALERT,
    REFUSAL,
    BAD_TOKEN,
];

/// Puts bytes into a record.
fn put(record: &mut [u8; 680], at: usize, bytes: &[u8]) {
    for (i, byte) in bytes.iter().enumerate() {
        if let Some(place) = record.get_mut(at.saturating_add(i)) {
            *place = *byte;
        }
    }
}

/// The record with these fields. Of all others there is none.
fn record_of(fields: &[Field]) -> [u8; 680] {
    let mut record = [0; 680];
    for at in MISSING {
        put(&mut record, at, &[0xff, 0xff]);
    }
    for (at, bytes) in fields {
        put(&mut record, *at, bytes);
    }
    record
}

/// Records, one after the other.
fn records(alloc: Global, facts: &[&[Field]]) -> Result<Vec<u8>, AllocError> {
    let mut text = Vec::new(alloc);
    for fields in facts {
        text.extend_from_slice(&record_of(fields))?;
    }
    Ok(text)
}

/// Items of these devices, of all where there is none, where PAGE and VOUT_MODE are assumed.
fn items(devices: &[u8]) -> Choice<'_> {
    Choice {
        digits: Digits::default(),
        start: Start::AllKnown,
        devices,
        ignored: None,
        telling: Telling::Items,
    }
}

/// Takes records while there are some. It returns whether no other number of bytes was ready.
fn take_records(reader: &mut CaptureReader<'_>, text: &mut Vec<u8>) -> Result<bool, AllocError> {
    let mut room = [0; 680];
    for _ in 0..100 {
        if reader.ready() % RECORD != 0 {
            return Ok(false);
        }
        let count = reader.take(&mut room);
        if count == 0 {
            return Ok(true);
        }
        text.extend_from_slice(&room[..count])?;
    }
    Ok(false)
}

#[test]
fn tells_each_fact_however_it_is_cut(rt: HostRuntime) -> Result<(), Fail> {
    let profile = Profile::from_toml(rt.alloc(), SAMPLE.as_bytes())?;
    let expected = records(rt.alloc(), ALL)?;
    for at in 0..CAPTURE.len() {
        let (first, rest) = CAPTURE.split_at(at);
        let mut reader = CaptureReader::new(rt.alloc(), &profile, items(&[]), AfterBadToken::End)?;
        let mut text = Vec::new(rt.alloc());
        reader.feed(first);
        assert!(rt; take_records(&mut reader, &mut text)?, "cut at {at}");
        reader.feed(rest);
        reader.end();
        assert!(rt; take_records(&mut reader, &mut text)?, "cut at {at}");
        assert!(rt; text.as_slice() == expected.as_slice(), "cut at {at}");
    }
    Ok(())
}

/// Of the first packet all is ready with its last event, and nothing before.
#[test]
fn tells_a_fact_with_its_last_event(rt: HostRuntime) -> Result<(), Fail> {
    let profile = Profile::from_toml(rt.alloc(), SAMPLE.as_bytes())?;
    let mut reader = CaptureReader::new(rt.alloc(), &profile, items(&[]), AfterBadToken::End)?;
    reader.feed(b"S b0 A 21 A 00 A 18 A f8 A");
    assert!(rt; reader.ready() == 0);
    reader.feed(b" P ");
    assert!(rt; reader.ready() == RECORD);
    Ok(())
}

/// Facts that name no device are always told.
#[test]
fn tells_wanted_facts_alone(rt: HostRuntime) -> Result<(), Fail> {
    let profile = Profile::from_toml(rt.alloc(), SAMPLE.as_bytes())?;
    let expected = records(rt.alloc(), &[SECOND_PART, BAD_TOKEN])?;
    let mut reader = CaptureReader::new(rt.alloc(), &profile, items(&[0x59]), AfterBadToken::End)?;
    let mut text = Vec::new(rt.alloc());
    reader.feed(CAPTURE);
    assert!(rt; take_records(&mut reader, &mut text)?);
    assert!(rt; text.as_slice() == expected.as_slice());
    Ok(())
}
