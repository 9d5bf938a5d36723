//! What a host sends, and how it ends.

use crate::compare::same;
use crate::host::requests::{Asked, OTHER_FORMS, request_of};
use pmb_device::{DeviceSignal, HostSignal};
use pmb_host::{Host, HostStep};
use pmb_table::{Profile, SAMPLE};
use std::alloc::{AllocError, Global};
use std::process::Abort;
use std::test::Fail;

/// What is answered.
#[derive(Clone, Copy, Debug)]
enum Answers {
    /// ACK to each byte, and these bytes to the Asks, then nothing.
    Well(&'static [u8]),
    /// ACK to so many bytes, and then NACK.
    Acks(usize),
    /// The same to each signal.
    Always(DeviceSignal),
}

/// A request, what is answered, the signals and the end: `?` is an Ask.
#[derive(Clone, Copy, Debug)]
struct Row {
    asked: Asked,
    answers: Answers,
    told: &'static str,
}

fn told_of(asked: Asked, answers: Answers, told: &'static str) -> Row {
    Row {
        asked,
        answers,
        told,
    }
}

/// Under the sample profile.
fn sample_rows() -> [Row; 15] {
    let read = Asked::Read(0x58, 0x88, true);
    [
        told_of(
            read,
            Answers::Well(&[0x00, 0xd3, 0xf6]),
            "S b0 88 S b1 ? A ? A ? N P Done(Bytes([0, 211]))",
        ),
        told_of(
            read,
            Answers::Well(&[0x00, 0xd3, 0xf7]),
            "S b0 88 S b1 ? A ? A ? N P Failed(BadPec)",
        ),
        told_of(read, Answers::Well(&[]), "S b0 88 S b1 ? P Failed(NoByte)"),
        told_of(
            read,
            Answers::Well(&[0x00]),
            "S b0 88 S b1 ? A ? P Failed(NoByte)",
        ),
        told_of(
            Asked::Write(&[(0x58, 0x03, &[], false)]),
            Answers::Always(DeviceSignal::Silent),
            "S b0 P Failed(Refused { leg: 1, byte: 0, at_read: false })",
        ),
        told_of(
            Asked::Read(0x58, 0x88, false),
            Answers::Always(DeviceSignal::Ack),
            "S b0 88 S b1 ? P Failed(NoByte)",
        ),
        told_of(
            Asked::Read(0x58, 0x88, false),
            Answers::Always(DeviceSignal::Byte(0)),
            "S b0 P Failed(Refused { leg: 1, byte: 0, at_read: false })",
        ),
        told_of(
            Asked::Read(0x58, 0x88, false),
            Answers::Acks(2),
            "S b0 88 S b1 P Failed(Refused { leg: 2, byte: 0, at_read: true })",
        ),
        told_of(
            Asked::Write(&[(0x58, 0x21, &[0x00, 0x18], false)]),
            Answers::Well(&[]),
            "S b0 21 00 18 P Done(Written)",
        ),
        told_of(
            Asked::Write(&[(0x58, 0x03, &[], false), (0x5a, 0x03, &[], true)]),
            Answers::Acks(3),
            "S b0 03 S b4 03 P Failed(Refused { leg: 2, byte: 1, at_read: false })",
        ),
        told_of(
            Asked::Write(&[(0x58, 0x99, &[0x41], false)]),
            Answers::Well(&[]),
            "S b0 99 01 41 P Done(Written)",
        ),
        told_of(
            Asked::Call(0x58, 0x30, &[0xd0, 0x01], false),
            Answers::Well(&[5, 1, 2, 3, 4, 5]),
            "S b0 30 02 d0 01 S b1 ? A ? A ? A ? A ? A ? N P Done(Bytes([1, 2, 3, 4, 5]))",
        ),
        told_of(
            Asked::Set(0x58, 0x21, b"1.5", Some(0x14), false),
            Answers::Well(&[]),
            "S b0 21 00 18 P Done(Written)",
        ),
        told_of(
            Asked::Read(0x58, 0x99, false),
            Answers::Well(&[0]),
            "S b0 99 S b1 ? N P Done(Bytes([]))",
        ),
        told_of(
            Asked::Set(0x58, 0x03, b"1.5", Some(0x14), false),
            Answers::Well(&[]),
            "no host",
        ),
    ]
}

/// Under the profile of other forms: zero, too, is written with the one exponent, and the VID code that
/// is off has no value.
fn other_rows() -> [Row; 13] {
    [
        told_of(
            Asked::Set(0x10, 0x35, b"12", None, false),
            Answers::Well(&[]),
            "S 20 35 60 e8 P Done(Written)",
        ),
        told_of(
            Asked::Set(0x10, 0x35, b"0", None, false),
            Answers::Well(&[]),
            "S 20 35 00 e8 P Done(Written)",
        ),
        told_of(
            Asked::Set(0x10, 0x35, b"3/16", None, false),
            Answers::Well(&[]),
            "S 20 35 02 e8 P Done(Written)",
        ),
        told_of(
            Asked::Set(0x10, 0x35, b"-128", None, false),
            Answers::Well(&[]),
            "S 20 35 00 ec P Done(Written)",
        ),
        told_of(
            Asked::Write(&[(0x10, 0xe0, &[], false)]),
            Answers::Well(&[]),
            "S 20 e0 P Done(Written)",
        ),
        told_of(
            Asked::Call(0x10, 0xe1, &[1, 2], false),
            Answers::Well(&[3, 4]),
            "S 20 e1 01 02 S 21 ? A ? N P Done(Bytes([3, 4]))",
        ),
        told_of(
            Asked::Set(0x10, 0xe2, b"12", None, false),
            Answers::Well(&[]),
            "S 20 e2 00 4a P Done(Written)",
        ),
        told_of(
            Asked::Set(0x10, 0xe2, b"-1/33554432", None, false),
            Answers::Well(&[]),
            "S 20 e2 00 00 P Done(Written)",
        ),
        told_of(
            Asked::Get(0x10, 0xe2, None, false),
            Answers::Well(&[0x00, 0x7c]),
            "S 20 e2 S 21 ? A ? N P Done(NoValue)",
        ),
        told_of(
            Asked::Set(0x10, 0xe3, b"1", None, false),
            Answers::Well(&[]),
            "S 20 e3 97 00 P Done(Written)",
        ),
        told_of(
            Asked::Set(0x10, 0xe3, b"1.52", None, false),
            Answers::Well(&[]),
            "S 20 e3 ff 00 P Done(Written)",
        ),
        told_of(
            Asked::Get(0x10, 0xe3, None, false),
            Answers::Well(&[0x00, 0x00]),
            "S 20 e3 S 21 ? A ? N P Done(NoValue)",
        ),
        told_of(
            Asked::Get(0x10, 0xe3, None, false),
            Answers::Well(&[0x97, 0x01]),
            "S 20 e3 S 21 ? A ? N P Done(NoValue)",
        ),
    ]
}

/// The text of a signal.
fn push_signal(alloc: Global, text: &mut String, signal: HostSignal) -> Result<(), AllocError> {
    match signal {
        HostSignal::Start => text.push_str("S "),
        HostSignal::Byte(byte) => text.push_str(format!(in alloc; "{byte:02x} ")?.as_str()),
        HostSignal::Ask => text.push_str("? "),
        HostSignal::Ack => text.push_str("A "),
        HostSignal::Nack => text.push_str("N "),
        HostSignal::Stop => text.push_str("P "),
    }
}

/// The answer to a signal, where so many bytes were sent and given before.
fn answer_to(answers: Answers, signal: HostSignal, sent: usize, given: usize) -> DeviceSignal {
    match (answers, signal) {
        (Answers::Always(answer), _) => answer,
        (Answers::Well(_), HostSignal::Byte(_)) => DeviceSignal::Ack,
        (Answers::Well(bytes), HostSignal::Ask) => match bytes.get(given) {
            Some(byte) => DeviceSignal::Byte(*byte),
            None => DeviceSignal::Silent,
        },
        (Answers::Acks(acks), HostSignal::Byte(_)) if sent < acks => DeviceSignal::Ack,
        (Answers::Acks(_), HostSignal::Byte(_)) => DeviceSignal::Nack,
        _ => DeviceSignal::Silent,
    }
}

/// The signals of a host and its end; at most 4,161 of them.
fn told(alloc: Global, host: &mut Host, answers: Answers) -> Result<String, AllocError> {
    let mut text = String::new(alloc);
    let mut answer = DeviceSignal::Silent;
    let mut sent: usize = 0;
    let mut given: usize = 0;
    for _ in 0..4162 {
        match host.next(answer) {
            HostStep::Send(signal) => {
                push_signal(alloc, &mut text, signal)?;
                answer = answer_to(answers, signal, sent, given);
                match signal {
                    HostSignal::Byte(_) => sent = sent.saturating_add(1),
                    HostSignal::Ask => given = given.saturating_add(1),
                    _ => {}
                }
            }
            end => {
                text.push_str(format!(in alloc; "{end:?}")?.as_str())?;
                for _ in 0..3 {
                    if host.next(answer) != end {
                        text.push_str(" and another end")?;
                    }
                }
                return Ok(text);
            }
        }
    }
    text.push_str("no end")?;
    Ok(text)
}

/// Whether the hosts of rows send and end as told.
fn check_rows(rt: &impl Abort, alloc: Global, profile: &Profile, rows: &[Row]) -> Result<(), Fail> {
    for told_row in rows {
        let request = request_of(told_row.asked).ok_or("request")?;
        let expected = told_row.told;
        match Host::new(profile, request) {
            Ok(mut host) => {
                let text = told(alloc, &mut host, told_row.answers)?;
                same(rt, expected, text.as_str(), expected);
            }
            Err(_) => same(rt, expected, "no host", expected),
        }
    }
    Ok(())
}

#[test]
fn rows_are_as_told(rt: HostRuntime) -> Result<(), Fail> {
    let profile = Profile::from_toml(rt.alloc(), SAMPLE.as_bytes()).map_err(|_| "profile")?;
    check_rows(&rt, rt.alloc(), &profile, &sample_rows())
}

#[test]
fn other_forms_are_as_told(rt: HostRuntime) -> Result<(), Fail> {
    let profile = Profile::from_toml(rt.alloc(), OTHER_FORMS.as_bytes()).map_err(|_| "profile")?;
    check_rows(&rt, rt.alloc(), &profile, &other_rows())
}
