//! Answers.

use crate::compare::same;
use crate::legs::words::digits;
use plain_packets::LONG_FORMS;
use pmb_leg::{Answer, LegPlace, WrittenLeg};
use pmb_table::{Profile, SAMPLE};
use std::alloc::{AllocError, Global};
use std::test::Fail;

/// What a device is sent after its address, the bytes with which it answers, how many of them begin
/// an answer, and what is told of these: whether more come, and the reply.
#[derive(Clone, Copy)]
struct Row {
    profile: &'static str,
    device: u8,
    sent: &'static [u8],
    bytes: &'static [u8],
    taken: usize,
    told: &'static str,
}

fn sample(
    device: u8,
    sent: &'static [u8],
    bytes: &'static [u8],
    taken: usize,
    told: &'static str,
) -> Row {
    Row {
        profile: SAMPLE,
        device,
        sent,
        bytes,
        taken,
        told,
    }
}

fn rows() -> [Row; 14] {
    [
        sample(0x58, &[0x88], &[], 0, "more"),
        sample(0x58, &[0x88], &[0x00], 1, "more"),
        sample(0x58, &[0x88], &[0x00, 0xd3], 2, "more, reply 00 d3"),
        sample(0x58, &[0x88], &[0x00, 0xd3, 0xf6], 3, "reply 00 d3 pec"),
        sample(0x58, &[0x88], &[0x00, 0xd3, 0xf7], 2, "more, reply 00 d3"),
        sample(
            0x58,
            &[0x88],
            &[0x00, 0xd3, 0xf6, 0x00],
            3,
            "reply 00 d3 pec",
        ),
        sample(0x58, &[0x99], &[0x00], 1, "more, reply"),
        sample(0x58, &[0x99], &[0x00, 0x51], 2, "reply pec"),
        sample(
            0x58,
            &[0x1b, 0x01, 0x7a],
            &[0x01, 0x10],
            2,
            "more, reply 10",
        ),
        sample(0x59, &[0x19], &[0xb0], 1, "reply b0"),
        sample(0x59, &[0x19], &[0xb0, 0x00], 1, "reply b0"),
        sample(0x5a, &[0x19], &[0xb0], 1, "more"),
        sample(0x58, &[0x79], &[0x40, 0x88], 2, "more, reply 40 88"),
        Row {
            profile: LONG_FORMS,
            device: 0x10,
            sent: &[0xe1],
            bytes: &[1, 2, 3, 4, 5, 6, 7, 8],
            taken: 8,
            told: "more, reply 01 02 03 04 05 06 07 08",
        },
    ]
}

/// Bytes at the Alert Response Address.
fn alerts() -> [(&'static [u8], usize, &'static str); 5] {
    [
        (&[], 0, "more"),
        (&[0xb0], 1, "more, reply b0"),
        (&[0xb0, 0xf3], 2, "reply b0 pec"),
        (&[0xb0, 0xf2], 1, "more, reply b0"),
        (&[0xb0, 0xf3, 0x00], 2, "reply b0 pec"),
    ]
}

fn told(alloc: Global, answer: &Answer) -> Result<String, AllocError> {
    let mut text = String::new(alloc);
    if answer.goes_on() {
        text.push_str(", more")?;
    }
    if let Some(reply) = answer.reply() {
        text.push_str(", reply")?;
        text.push_str(digits(alloc, reply.bytes)?.as_str())?;
        if reply.pec {
            text.push_str(" pec")?;
        }
    }
    Ok(text)
}

/// How many of some bytes an answer begins with before the first with which it doesn't.
fn take_all(answer: &mut Answer, bytes: &[u8]) -> usize {
    for (taken, &byte) in bytes.iter().enumerate() {
        if !answer.begins(byte) {
            return taken;
        }
        answer.take(byte);
    }
    bytes.len()
}

fn check_row(alloc: Global, row: &Row) -> Result<(usize, String), &'static str> {
    let profile = Profile::from_toml(alloc, row.profile.as_bytes()).map_err(|_| "profile")?;
    let device = profile.device(row.device).ok_or("device")?;
    let mut leg = WrittenLeg::new(device, LegPlace::First);
    for &byte in row.sent {
        let _ = leg.take(byte);
    }
    let mut answer = Answer::at_alert();
    let _ = take_all(&mut answer, &[0xb0, 0xf3]);
    if leg.asked().is_none() {
        return Err("not asked");
    }
    leg.ask(&mut answer);
    let taken = take_all(&mut answer, row.bytes);
    let text = told(alloc, &answer).map_err(|_| "memory")?;
    Ok((taken, text))
}

#[test]
fn of_devices(rt: HostRuntime) -> Result<(), Fail> {
    for row in &rows() {
        let (taken, text) = check_row(rt.alloc(), row)?;
        let sent = row.sent;
        let bytes = row.bytes;
        same(&rt, (sent, bytes), taken, row.taken);
        same(
            &rt,
            (sent, bytes),
            text.strip_prefix(", ").unwrap_or(""),
            row.told,
        );
    }
    Ok(())
}

#[test]
fn at_the_alert_response_address(rt: HostRuntime) -> Result<(), Fail> {
    let mut answer = Answer::at_alert();
    for &(bytes, taken, expected) in &alerts() {
        answer.restart_at_alert();
        same(&rt, bytes, take_all(&mut answer, bytes), taken);
        let text = told(rt.alloc(), &answer)?;
        same(&rt, bytes, text.strip_prefix(", ").unwrap_or(""), expected);
    }
    Ok(())
}
