//! A session of a bus, call by call, by the rules of `docs/devices.md`, `docs/text.md` and `docs/packets.md`.
//! `refused_memory_loses_nothing` passes whichever one allocation is refused:
//! `rt try --test --fail-alloc N -- refused_memory` refuses the Nth. With ample memory no call lacks any,
//! whatever the number of devices and of their pages.

use crate::compare::same;
use BusStatus::{BadAddress, BadCount, BadFlags, BadLength, Busy, Closed, Done, NoDevice, Refused};
use MessageEnd::{RepeatedStart, Stop};
use Step::{Open, Request, Send};
use plain_packets::events;
use pmb_bus::Event;
use pmb_bus_session::{
    BusAnswer, BusGround, BusSession, BusStatus, BusTask, BusWork, Message, MessageEnd,
};
use pmb_io::Tally;
use pmb_table::{BusProfile, SAMPLE};
use std::alloc::{AllocError, Global};
use std::process::Abort;
use std::sync::Arc;
use std::test::Fail;

/// A call.
#[derive(Clone, Copy)]
enum Step {
    Open,
    /// A message to an address, with flags, so many bytes, and what comes after it.
    Send(u16, u16, usize, MessageEnd),
    Request(&'static str),
}

/// A call; the bytes that are written, or that are in the room after it; what is answered: status, how many
/// bytes, packets and refusals; and the text that is in the log after it.
type Row = (
    Step,
    &'static str,
    (BusStatus, usize, u64, u64),
    &'static str,
);

/// The flags of messages.
const WRITE: u16 = 0;

const READ: u16 = 1;

const BLOCK: u16 = 0x0401;

#[rattlefmt::skip]
static ROWS: [Row; 34] = [
    // Before the devices are made nothing is sent.
    (Send(0x58, WRITE, 1, Stop), "88", (Closed, 0, 0, 0), ""),
    (Request("get 58 88"), "", (Closed, 0, 0, 0), ""),
    (Open, "", (Done, 0, 0, 0), ""),
    // A transfer of one message, and one of two: the fourth byte is given by no device.
    (Send(0x58, WRITE, 3, Stop), "21 00 18", (Done, 3, 0, 0), "S b0 A 21 A 00 A 18 A P\n"),
    (Send(0x58, WRITE, 1, RepeatedStart), "88", (Done, 1, 0, 0), "S b0 A 88 A "),
    // While it is under way no request is taken.
    (Request("get 58 88"), "", (Busy, 0, 0, 0), ""),
    (Send(0x58, READ, 4, Stop), "00 d3 f6 ff", (Done, 4, 0, 0), "S b1 A 00 A d3 A f6 A ff N P\n"),
    (Request("get 58 88"), "", (Done, 0, 1, 0), "S b0 A 88 A S b1 A 00 A d3 N P\n# 12\n"),
    // Opened again the devices stay as they are.
    (Open, "", (Done, 0, 0, 0), ""),
    (Request("get 58 21"), "", (Done, 0, 1, 0), "S b0 A 21 A S b1 A 00 A 18 N P\n# 12\n"),
    // No device, and a byte that is refused: STOP comes, and a request is taken.
    (Send(0x20, WRITE, 1, RepeatedStart), "00", (NoDevice, 0, 0, 0), "S 40 N P\n"),
    (Send(0x58, WRITE, 3, RepeatedStart), "c8 00 00", (Refused, 0, 0, 0), "S b0 A c8 N P\n"),
    (Request("read 58 88"), "", (Done, 0, 1, 0), "S b0 A 88 A S b1 A 00 A d3 N P\n# 00 d3\n"),
    // Blocks by their count: with a packet error code, and with a count of 33.
    (Send(0x58, WRITE, 5, Stop), "99 03 41 42 43", (Done, 5, 0, 0), "S b0 A 99 A 03 A 41 A 42 A 43 A P\n"),
    (Send(0x58, WRITE, 1, RepeatedStart), "99", (Done, 1, 0, 0), "S b0 A 99 A "),
    (Send(0x58, BLOCK, 1, Stop), "03 41 42 43 27", (Done, 5, 0, 0), "S b1 A 03 A 41 A 42 A 43 A 27 N P\n"),
    (Send(0x58, WRITE, 3, Stop), "21 21 18", (Done, 3, 0, 0), "S b0 A 21 A 21 A 18 A P\n"),
    (Send(0x58, WRITE, 1, RepeatedStart), "21", (Done, 1, 0, 0), "S b0 A 21 A "),
    (Send(0x58, BLOCK, 0, RepeatedStart), "", (BadCount, 0, 0, 0), "S b1 A 21 N P\n"),
    // A quick command that reads has no bytes.
    (Send(0x58, WRITE, 1, RepeatedStart), "88", (Done, 1, 0, 0), "S b0 A 88 A "),
    (Send(0x58, READ, 0, Stop), "", (Done, 0, 0, 0), "S b1 A P\n"),
    // What is not sent.
    (Send(0x58, 0x0010, 1, Stop), "", (BadFlags, 0, 0, 0), ""),
    (Send(0x80, WRITE, 1, Stop), "", (BadAddress, 0, 0, 0), ""),
    (Send(0x158, READ, 1, Stop), "", (BadAddress, 0, 0, 0), ""),
    (Send(0x58, READ, 65, Stop), "", (BadLength, 0, 0, 0), ""),
    (Send(0x58, BLOCK, 32, Stop), "", (BadLength, 0, 0, 0), ""),
    // A message that was not sent ends no transfer.
    (Send(0x58, WRITE, 1, RepeatedStart), "88", (Done, 1, 0, 0), "S b0 A 88 A "),
    (Send(0x80, WRITE, 1, Stop), "", (BadAddress, 0, 0, 0), ""),
    (Request("get 58 88"), "", (Busy, 0, 0, 0), ""),
    (Send(0x58, READ, 2, Stop), "00 d3", (Done, 2, 0, 0), "S b1 A 00 A d3 N P\n"),
    // PAGE and VOUT_MODE by messages: on page 1 the exponent is -12, and 3.3 is 13,517 there.
    (Send(0x58, WRITE, 2, Stop), "00 01", (Done, 2, 0, 0), "S b0 A 00 A 01 A P\n"),
    (Send(0x58, WRITE, 2, Stop), "20 14", (Done, 2, 0, 0), "S b0 A 20 A 14 A P\n"),
    (Request("set 58 21 3.3"), "", (Done, 0, 1, 0), "S b0 A 21 A cd A 34 A P\n# done\n"),
    // The fifth line.
    (Request("get 20 88"), "", (Done, 0, 0, 1), "# line 5: UnknownDevice\n"),
];

/// The table. A call keeps the proof of a loop over it from carrying the table.
fn rows() -> &'static [Row] {
    &ROWS
}

/// The bytes of a capture text.
fn bytes_of(alloc: Global, text: &str) -> Result<Vec<u8>, AllocError> {
    let mut bytes = Vec::new(alloc);
    for event in events(alloc, text)?.iter() {
        if let Event::Byte(byte) = *event {
            bytes.push(byte)?;
        }
    }
    Ok(bytes)
}

/// Asks a session, and returns what it answers.
fn ask(session: &mut BusSession<'_>, task: BusTask, line: &str, room: &mut [u8]) -> BusAnswer {
    let mut work = BusWork::new(task, line.as_bytes(), room);
    session.act(&mut work);
    work.answer
}

/// Makes the call of a row.
fn call(session: &mut BusSession<'_>, step: Step, room: &mut [u8]) -> BusAnswer {
    match step {
        Open => ask(session, BusTask::Open, "", room),
        Request(line) => ask(session, BusTask::Request, line, room),
        Send(address, flags, length, end) => {
            let message = Message {
                address,
                flags,
                length,
                end,
            };
            ask(session, BusTask::Message(message), "", room)
        }
    }
}

/// Takes the text of the log, and compares it.
fn has_text(session: &mut BusSession<'_>, text: &str) -> bool {
    let mut room = [0; 512];
    let answer = ask(session, BusTask::Take, "", &mut room);
    room.get(..answer.count) == Some(text.as_bytes())
}

fn ground_of(alloc: Global) -> Result<BusGround, Fail> {
    let bus = Arc::new(alloc, BusProfile::from_toml(alloc, SAMPLE.as_bytes())?)?;
    Ok(BusGround { bus, alloc })
}

#[test]
fn sessions_go_as_told(rt: HostRuntime) -> Result<(), Fail> {
    let ground = ground_of(rt.alloc())?;
    let mut session = BusSession::on(&ground);
    for (number, row) in rows().iter().enumerate() {
        let (step, bytes, (status, count, packets, refusals), text) = *row;
        let bytes = bytes_of(rt.alloc(), bytes)?;
        let length = bytes.len().min(64);
        let mut room = [0xee; 64];
        if matches!(step, Send(_, WRITE, _, _)) {
            room[..length].copy_from_slice(&bytes.as_slice()[..length]);
        }
        let answer = call(&mut session, step, &mut room);
        let wanted = BusAnswer {
            status,
            count,
            ready: 0,
            tally: Tally { packets, refusals },
        };
        same(&rt, number, answer, wanted);
        same(&rt, number, &room[..length], &bytes.as_slice()[..length]);
        let untouched = room[length..].iter().all(|byte| *byte == 0xee);
        same(&rt, number, untouched, true);
        same(&rt, number, has_text(&mut session, text), true);
    }
    Ok(())
}

/// The log is taken in pieces of any size, the oldest first.
#[test]
fn the_log_is_taken_in_order(rt: HostRuntime) -> Result<(), Fail> {
    let ground = ground_of(rt.alloc())?;
    let mut session = BusSession::on(&ground);
    let mut none = [0; 0];
    ask(&mut session, BusTask::Open, "", &mut none);
    ask(&mut session, BusTask::Request, "read 58 88", &mut none);
    ask(&mut session, BusTask::Request, "write 58 03", &mut none);
    let text = b"S b0 A 88 A S b1 A 00 A d3 N P\n# 00 d3\nS b0 A 03 A P\n# done\n";
    let mut taken = Vec::new(rt.alloc());
    for _ in 0..text.len() {
        let mut room = [0; 7];
        let answer = ask(&mut session, BusTask::Take, "", &mut room);
        same(
            &rt,
            "ready",
            answer.ready,
            text.len().saturating_sub(taken.len()),
        );
        taken.extend_from_slice(room.get(..answer.count).unwrap_or(&[]))?;
    }
    same(&rt, "text", taken.as_slice(), text.as_slice());
    Ok(())
}

/// Makes a call, and once more where memory was refused.
fn call_again(session: &mut BusSession<'_>, step: Step, room: &mut [u8]) -> BusStatus {
    let answer = call(session, step, room);
    if answer.status == BusStatus::Memory {
        return call(session, step, room).status;
    }
    answer.status
}

/// The sample's bus, unless memory is refused.
fn bus_of(alloc: Global) -> Option<Arc<BusProfile, Global>> {
    let Ok(profile) = BusProfile::from_toml(alloc, SAMPLE.as_bytes()) else {
        return None;
    };
    match Arc::new(alloc, profile) {
        Ok(bus) => Some(bus),
        Err(_) => None,
    }
}

/// The sample's bus, at the second try where memory was refused.
fn ground_again(alloc: Global) -> Result<BusGround, Fail> {
    match bus_of(alloc) {
        Some(bus) => Ok(BusGround { bus, alloc }),
        None => ground_of(alloc),
    }
}

#[test]
fn refused_memory_loses_nothing(rt: HostRuntime) -> Result<(), Fail> {
    let ground = ground_again(rt.alloc())?;
    let mut session = BusSession::on(&ground);
    let mut room = [0; 64];
    room[0] = 0x03;
    same(&rt, "open", call_again(&mut session, Open, &mut room), Done);
    let clear = Send(0x58, WRITE, 1, Stop);
    same(
        &rt,
        "message",
        call_again(&mut session, clear, &mut room),
        Done,
    );
    let read = Request("read 58 88");
    same(
        &rt,
        "request",
        call_again(&mut session, read, &mut room),
        Done,
    );
    let text = "S b0 A 03 A P\nS b0 A 88 A S b1 A 00 A d3 N P\n# 00 d3\n";
    same(&rt, "text", has_text(&mut session, text), true);
    Ok(())
}

/// What a device has in its profile besides its address and its pages.
const COMMANDS: &str =
    "pec = \"off\", standard = false, command = [{ name = \"PAGE\" }, { name = \"VOUT_MODE\" }, { name = \"VOUT_COMMAND\" }, { name = \"COEFFICIENTS\" }, { name = \"READ_VIN\" }, { name = \"MFR_ID\" }]";

/// A call of each kind: whatever the devices answer, each has its memory.
#[rattlefmt::skip]
static CALLS: [Step; 16] = [
    Open,
    Send(0x10, WRITE, 2, Stop),
    Send(0x10, WRITE, 1, RepeatedStart),
    Send(0x10, READ, 2, Stop),
    Send(0x10, WRITE, 1, RepeatedStart),
    Send(0x10, BLOCK, 1, Stop),
    Send(0x10, READ, 0, Stop),
    Send(0x10, WRITE, 64, Stop),
    Send(0x10, READ, 64, Stop),
    Request("write 10 99 41 + 11 99 42"),
    Request("read 10 99"),
    Request("call 10 30 21 01"),
    Request("set 10 21 1"),
    Request("get 10 21"),
    Request("get"),
    Open,
];

/// The calls. A call keeps the proof of a loop over them from carrying them.
fn calls() -> &'static [Step] {
    &CALLS
}

/// A profile of so many devices, from 10h on, each with so many pages.
fn profile_text(alloc: Global, devices: u8, pages: u8) -> Result<String, AllocError> {
    let mut text = String::new(alloc);
    text.push_str("device = [")?;
    for i in 0..devices {
        let address = u16::from(i) + 0x10;
        let numbers = format!(in alloc; "{{ address = {address}, pages = {pages}, ")?;
        text.push_str(numbers.as_str())?;
        text.push_str(COMMANDS)?;
        text.push_str(" },")?;
    }
    text.push_str("]\n")?;
    Ok(text)
}

/// Makes each call, three times over, with nothing taken of the log. None may lack memory, find the
/// devices not made, or a transfer under way.
fn none_lacks_memory(rt: &impl Abort, alloc: Global, devices: u8, pages: u8) -> Result<(), Fail> {
    let text = profile_text(alloc, devices, pages)?;
    let bus = Arc::new(alloc, BusProfile::from_toml(alloc, text.as_bytes())?)?;
    let ground = BusGround { bus, alloc };
    let mut session = BusSession::on(&ground);
    let mut room = [0; 64];
    for _ in 0..3 {
        for (number, step) in calls().iter().enumerate() {
            let status = call(&mut session, *step, &mut room).status;
            let lacks = matches!(status, BusStatus::Memory | Closed | Busy);
            same(rt, (devices, pages, number, status), lacks, false);
        }
    }
    Ok(())
}

#[test]
fn no_call_lacks_ample_memory(rt: HostRuntime) -> Result<(), Fail> {
    for devices in 0..=64 {
        none_lacks_memory(&rt, rt.alloc(), devices, 1)?;
    }
    for pages in 1..=32 {
        none_lacks_memory(&rt, rt.alloc(), 1, pages)?;
    }
    none_lacks_memory(&rt, rt.alloc(), 64, 32)
}
