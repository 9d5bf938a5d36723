//! Messages, one after the other on one bus, by the rules of `docs/devices.md` and `docs/packets.md`.

use crate::compare::same;
use MessageEnd::{RepeatedStart, Stop};
use MessageFault::{BadAddress, BadCount, NoDevice, Refused};
use plain_packets::events;
use pmb_bus::Event;
use pmb_devices::Bus;
use pmb_i2c::{Listener, MessageEnd, MessageFault, read, read_length, write};
use pmb_table::{Profile, SAMPLE};
use std::alloc::{AllocError, Global};
use std::test::Fail;

/// What is on the wire of one message.
#[derive(Drop)]
pub(crate) struct Tape {
    room: [Event; 128],
    count: usize,
}

impl Tape {
    pub(crate) fn new() -> Tape {
        Tape {
            room: [Event::Start; 128],
            count: 0,
        }
    }

    /// The events, in order.
    pub(crate) fn events(&self) -> &[Event] {
        self.room.get(..self.count).unwrap_or(&[])
    }
}

impl Listener for Tape {
    ghost HasHeard = { λ tape heard. Unit {0} };

    fn hear(&mut self, events: &[Event]) {
        for event in events {
            if self.count < 128 {
                self.room[self.count] = *event;
                self.count += 1;
            }
        }
    }
}

/// What a message does.
#[derive(Clone, Copy)]
enum Kind {
    Write,
    Read,
    /// With as many bytes after the block.
    ReadLength(u8),
}

/// A message to an address; the bytes that are written, or that the host has after it, where `ee` was
/// not read; what comes after it; what is on the wire; and why it fails.
type Row = (
    Kind,
    u8,
    &'static str,
    MessageEnd,
    &'static str,
    Option<MessageFault>,
);

use Kind::{Read, ReadLength, Write};

#[rattlefmt::skip]
static ROWS: [Row; 38] = [
    // A register is written, and read with a repeated START.
    (Write, 0x58, "21 00 18", Stop, "S b0 A 21 A 00 A 18 A P", None),
    (Write, 0x58, "21", RepeatedStart, "S b0 A 21 A", None),
    (Read, 0x58, "00 18", Stop, "S b1 A 00 A 18 N P", None),
    // The packet error code of a reply, and bytes that no device gives.
    (Write, 0x58, "88", RepeatedStart, "S b0 A 88 A", None),
    (Read, 0x58, "00 d3 f6", Stop, "S b1 A 00 A d3 A f6 N P", None),
    (Write, 0x58, "88", RepeatedStart, "S b0 A 88 A", None),
    (Read, 0x58, "00 d3 f6 ff ff", Stop, "S b1 A 00 A d3 A f6 A ff A ff N P", None),
    // A block by its length, without and with a packet error code.
    (Write, 0x58, "99 03 41 42 43", Stop, "S b0 A 99 A 03 A 41 A 42 A 43 A P", None),
    (Write, 0x58, "99", RepeatedStart, "S b0 A 99 A", None),
    (ReadLength(0), 0x58, "03 41 42 43", Stop, "S b1 A 03 A 41 A 42 A 43 N P", None),
    (Write, 0x58, "99", RepeatedStart, "S b0 A 99 A", None),
    (ReadLength(1), 0x58, "03 41 42 43 27", Stop, "S b1 A 03 A 41 A 42 A 43 A 27 N P", None),
    // A block without bytes, and a word that is no block: its first byte, 40h, is above 32.
    (Write, 0x58, "9a", RepeatedStart, "S b0 A 9a A", None),
    (ReadLength(0), 0x58, "", Stop, "S b1 A 00 N P", Some(BadCount)),
    (Write, 0x58, "21 40 18", Stop, "S b0 A 21 A 40 A 18 A P", None),
    (Write, 0x58, "21", RepeatedStart, "S b0 A 21 A", None),
    (ReadLength(0), 0x58, "", RepeatedStart, "S b1 A 40 N P", Some(BadCount)),
    // Quick commands. A device gives its address for reading ACK only where a reply is due.
    (Write, 0x58, "", Stop, "S b0 A P", None),
    (Read, 0x58, "", Stop, "S b1 N P", Some(NoDevice)),
    (Write, 0x58, "88", RepeatedStart, "S b0 A 88 A", None),
    (Read, 0x58, "", Stop, "S b1 A P", None),
    // No device, and an address of more than seven bits.
    (Write, 0x20, "00", Stop, "S 40 N P", Some(NoDevice)),
    (Read, 0x20, "ee ee", RepeatedStart, "S 41 N P", Some(NoDevice)),
    (ReadLength(1), 0x20, "", Stop, "S 41 N P", Some(NoDevice)),
    (Write, 0x80, "00", Stop, "", Some(BadAddress)),
    (Read, 0xd8, "ee", Stop, "", Some(BadAddress)),
    // A value of PAGE, and a code, that the device refuses: the bytes after it are not sent.
    (Write, 0x58, "00 05", Stop, "S b0 A 00 A 05 N P", Some(Refused)),
    (Write, 0x58, "c8 00 00", RepeatedStart, "S b0 A c8 N P", Some(Refused)),
    // A register of page 1.
    (Write, 0x58, "00 01", Stop, "S b0 A 00 A 01 A P", None),
    (Write, 0x58, "21 34 12", Stop, "S b0 A 21 A 34 A 12 A P", None),
    (Write, 0x58, "00 00", Stop, "S b0 A 00 A 00 A P", None),
    (Write, 0x58, "21", RepeatedStart, "S b0 A 21 A", None),
    (Read, 0x58, "40 18", Stop, "S b1 A 40 A 18 N P", None),
    (Write, 0x58, "00 01", Stop, "S b0 A 00 A 01 A P", None),
    (Write, 0x58, "21", RepeatedStart, "S b0 A 21 A", None),
    (Read, 0x58, "34 12", Stop, "S b1 A 34 A 12 N P", None),
    // A group: both act at STOP.
    (Write, 0x58, "21 00 20", RepeatedStart, "S b0 A 21 A 00 A 20 A", None),
    (Write, 0x59, "03", Stop, "S b2 A 03 A P", None),
];

/// The table. A call keeps the proof of a loop over it from carrying the table.
fn rows() -> &'static [Row] {
    &ROWS
}

/// The bytes of a capture text.
fn bytes_of(alloc: Global, text: &str) -> Result<Vec<u8>, AllocError> {
    let mut bytes = Vec::new(alloc);
    for event in events(alloc, text)?.iter() {
        if let Event::Byte(byte) = *event {
            bytes.push(byte)?;
        }
    }
    Ok(bytes)
}

/// How many bytes a message wrote or read, whether those that were read are the ones wanted, and
/// whether the events are.
type Found = (Result<usize, MessageFault>, bool, bool);

/// Sends the message of a row.
fn send(alloc: Global, bus: &mut Bus<'_>, row: &Row) -> Result<Found, AllocError> {
    let (kind, address, bytes, end, recorded, _) = *row;
    let bytes = bytes_of(alloc, bytes)?;
    let count = bytes.len().min(40);
    let mut room = [0xee; 40];
    let mut tape = Tape::new();
    let sent = match kind {
        Write => write(bus, address, bytes.as_slice(), end, &mut tape).map(|()| count),
        Read => read(bus, address, &mut room[..count], end, &mut tape).map(|()| count),
        ReadLength(0) => read_length(bus, address, &mut room, 0, end, &mut tape),
        ReadLength(_) => read_length(bus, address, &mut room, 1, end, &mut tape),
    };
    let untouched = room[count..].iter().all(|byte| *byte == 0xee);
    let read_so = matches!(kind, Write) || &room[..count] == bytes.as_slice();
    let wanted = events(alloc, recorded)?;
    let recorded_so = tape.events() == wanted.as_slice();
    Ok((sent, read_so && untouched, recorded_so))
}

#[test]
fn messages_go_as_told(rt: HostRuntime) -> Result<(), Fail> {
    let profile = Profile::from_toml(rt.alloc(), SAMPLE.as_bytes())?;
    let mut bus = Bus::new(rt.alloc(), &profile)?;
    for (number, row) in rows().iter().enumerate() {
        let found = send(rt.alloc(), &mut bus, row)?;
        let count = bytes_of(rt.alloc(), row.2)?.len();
        let wanted = match row.5 {
            None => Ok(count),
            Some(fault) => Err(fault),
        };
        same(&rt, number, found, (wanted, true, true));
    }
    let device = bus.device(0x58).ok_or("no device")?;
    same(&rt, "page 0", device.register(0, 0x21), Some(b"\x40\x18"));
    same(&rt, "page 1", device.register(1, 0x21), Some(b"\x00\x20"));
    Ok(())
}
