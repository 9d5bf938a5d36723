//! Messages from a fixed seed, beside the rules in words: each to one of two buses that stand alike. Every
//! second one mostly goes on where the one before it wrote a code.

use crate::compare::same;
use crate::i2c::messages::Tape;
use crate::i2c::plain::{Message, send};
use plain_packets::Random;
use pmb_devices::Bus;
use pmb_i2c::{MessageEnd, MessageFault, read, read_length, write};
use pmb_table::{Profile, SAMPLE};
use std::test::Fail;

/// Addresses: the devices, none, and one of eight bits.
static ADDRESSES: [u8; 8] = [0x58, 0x58, 0x58, 0x58, 0x59, 0x5a, 0x20, 0x80];

/// Codes: PAGE, words, a block, one to clear faults, one that devices lack.
static CODES: [u8; 8] = [0x00, 0x21, 0x88, 0x99, 0x9a, 0x03, 0x7e, 0xc8];

/// Sends a message to a bus: how many bytes of the room are read then, or the fault.
fn send_one(
    bus: &mut Bus<'_>,
    address: u8,
    message: Message<'_>,
    end: MessageEnd,
    room: &mut [u8; 40],
    tape: &mut Tape,
) -> Result<usize, MessageFault> {
    match message {
        Message::Write(bytes) => write(bus, address, bytes, end, tape).map(|()| 0),
        Message::Read(count) => {
            let count = count.min(40);
            read(bus, address, &mut room[..count], end, tape).map(|()| count)
        }
        Message::ReadLength(0) => read_length(bus, address, room, 0, end, tape),
        Message::ReadLength(_) => read_length(bus, address, room, 1, end, tape),
    }
}

#[test]
fn random_messages_are_those_of_the_rules(rt: HostRuntime) -> Result<(), Fail> {
    let profile = Profile::from_toml(rt.alloc(), SAMPLE.as_bytes())?;
    let mut bus = Bus::new(rt.alloc(), &profile)?;
    let mut other = Bus::new(rt.alloc(), &profile)?;
    let mut random = Random::new(0x1234_5678);
    let mut address = 0x58;
    for number in 0..2000 {
        let is_first = number % 2 == 0;
        if is_first {
            address = ADDRESSES[random.below(8) % 8];
        }
        let code = CODES[random.below(8) % 8];
        let bytes = [code, random.byte() % 5, random.byte() % 50, random.byte()];
        let message = match (is_first, random.below(4)) {
            (true, 0..=1) => Message::Write(&bytes[..1]),
            (false, 0..=1) => Message::ReadLength(random.below(2)),
            (false, 2) => Message::Read(random.below(7)),
            _ => Message::Write(&bytes[..random.below(5).min(4)]),
        };
        let end = if random.once_in(4) == is_first {
            MessageEnd::Stop
        } else {
            MessageEnd::RepeatedStart
        };
        let mut room = [0; 40];
        let mut tape = Tape::new();
        let found = send_one(&mut bus, address, message, end, &mut room, &mut tape);
        let wanted = send(rt.alloc(), &mut other, address, message, end)?;
        same(&rt, number, found.err(), wanted.fault);
        same(&rt, number, tape.events(), wanted.events.as_slice());
        let came = found.unwrap_or(0).min(40);
        if wanted.fault.is_none() {
            same(&rt, number, &room[..came], wanted.bytes.as_slice());
        }
    }
    Ok(())
}
