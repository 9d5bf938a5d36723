//! How a host has to end, by the rules in words: found from its signals and the answers alone.

use crate::host::answers::Heard;
use crate::host::requests::{Asked, bytes_of, parts_of};
use plain_packets::{Body, NoPacket, data_like, packet, plain_pec, reply_form};
use pmb_bus::Event;
use pmb_device::{DeviceSignal, HostSignal};
use pmb_host::{HostFault, HostStep, Reply};
use pmb_table::{Form, Profile};
use pmb_transaction::Transaction;
use pmb_value::Quantity;
use std::alloc::Global;

/// How the two bytes of a reply are told.
#[derive(Clone, Copy, Debug)]
pub(crate) enum Told {
    /// As bytes.
    Bytes,
    /// As a quantity in LINEAR11.
    Linear11,
    /// As a word without sign, over a number.
    Unsigned(i64),
    /// As a word with a sign, over a number.
    Signed(i64),
    /// As RATIO of the sample, (Y / 10 - 2) / 3.
    Ratio,
}

/// A request, the write, read or call that has the same packet, and how its reply is told.
#[derive(Clone, Copy, Debug)]
pub(crate) struct Row {
    pub(crate) asked: Asked,
    pub(crate) packet: Asked,
    pub(crate) told: Told,
}

/// The first byte that was not acknowledged, or the first Ask without a byte.
fn first_fault(heard: &[Heard]) -> Option<HostFault> {
    let mut leg: u8 = 0;
    let mut place: u16 = 0;
    for Heard { signal, answer } in heard {
        match (signal, answer) {
            (HostSignal::Start, _) => {
                leg = leg.saturating_add(1);
                place = 0;
            }
            (HostSignal::Byte(_), DeviceSignal::Ack) => place = place.saturating_add(1),
            (HostSignal::Byte(sent), _) => {
                return Some(HostFault::Refused {
                    leg,
                    byte: place,
                    at_read: place == 0 && sent % 2 == 1,
                });
            }
            (HostSignal::Ask, DeviceSignal::Byte(_)) => {}
            (HostSignal::Ask, _) => return Some(HostFault::NoByte),
            _ => {}
        }
    }
    None
}

/// The bytes that were read.
fn bytes_read(alloc: Global, heard: &[Heard]) -> Result<Vec<u8>, NoPacket> {
    let mut bytes = Vec::new(alloc);
    for Heard { signal, answer } in heard {
        if let (HostSignal::Ask, DeviceSignal::Byte(byte)) = (signal, answer) {
            bytes.push(*byte)?;
        }
    }
    Ok(bytes)
}

/// The bytes that were sent or read.
fn bytes_on_the_wire(alloc: Global, heard: &[Heard]) -> Result<Vec<u8>, NoPacket> {
    let mut bytes = Vec::new(alloc);
    for Heard { signal, answer } in heard {
        match (signal, answer) {
            (HostSignal::Byte(byte), _) | (HostSignal::Ask, DeviceSignal::Byte(byte)) => {
                bytes.push(*byte)?;
            }
            _ => {}
        }
    }
    Ok(bytes)
}

/// Whether the last byte on the wire is the packet error code of those before it.
fn ends_with_pec(alloc: Global, heard: &[Heard]) -> Result<bool, NoPacket> {
    let bytes = bytes_on_the_wire(alloc, heard)?;
    Ok(match bytes.as_slice().split_last() {
        Some((last, covered)) => plain_pec(covered) == *last,
        None => false,
    })
}

/// The form of the reply to a request, where it has one.
pub(crate) fn form_of_reply(profile: &Profile, asked: Asked) -> Result<Option<Form>, NoPacket> {
    let (addr, body, code) = match asked {
        Asked::Read(addr, code, _) => (addr, Body::Read, code),
        Asked::Call(addr, code, _, _) => (addr, Body::Call, code),
        Asked::Write(_) | Asked::Set(..) | Asked::Get(..) => return Ok(None),
    };
    match profile.device(addr) {
        Some(device) => Ok(Some(reply_form(device, body, code)?)),
        None => Err(NoPacket::AgainstTheRules),
    }
}

/// The data of the reply, with zeros for those that were not read; none where nothing is read.
fn data_of(
    alloc: Global,
    profile: &Profile,
    asked: Asked,
    heard: &[Heard],
) -> Result<Option<Vec<u8>>, NoPacket> {
    let read = bytes_read(alloc, heard)?;
    match form_of_reply(profile, asked)? {
        Some(form) => Ok(Some(data_like(alloc, form, read.as_slice())?)),
        None => Ok(None),
    }
}

/// A word of LINEAR11, as a fraction over 2^16.
fn linear11(word: u16) -> i64 {
    let mantissa = i64::from(word % 2048);
    let mut scaled = if mantissa < 1024 {
        mantissa
    } else {
        mantissa - 2048
    };
    let exponent = word / 2048;
    let doublings = if exponent < 16 {
        exponent + 16
    } else {
        exponent - 16
    };
    for _ in 0..doublings {
        scaled = scaled.saturating_mul(2);
    }
    scaled
}

/// The quantity that two bytes are.
fn quantity(told: Told, low: u8, high: u8) -> Option<Quantity> {
    let word = u16::from_le_bytes([low, high]);
    let signed = i64::from(i16::from_le_bytes([low, high]));
    let (numerator, denominator) = match told {
        Told::Bytes => return None,
        Told::Linear11 => (linear11(word), 65536),
        Told::Unsigned(over) => (i64::from(word), over),
        Told::Signed(over) => (signed, over),
        Told::Ratio => (signed.saturating_sub(20), 30),
    };
    Quantity::new(numerator, denominator).ok()
}

/// How data are told.
fn reply_of(told: Told, data: &[u8]) -> Reply {
    if let [low, high] = data
        && let Some(value) = quantity(told, *low, *high)
    {
        return Reply::Value(value);
    }
    Reply::Bytes(bytes_of(data))
}

/// Whether the reply to a request has a packet error code.
fn reply_has_pec(asked: Asked) -> bool {
    match asked {
        Asked::Read(_, _, pec) | Asked::Call(_, _, _, pec) => pec,
        Asked::Write(_) | Asked::Set(..) | Asked::Get(..) => false,
    }
}

/// How a host ends that has heard this.
pub(crate) fn plain_end(
    alloc: Global,
    profile: &Profile,
    row: Row,
    heard: &[Heard],
) -> Result<HostStep, NoPacket> {
    if let Some(fault) = first_fault(heard) {
        return Ok(HostStep::Failed(fault));
    }
    if reply_has_pec(row.packet) && !ends_with_pec(alloc, heard)? {
        return Ok(HostStep::Failed(HostFault::BadPec));
    }
    match data_of(alloc, profile, row.packet, heard)? {
        Some(data) => Ok(HostStep::Done(reply_of(row.told, data.as_slice()))),
        None => Ok(HostStep::Done(Reply::Written)),
    }
}

/// A request's transaction, with the data of a reply.
fn transaction_of(asked: Asked, reply: &[u8]) -> Result<Transaction, NoPacket> {
    match asked {
        Asked::Write(parts) => Ok(Transaction::Write {
            parts: parts_of(parts),
        }),
        Asked::Read(addr, code, pec) => Ok(Transaction::Read {
            addr,
            code,
            reply: bytes_of(reply),
            pec,
        }),
        Asked::Call(addr, code, bytes, pec) => Ok(Transaction::Call {
            addr,
            code,
            bytes: bytes_of(bytes),
            reply: bytes_of(reply),
            pec,
        }),
        Asked::Set(..) | Asked::Get(..) => Err(NoPacket::AgainstTheRules),
    }
}

/// The packet of a request, with the bytes that were read, and zeros for those that were not.
pub(crate) fn plain_packet(
    alloc: Global,
    profile: &Profile,
    asked: Asked,
    heard: &[Heard],
) -> Result<Vec<Event>, NoPacket> {
    let transaction = match data_of(alloc, profile, asked, heard)? {
        Some(data) => transaction_of(asked, data.as_slice())?,
        None => transaction_of(asked, &[])?,
    };
    packet(alloc, profile, &transaction)
}

/// What a capture shows of signals and answers.
pub(crate) fn recorded(alloc: Global, heard: &[Heard]) -> Result<Vec<Event>, NoPacket> {
    let mut events = Vec::new(alloc);
    for Heard { signal, answer } in heard {
        match (signal, answer) {
            (HostSignal::Start, _) => events.push(Event::Start)?,
            (HostSignal::Byte(sent), DeviceSignal::Ack) => {
                events.extend_from_slice(&[Event::Byte(*sent), Event::Ack])?;
            }
            (HostSignal::Byte(sent), _) => {
                events.extend_from_slice(&[Event::Byte(*sent), Event::Nack])?;
            }
            (HostSignal::Ask, DeviceSignal::Byte(given)) => events.push(Event::Byte(*given))?,
            (HostSignal::Ask, _) | (HostSignal::Nack, _) => events.push(Event::Nack)?,
            (HostSignal::Ack, _) => events.push(Event::Ack)?,
            (HostSignal::Stop, _) => events.push(Event::Stop)?,
        }
    }
    Ok(events)
}
