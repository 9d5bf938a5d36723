//! Whether some packet begins with events, found by trying transactions.
//!
//! A list of events is viable if it is empty or some packet begins with it. Transactions are tried
//! whose addresses, codes and data are those of the events as far as they go. Where an address or a
//! code is missing each one is tried, and missing data are 0.
//!
//! Its rows: `tests_packets`, `src/transactions/refusal_rows.rt`.

ghost use Rattle.std.specs.Prelude.{◌≡◌, [], Ok, true};

use crate::legs::{Body, NoPacket, data_like, form_of, leg_bytes, leg_like, reply_form};
use crate::packets::packet;
use arrayvec::ArrayVec;
use pmb_bus::{Event, Kinds};
use pmb_table::{DeviceProfile, Profile};
use pmb_transaction::{Part, Transaction};
use std::alloc::{AllocError, Global};

/// The bytes of each leg of some events.
fn legs_of(alloc: Global, events: &[Event]) -> Result<Vec<Vec<u8>>, AllocError> {
    let mut legs: Vec<Vec<u8>> = Vec::new(alloc);
    for event in events {
        match event {
            Event::Start => legs.push(Vec::new(alloc))?,
            Event::Byte(byte) => {
                if let Some(leg) = legs.last_mut() {
                    leg.push(*byte)?;
                }
            }
            Event::Ack | Event::Nack | Event::Stop => {}
        }
    }
    Ok(legs)
}

/// The address of a leg, or each one where it is missing.
fn addresses(alloc: Global, leg: &[u8]) -> Result<Vec<u8>, AllocError> {
    let mut addresses = Vec::new(alloc);
    match leg.first() {
        Some(byte) => addresses.push(*byte / 2)?,
        None => {
            for address in 0..128u8 {
                addresses.push(address)?;
            }
        }
    }
    Ok(addresses)
}

/// The code of a leg, or each one of the device where it is missing.
fn codes(alloc: Global, device: &DeviceProfile, leg: &[u8]) -> Result<Vec<u8>, AllocError> {
    let mut codes = Vec::new(alloc);
    match leg.get(1) {
        Some(code) => codes.push(*code)?,
        None => {
            for index in 0..device.len() {
                if let Some(entry) = device.entry_at(index) {
                    codes.push(entry.code)?;
                }
            }
        }
    }
    Ok(codes)
}

/// What stands from a place on.
fn behind(bytes: &[u8], from: usize) -> &[u8] {
    bytes.get(from..).unwrap_or(&[])
}

/// The bytes as a bounded list; none if there is no room for them.
fn bounded<const N: usize>(bytes: &[u8]) -> ArrayVec<u8, N> {
    let mut list = ArrayVec::new();
    let _ = list.try_extend_from_slice(bytes);
    list
}

/// What the rules allow; none where they don't.
fn if_allowed<T: Drop>(allowed: Result<T, NoPacket>) -> Result<Option<T>, AllocError> {
    match allowed {
        Ok(value) => Ok(Some(value)),
        Err(NoPacket::AgainstTheRules) => Ok(None),
        Err(NoPacket::Memory) => Err(AllocError),
    }
}

/// A part with a code, and the data of a leg as far as they go.
fn part_like(
    alloc: Global,
    device: &DeviceProfile,
    code: u8,
    pec: bool,
    leg: &[u8],
) -> Result<Option<Part>, AllocError> {
    let Some(form) = if_allowed(form_of(device, Body::Write { pec }, code))? else {
        return Ok(None);
    };
    let data = data_like(alloc, form, behind(leg, 2))?;
    Ok(Some(Part {
        addr: device.address(),
        code,
        bytes: bounded(data.as_slice()),
        pec,
    }))
}

/// The part whose leg has just these bytes.
fn part_of(alloc: Global, profile: &Profile, leg: &[u8]) -> Result<Option<Part>, AllocError> {
    let [address, code, ..] = leg else {
        return Ok(None);
    };
    let Some(device) = profile.device(*address / 2) else {
        return Ok(None);
    };
    for pec in [false, true] {
        let bytes = leg_like(alloc, device, Body::Write { pec }, leg);
        if let Some(bytes) = if_allowed(bytes)? {
            if bytes.as_slice() == leg {
                return part_like(alloc, device, *code, pec, leg);
            }
        }
    }
    Ok(None)
}

/// The parts whose legs these are; none if one of them is no part's, or they are too many.
fn parts_of(
    alloc: Global,
    profile: &Profile,
    legs: &[Vec<u8>],
) -> Result<Option<ArrayVec<Part, 15>>, AllocError> {
    let mut parts = ArrayVec::new();
    for leg in legs {
        match part_of(alloc, profile, leg.as_slice())? {
            None => return Ok(None),
            Some(part) => {
                if parts.try_push(part).is_err() {
                    return Ok(None);
                }
            }
        }
    }
    Ok(Some(parts))
}

/// A refused packet in which bytes are sent to an address after some parts.
fn refused(parts: &ArrayVec<Part, 15>, addr: u8, sent: &[u8]) -> Result<Transaction, AllocError> {
    Ok(Transaction::Refused {
        parts: parts.clone()?,
        addr,
        sent: bounded(sent),
        at_read: false,
    })
}

/// A write of some parts and one more.
fn write(parts: &ArrayVec<Part, 15>, last: Part) -> Result<Transaction, AllocError> {
    let mut all = ArrayVec::new();
    for part in parts.as_slice() {
        let _ = all.try_push(part.clone()?);
    }
    let _ = all.try_push(last);
    Ok(Transaction::Write { parts: all })
}

/// Tries writes of some parts and one more, like a last leg.
fn try_writes(
    tried: &mut Vec<Transaction>,
    alloc: Global,
    device: &DeviceProfile,
    parts: &ArrayVec<Part, 15>,
    last: &[u8],
) -> Result<(), AllocError> {
    for code in &codes(alloc, device, last)? {
        for pec in [false, true] {
            if let Some(part) = part_like(alloc, device, *code, pec, last)? {
                tried.push(write(parts, part)?)?;
            }
        }
    }
    Ok(())
}

/// Tries writes and groups whose last leg is like the last one, and such packets refused there.
fn try_groups(
    tried: &mut Vec<Transaction>,
    alloc: Global,
    profile: &Profile,
    legs: &[Vec<u8>],
) -> Result<(), AllocError> {
    let Some((last, complete)) = legs.split_last() else {
        return Ok(());
    };
    let Some(parts) = parts_of(alloc, profile, complete)? else {
        return Ok(());
    };
    let mut one_more = Vec::from_slice(alloc, behind(last.as_slice(), 1))?;
    one_more.push(0)?;
    for addr in &addresses(alloc, last.as_slice())? {
        tried.push(refused(&parts, *addr, &[])?)?;
        tried.push(refused(&parts, *addr, behind(last.as_slice(), 1))?)?;
        tried.push(refused(&parts, *addr, one_more.as_slice())?)?;
        if let Some(device) = profile.device(*addr) {
            try_writes(tried, alloc, device, &parts, last.as_slice())?;
        }
    }
    Ok(())
}

/// Tries to read a command, with a reply like these bytes.
fn try_reads(
    tried: &mut Vec<Transaction>,
    alloc: Global,
    device: &DeviceProfile,
    code: u8,
    reply: &[u8],
) -> Result<(), AllocError> {
    let addr = device.address();
    let Some(form) = if_allowed(reply_form(device, Body::Read, code))? else {
        return Ok(());
    };
    let reply = data_like(alloc, form, reply)?;
    for pec in [false, true] {
        tried.push(Transaction::Read {
            addr,
            code,
            reply: bounded(reply.as_slice()),
            pec,
        })?;
    }
    tried.push(Transaction::Refused {
        parts: ArrayVec::new(),
        addr,
        sent: bounded(&[code]),
        at_read: true,
    })?;
    Ok(())
}

/// Tries to call a command, with data and a reply like these bytes.
fn try_calls(
    tried: &mut Vec<Transaction>,
    alloc: Global,
    device: &DeviceProfile,
    code: u8,
    sent: &[u8],
    reply: &[u8],
) -> Result<(), AllocError> {
    let addr = device.address();
    let Some(form) = if_allowed(form_of(device, Body::Call, code))? else {
        return Ok(());
    };
    let data = data_like(alloc, form, sent)?;
    let reply = data_like(alloc, form, reply)?;
    for pec in [false, true] {
        tried.push(Transaction::Call {
            addr,
            code,
            bytes: bounded(data.as_slice()),
            reply: bounded(reply.as_slice()),
            pec,
        })?;
    }
    let leg = leg_bytes(alloc, device, Body::Call, code, data.as_slice());
    if let Some(leg) = if_allowed(leg)? {
        tried.push(Transaction::Refused {
            parts: ArrayVec::new(),
            addr,
            sent: bounded(behind(leg.as_slice(), 1)),
            at_read: true,
        })?;
    }
    Ok(())
}

/// Tries reads and calls like a first leg and the second one, and such packets refused to be read.
fn try_answers(
    tried: &mut Vec<Transaction>,
    alloc: Global,
    profile: &Profile,
    first: &[u8],
    second: &[u8],
) -> Result<(), AllocError> {
    let reply = behind(second, 1);
    for addr in &addresses(alloc, first)? {
        if let Some(device) = profile.device(*addr) {
            for code in &codes(alloc, device, first)? {
                try_reads(tried, alloc, device, *code, reply)?;
                try_calls(tried, alloc, device, *code, behind(first, 2), reply)?;
            }
        }
    }
    Ok(())
}

/// Tries answers at the Alert Response Address, with the byte of a leg.
fn try_alerts(tried: &mut Vec<Transaction>, leg: &[u8]) -> Result<(), AllocError> {
    let byte = leg.get(1).copied().unwrap_or(0);
    tried.push(Transaction::Alert { byte, pec: false })?;
    tried.push(Transaction::Alert { byte, pec: true })?;
    tried.push(Transaction::NoAlert)?;
    Ok(())
}

/// The transactions to try.
fn to_try(
    alloc: Global,
    profile: &Profile,
    events: &[Event],
) -> Result<Vec<Transaction>, AllocError> {
    let legs = legs_of(alloc, events)?;
    let mut tried = Vec::new(alloc);
    try_groups(&mut tried, alloc, profile, legs.as_slice())?;
    match legs.as_slice() {
        [only] => {
            try_answers(&mut tried, alloc, profile, only.as_slice(), &[])?;
            try_alerts(&mut tried, only.as_slice())?;
        }
        [first, second] => {
            try_answers(
                &mut tried,
                alloc,
                profile,
                first.as_slice(),
                second.as_slice(),
            )?;
        }
        _ => {}
    }
    Ok(tried)
}

/// There are no events, or some packet begins with them.
pub fn is_viable(alloc: Global, profile: &Profile, events: &[Event]) -> Result<bool, AllocError>
    ensures none { events.now ≡ [] → result ≡ Ok true }
{
    if events.is_empty() {
        return Ok(true);
    }
    for transaction in &to_try(alloc, profile, events)? {
        if let Some(packet) = if_allowed(packet(alloc, profile, transaction))? {
            if packet.as_slice().starts_with(events) {
                return Ok(true);
            }
        }
    }
    Ok(false)
}

/// The events are viable with one more.
fn goes_on_with(
    alloc: Global,
    profile: &Profile,
    events: &[Event],
    event: Event,
) -> Result<bool, AllocError> {
    let mut longer = Vec::from_slice(alloc, events)?;
    longer.push(event)?;
    is_viable(alloc, profile, longer.as_slice())
}

/// The events are viable with some byte more.
fn goes_on_with_a_byte(
    alloc: Global,
    profile: &Profile,
    events: &[Event],
) -> Result<bool, AllocError> {
    for byte in 0..=255u8 {
        if goes_on_with(alloc, profile, events, Event::Byte(byte))? {
            return Ok(true);
        }
    }
    Ok(false)
}

/// The kinds of the events that may come next.
pub fn kinds_after(
    alloc: Global,
    profile: &Profile,
    events: &[Event],
) -> Result<Kinds, AllocError> {
    let mut kinds = Kinds::empty();
    for event in [Event::Start, Event::Ack, Event::Nack, Event::Stop] {
        if goes_on_with(alloc, profile, events, event)? {
            kinds.insert(Kinds::of(event));
        }
    }
    if goes_on_with_a_byte(alloc, profile, events)? {
        kinds.insert(Kinds::BYTE);
    }
    Ok(kinds)
}
