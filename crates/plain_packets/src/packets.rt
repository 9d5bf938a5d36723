//! The events of a transaction, built rule by rule.
//!
//! Its rows: `tests_packets`, `src/transactions/packet_rows.rt` and `no_packet_rows.rt`.

ghost use Rattle.std.specs.Prelude.{IfOk};
ghost use Rattle.pmb_transaction.specs.Capture.{EndsAtFirstStop};
ghost use Rattle.plain_packets.specs.Stops.{NoneStops};

use crate::legs::{
    Body, NoPacket, address_byte, allowed, allows, goes_on, is_leg, leg_bytes, plain_pec, push_leg,
    push_wire, reply_form, require,
};
use pmb_bus::Event;
use pmb_table::{DeviceProfile, Form, Profile};
use pmb_transaction::{Part, Transaction};
use std::alloc::Global;

fn device(profile: &Profile, addr: u8) -> Result<&DeviceProfile, NoPacket> {
    profile.device(addr).ok_or(NoPacket::AgainstTheRules)
}

fn has_address(parts: &[Part], addr: u8) -> bool {
    for part in parts {
        if part.addr == addr {
            return true;
        }
    }
    false
}

/// The legs of parts, no two of which are for one device.
fn parts_events(alloc: Global, profile: &Profile, parts: &[Part]) -> Result<Vec<Event>, NoPacket>
    ensures { IfOk result (λ events. NoneStops events.items) }
{
    let mut events = Vec::new(alloc);
    for (index, part) in parts.iter().enumerate() {
        require(!has_address(&parts[..index], part.addr))?;
        let device = device(profile, part.addr)?;
        let body = Body::Write { pec: part.pec };
        let bytes = leg_bytes(alloc, device, body, part.code, part.bytes.as_slice())?;
        push_leg(&mut events, bytes.as_slice(), Event::Ack)?;
    }
    Ok(events)
}

#[tactic(auto, using(crate::proofs::Stops::ends))]
fn write_events(alloc: Global, profile: &Profile, parts: &[Part]) -> Result<Vec<Event>, NoPacket>
    ensures { IfOk result (λ events. EndsAtFirstStop events.items) }
{
    require(!parts.is_empty())?;
    let mut group = parts_events(alloc, profile, parts)?;
    group.push(Event::Stop)?;
    Ok(group)
}

/// Appends the last leg, whose last byte has NACK, and STOP.
#[tactic(auto, using(crate::proofs::Stops::ends))]
fn end_with(mut events: Vec<Event>, bytes: &[u8]) -> Result<Vec<Event>, NoPacket>
    requires { NoneStops events.items }
    ensures { IfOk result (λ events. EndsAtFirstStop events.items) }
{
    push_leg(&mut events, bytes, Event::Nack)?;
    events.push(Event::Stop)?;
    Ok(events)
}

/// The leg that was sent, and the leg of the reply in the form; a packet error code covers the
/// bytes of both.
fn answered(
    alloc: Global,
    device: &DeviceProfile,
    sent: &[u8],
    form: Form,
    reply: &[u8],
    pec: bool,
) -> Result<Vec<Event>, NoPacket>
    ensures { IfOk result (λ events. EndsAtFirstStop events.items) }
{
    require(allows(device.pec(), pec))?;
    let mut answer = Vec::new(alloc);
    answer.push(address_byte(device.address(), true)?)?;
    push_wire(&mut answer, form, reply)?;
    if pec {
        let mut covered = Vec::new(alloc);
        covered.extend_from_slice(sent)?;
        covered.extend_from_slice(answer.as_slice())?;
        answer.push(plain_pec(covered.as_slice()))?;
    }
    let mut events = Vec::new(alloc);
    push_leg(&mut events, sent, Event::Ack)?;
    end_with(events, answer.as_slice())
}

/// A refused packet: complete parts, then a leg whose last byte was refused.
fn refused_byte_events(
    alloc: Global,
    profile: &Profile,
    parts: &[Part],
    addr: u8,
    sent: &[u8],
) -> Result<Vec<Event>, NoPacket>
    ensures { IfOk result (λ events. EndsAtFirstStop events.items) }
{
    require(!has_address(parts, addr))?;
    let events = parts_events(alloc, profile, parts)?;
    let mut bytes = Vec::new(alloc);
    bytes.push(address_byte(addr, false)?)?;
    bytes.extend_from_slice(sent)?;
    if let Some((_, front)) = bytes.as_slice().split_last() {
        // The address byte may be refused by no device; the first byte after it may have any
        // value.
        if !sent.is_empty() {
            let device = device(profile, addr)?;
            let bodies = allowed(parts.is_empty());
            require(front.len() == 1 || goes_on(alloc, device, bodies, front)?)?;
        }
    }
    end_with(events, bytes.as_slice())
}

/// A refused packet: a leg that asks for a reply, then a read address that was refused.
fn refused_read_events(
    alloc: Global,
    profile: &Profile,
    parts: &[Part],
    addr: u8,
    sent: &[u8],
) -> Result<Vec<Event>, NoPacket>
    ensures { IfOk result (λ events. EndsAtFirstStop events.items) }
{
    require(parts.is_empty())?;
    let device = device(profile, addr)?;
    let mut bytes = Vec::new(alloc);
    bytes.push(address_byte(addr, false)?)?;
    bytes.extend_from_slice(sent)?;
    require(is_leg(alloc, device, &[Body::Read, Body::Call], bytes.as_slice())?)?;
    let mut events = Vec::new(alloc);
    push_leg(&mut events, bytes.as_slice(), Event::Ack)?;
    end_with(events, &[address_byte(addr, true)?])
}

/// The answer at the Alert Response Address, read: none, a byte, or a byte and its packet error
/// code.
fn alert_events(alloc: Global, answer: &[u8]) -> Result<Vec<Event>, NoPacket>
    ensures { IfOk result (λ events. EndsAtFirstStop events.items) }
{
    let mut bytes = Vec::new(alloc);
    bytes.push(0x19)?;
    bytes.extend_from_slice(answer)?;
    end_with(Vec::new(alloc), bytes.as_slice())
}

/// The events of the packet of a transaction under a profile.
pub fn packet(
    alloc: Global,
    profile: &Profile,
    transaction: &Transaction,
) -> Result<Vec<Event>, NoPacket>
    ensures { IfOk result (λ events. EndsAtFirstStop events.items) }
{
    match transaction {
        Transaction::Write { parts } => write_events(alloc, profile, parts.as_slice()),
        Transaction::Read {
            addr,
            code,
            reply,
            pec,
        } => {
            let device = device(profile, *addr)?;
            let sent = leg_bytes(alloc, device, Body::Read, *code, &[])?;
            let form = reply_form(device, Body::Read, *code)?;
            answered(alloc, device, sent.as_slice(), form, reply.as_slice(), *pec)
        }
        Transaction::Call {
            addr,
            code,
            bytes,
            reply,
            pec,
        } => {
            let device = device(profile, *addr)?;
            let sent = leg_bytes(alloc, device, Body::Call, *code, bytes.as_slice())?;
            let form = reply_form(device, Body::Call, *code)?;
            answered(alloc, device, sent.as_slice(), form, reply.as_slice(), *pec)
        }
        Transaction::Refused {
            parts,
            addr,
            sent,
            at_read,
        } => {
            if *at_read {
                refused_read_events(alloc, profile, parts.as_slice(), *addr, sent.as_slice())
            } else {
                refused_byte_events(alloc, profile, parts.as_slice(), *addr, sent.as_slice())
            }
        }
        Transaction::Alert { byte, pec } => {
            if *pec {
                alert_events(alloc, &[*byte, plain_pec(&[0x19, *byte])])
            } else {
                alert_events(alloc, &[*byte])
            }
        }
        Transaction::NoAlert => alert_events(alloc, &[]),
    }
}
