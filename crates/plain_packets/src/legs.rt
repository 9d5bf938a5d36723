//! The bytes of a leg, and its events.
//!
//! Its rows: `tests_packets`, `src/legs/written.rt` and `answers.rt`, and
//! `src/transactions/packet_rows.rt`.

ghost use Rattle.std.specs.Prelude.{◌≢◌, IfOk};
ghost use Rattle.plain_packets.specs.Stops.{NoneStops};

use pmb_bus::Event;
use pmb_table::{DeviceProfile, Form, PecMode};
use std::alloc::{AllocError, AllocFailed, Global};

/// Why there are no events.
#[derive(Clone, Copy, Debug, PartialEq, Eq)]
pub enum NoPacket {
    /// The transaction has no packet under the profile.
    AgainstTheRules,
    /// Memory was refused.
    Memory,
}

impl From<AllocError> for NoPacket {
    fn from(_error: AllocError) -> Self {
        NoPacket::Memory
    }
}

impl<T: Drop> From<AllocFailed<T>> for NoPacket {
    fn from(_error: AllocFailed<T>) -> Self {
        NoPacket::Memory
    }
}

pub(crate) fn require(holds: bool) -> Result<(), NoPacket> {
    if holds {
        Ok(())
    } else {
        Err(NoPacket::AgainstTheRules)
    }
}

/// A sort of body: what is sent to a device after its address.
#[derive(Clone, Copy)]
pub enum Body {
    /// A command is written, with or without a packet error code.
    Write { pec: bool },
    /// It is to be read.
    Read,
    /// It is called.
    Call,
}

/// The sorts that a leg may have: after other parts a command is written.
pub fn allowed(first_leg: bool) -> &'static [Body] {
    if first_leg {
        &[
            Body::Write { pec: false },
            Body::Write { pec: true },
            Body::Read,
            Body::Call,
        ]
    } else {
        &[Body::Write { pec: false }, Body::Write { pec: true }]
    }
}

pub(crate) fn allows(mode: PecMode, pec: bool) -> bool {
    match mode {
        PecMode::Off => !pec,
        PecMode::On => pec,
        PecMode::Optional => true,
    }
}

/// The byte that addresses a device, to write to it or to read from it.
pub(crate) fn address_byte(addr: u8, read: bool) -> Result<u8, NoPacket> {
    if addr < 0x80 {
        Ok(addr * 2 + u8::from(read))
    } else {
        Err(NoPacket::AgainstTheRules)
    }
}

/// The remainder by x^8 + x^2 + x + 1, bit by bit.
pub fn plain_pec(bytes: &[u8]) -> u8 {
    let mut crc = 0u8;
    for byte in bytes {
        crc ^= *byte;
        for _ in 0..8 {
            crc = if crc < 0x80 {
                crc << 1
            } else {
                (crc << 1) ^ 0x07
            };
        }
    }
    crc
}

/// The form in which a command is written, read or called.
pub fn reply_form(device: &DeviceProfile, body: Body, code: u8) -> Result<Form, NoPacket> {
    let Some(entry) = device.entry(code) else {
        return Err(NoPacket::AgainstTheRules);
    };
    let form = match body {
        Body::Write { .. } => entry.shape.write,
        Body::Read => entry.shape.read,
        Body::Call => entry.shape.call,
    };
    form.ok_or(NoPacket::AgainstTheRules)
}

/// The form of the data after the code in a body of this sort: to be read takes none.
pub fn form_of(device: &DeviceProfile, body: Body, code: u8) -> Result<Form, NoPacket> {
    let form = reply_form(device, body, code)?;
    match body {
        Body::Read => Ok(Form::Zero),
        Body::Write { .. } | Body::Call => Ok(form),
    }
}

/// Appends data as they go over the bus in a form.
pub fn push_wire(bytes: &mut Vec<u8>, form: Form, data: &[u8]) -> Result<(), NoPacket> {
    let count = data.len();
    match form {
        Form::Zero => require(count == 0)?,
        Form::One => require(count == 1)?,
        Form::Two => require(count == 2)?,
        Form::Four => require(count == 4)?,
        Form::Eight => require(count == 8)?,
        Form::Block => match u8::try_from(count) {
            Ok(count) => bytes.push(count)?,
            Err(_) => return Err(NoPacket::AgainstTheRules),
        },
    }
    bytes.extend_from_slice(data)?;
    Ok(())
}

/// The bytes of a leg to a device: its address, the code, the data, and where it is written so the
/// packet error code of this leg.
pub(crate) fn leg_bytes(
    alloc: Global,
    device: &DeviceProfile,
    body: Body,
    code: u8,
    data: &[u8],
) -> Result<Vec<u8>, NoPacket> {
    let form = form_of(device, body, code)?;
    let mut bytes = Vec::new(alloc);
    bytes.push(address_byte(device.address(), false)?)?;
    bytes.push(code)?;
    push_wire(&mut bytes, form, data)?;
    if let Body::Write { pec } = body {
        require(allows(device.pec(), pec))?;
        if pec {
            let check = plain_pec(bytes.as_slice());
            bytes.push(check)?;
        }
    }
    Ok(bytes)
}

/// A form's data out of some bytes, 0 where there are no more; a block has as many as its count
/// says.
pub fn data_like(alloc: Global, form: Form, like: &[u8]) -> Result<Vec<u8>, AllocError> {
    let (count, from) = match form {
        Form::Zero => (0, 0),
        Form::One => (1, 0),
        Form::Two => (2, 0),
        Form::Four => (4, 0),
        Form::Eight => (8, 0),
        Form::Block => (like.first().copied().unwrap_or(0), 1),
    };
    let mut bytes = like.iter().skip(from);
    let mut data = Vec::new(alloc);
    for _ in 0..count {
        data.push(bytes.next().copied().unwrap_or(0))?;
    }
    Ok(data)
}

/// The bytes of a leg like the one given: with its code, and its data as far as they go.
pub fn leg_like(
    alloc: Global,
    device: &DeviceProfile,
    body: Body,
    leg: &[u8],
) -> Result<Vec<u8>, NoPacket> {
    let code = leg.get(1).copied().ok_or(NoPacket::AgainstTheRules)?;
    let form = form_of(device, body, code)?;
    let data = data_like(alloc, form, leg.get(2..).unwrap_or(&[]))?;
    leg_bytes(alloc, device, body, code, data.as_slice())
}

/// A leg of one of these sorts begins with the bytes given, and continues.
pub fn goes_on(
    alloc: Global,
    device: &DeviceProfile,
    bodies: &[Body],
    front: &[u8],
) -> Result<bool, AllocError> {
    for body in bodies {
        match leg_like(alloc, device, *body, front) {
            Ok(leg) => {
                if leg.len() > front.len() && leg.as_slice().starts_with(front) {
                    return Ok(true);
                }
            }
            Err(NoPacket::AgainstTheRules) => {}
            Err(NoPacket::Memory) => return Err(AllocError),
        }
    }
    Ok(false)
}

/// The bytes given are those of a leg of one of these sorts.
pub fn is_leg(
    alloc: Global,
    device: &DeviceProfile,
    bodies: &[Body],
    bytes: &[u8],
) -> Result<bool, AllocError> {
    for body in bodies {
        match leg_like(alloc, device, *body, bytes) {
            Ok(leg) => {
                if leg.as_slice() == bytes {
                    return Ok(true);
                }
            }
            Err(NoPacket::AgainstTheRules) => {}
            Err(NoPacket::Memory) => return Err(AllocError),
        }
    }
    Ok(false)
}

/// Appends a byte, and what was answered to it.
#[tactic(auto, using(crate::proofs::Stops::one_more))]
fn push_byte(events: &mut Vec<Event>, byte: u8, answer: Event) -> Result<(), NoPacket>
    requires other { answer ≢ Event.Stop }
    ensures { IfOk result (λ _. NoneStops events.old.items → NoneStops events.new.items) }
{
    events.push(Event::Byte(byte))?;
    events.push(answer)?;
    Ok(())
}

/// Appends START, and the bytes each with ACK, but for the last.
#[tactic(auto, using(crate::proofs::Stops::one_more))]
pub(crate) fn push_leg(events: &mut Vec<Event>, bytes: &[u8], last: Event) -> Result<(), NoPacket>
    requires other { last ≢ Event.Stop }
    ensures { IfOk result (λ _. NoneStops events.old.items → NoneStops events.new.items) }
{
    events.push(Event::Start)?;
    if let Some((end, front)) = bytes.split_last() {
        for byte in front {
            push_byte(events, *byte, Event::Ack)?;
        }
        push_byte(events, *end, last)?;
    }
    Ok(())
}
