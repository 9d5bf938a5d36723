//! The signals of a message by the rules in words: for the answers so far the whole list is made anew,
//! as long as they tell it.

use pmb_bus::Event;
use pmb_device::{DeviceSignal, HostSignal};
use pmb_devices::Bus;
use pmb_i2c::{MessageEnd, MessageFault};
use std::alloc::{AllocError, Global};

/// What a message does: it writes bytes, reads so many, or reads a block and so many bytes after it.
#[derive(Clone, Copy)]
pub(crate) enum Message<'b> {
    Write(&'b [u8]),
    Read(usize),
    ReadLength(usize),
}

/// What came of a message: its events, the bytes that the host read, and why it failed.
#[derive(Drop)]
pub(crate) struct Sent {
    pub(crate) events: Vec<Event>,
    pub(crate) bytes: Vec<u8>,
    pub(crate) fault: Option<MessageFault>,
}

/// What the host reads where a device answers so.
fn byte_read(answer: DeviceSignal) -> u8 {
    if let DeviceSignal::Byte(byte) = answer {
        byte
    } else {
        0xff
    }
}

/// An Ask for each of some bytes, with ACK but for the last one.
fn push_asks(all: &mut Vec<HostSignal>, count: usize) -> Result<(), AllocError> {
    for left in (0..count).rev() {
        all.push(HostSignal::Ask)?;
        all.push(if left == 0 {
            HostSignal::Nack
        } else {
            HostSignal::Ack
        })?;
    }
    Ok(())
}

/// The signals after the address, by the answers to them: true where they are told to their end, or
/// the fault.
fn push_bytes(
    all: &mut Vec<HostSignal>,
    message: Message<'_>,
    answers: &[DeviceSignal],
) -> Result<Result<bool, MessageFault>, AllocError> {
    match message {
        Message::Write(bytes) => {
            for (i, byte) in bytes.iter().enumerate() {
                all.push(HostSignal::Byte(*byte))?;
                match answers.get(i) {
                    Some(DeviceSignal::Ack) => {}
                    Some(_) => return Ok(Err(MessageFault::Refused)),
                    None => return Ok(Ok(false)),
                }
            }
        }
        Message::Read(count) => push_asks(all, count)?,
        Message::ReadLength(more) => {
            all.push(HostSignal::Ask)?;
            let Some(answer) = answers.first() else {
                return Ok(Ok(false));
            };
            let count = byte_read(*answer);
            if !(1..=32).contains(&count) {
                all.push(HostSignal::Nack)?;
                return Ok(Err(MessageFault::BadCount));
            }
            all.push(HostSignal::Ack)?;
            push_asks(all, usize::from(count) + more.min(1))?;
        }
    }
    Ok(Ok(true))
}

/// The signals of a message as far as these answers tell them, and the fault that they show.
fn signals(
    alloc: Global,
    address: u8,
    message: Message<'_>,
    end: MessageEnd,
    answers: &[DeviceSignal],
) -> Result<(Vec<HostSignal>, Option<MessageFault>), AllocError> {
    let mut all = Vec::new(alloc);
    if address > 0x7f {
        return Ok((all, Some(MessageFault::BadAddress)));
    }
    let direction = if matches!(message, Message::Write(_)) {
        0
    } else {
        1
    };
    all.push(HostSignal::Start)?;
    all.push(HostSignal::Byte(address * 2 + direction))?;
    let told = match answers.get(1) {
        None => Ok(false),
        Some(DeviceSignal::Ack) => push_bytes(&mut all, message, answers.get(2..).unwrap_or(&[]))?,
        Some(_) => Err(MessageFault::NoDevice),
    };
    let fault = told.err();
    if fault.is_some() || (told == Ok(true) && end == MessageEnd::Stop) {
        all.push(HostSignal::Stop)?;
    }
    Ok((all, fault))
}

/// Sends a message to a bus, signal for signal.
pub(crate) fn send(
    alloc: Global,
    bus: &mut Bus<'_>,
    address: u8,
    message: Message<'_>,
    end: MessageEnd,
) -> Result<Sent, AllocError> {
    let mut sent = Sent {
        events: Vec::new(alloc),
        bytes: Vec::new(alloc),
        fault: None,
    };
    let mut answers = Vec::new(alloc);
    for place in 0..80 {
        let (all, fault) = signals(alloc, address, message, end, answers.as_slice())?;
        sent.fault = fault;
        let Some(signal) = all.get(place) else {
            break;
        };
        let recorded = bus.signal(*signal);
        answers.push(recorded.answer())?;
        if *signal == HostSignal::Ask {
            let byte = byte_read(recorded.answer());
            sent.events.push(Event::Byte(byte))?;
            sent.bytes.push(byte)?;
        } else {
            sent.events.extend_from_slice(recorded.events())?;
        }
    }
    Ok(sent)
}
