//! Messages with the flags of Linux.
//!
//! Its rows: `tests_host`, `src/session.rt`.

ghost use Rattle.std.specs.Prelude.{◌≡◌, [], IfSome, IsFalse, IsTrue, None, length};
ghost use Rattle.pmb_message.specs.Send.{HasKnownFlags, IsReady, IsUnsent, Sends, block_as, counted, counted_as, fault_as, reading, reading_block, writing};

use crate::tape::Tape;
use pmb_devices::Bus;
use pmb_i2c::{MessageEnd, MessageFault, read, read_length, write};

/// To write.
const WRITING: u16 = 0;

/// To read: `I2C_M_RD`.
const READING: u16 = 1;

/// To read a block: `I2C_M_RD` with `I2C_M_RECV_LEN`.
const READING_BLOCK: u16 = 0x0401;

/// The most bytes of a message.
const MOST_BYTES: usize = 8192;

/// The most bytes of a block with its count.
const MOST_COUNTED: usize = 33;

/// One I2C message, as `struct i2c_msg` of `<linux/i2c.h>` has it. Its bytes are at the front of a room.
#[derive(Clone, Copy, Debug, PartialEq, Eq)]
pub struct Message {
    /// The address of the device, of seven bits.
    pub address: u16,
    /// 0 to write, 1 (`I2C_M_RD`) to read, 0401h (`I2C_M_RECV_LEN` with it) to read a block.
    pub flags: u16,
    /// How many bytes are written or read; of a block, how many follow it, such as 1 for a packet error
    /// code.
    pub length: usize,
    /// What comes after it.
    pub end: MessageEnd,
}

/// Why a message failed.
#[derive(Clone, Copy, Debug, PartialEq, Eq)]
pub enum SendFault {
    /// No device took the address: ENXIO of Linux.
    NoDevice,
    /// A device refused a byte: EREMOTEIO.
    Refused,
    /// The count of a block is 0 or above 32: EPROTO.
    BadCount,
    /// The address is above 7fh, and nothing was sent: EINVAL.
    BadAddress,
    /// More bytes than there is room for, or than 8,192, and nothing was sent: EINVAL.
    BadLength,
    /// Flags other than 0, 1 and 0401h, and nothing was sent: EOPNOTSUPP.
    BadFlags,
}

/// How many bytes there has to be room for beside the length.
fn counted_bytes(flags: u16) -> usize
    ensures { result ≡ counted flags }
{
    if flags == READING_BLOCK {
        MOST_COUNTED
    } else {
        0
    }
}

fn has_known_flags(message: Message) -> bool
    ensures known { IsTrue result → HasKnownFlags message }
    ensures unknown { IsFalse result → ¬ (HasKnownFlags message) }
{
    message.flags == WRITING || message.flags == READING || message.flags == READING_BLOCK
}

/// Why a message is not sent, with room for so many bytes.
fn unsent_fault(message: Message, room: usize) -> Option<SendFault>
    ensures why { IfSome result (IsUnsent message room) }
    ensures ready { result ≡ None → IsReady message room }
{
    if !has_known_flags(message) {
        return Some(SendFault::BadFlags);
    }
    if message.address > 0x7f {
        return Some(SendFault::BadAddress);
    }
    let most = room.min(MOST_BYTES);
    let counted = counted_bytes(message.flags);
    if message.length > most || counted > most - message.length {
        return Some(SendFault::BadLength);
    }
    None
}

fn fault_of(fault: MessageFault) -> SendFault
    ensures { result ≡ fault_as fault }
{
    match fault {
        MessageFault::NoDevice => SendFault::NoDevice,
        MessageFault::Refused => SendFault::Refused,
        MessageFault::BadCount => SendFault::BadCount,
        MessageFault::BadAddress => SendFault::BadAddress,
    }
}

/// A number of bytes, or a fault.
fn count_of(length: usize, outcome: Result<(), MessageFault>) -> Result<usize, SendFault>
    ensures { result ≡ counted_as length outcome }
{
    match outcome {
        Ok(()) => Ok(length),
        Err(fault) => Err(fault_of(fault)),
    }
}

/// How many bytes came of a block, or a fault.
fn block_count_of(outcome: Result<usize, MessageFault>) -> Result<usize, SendFault>
    ensures { result ≡ block_as outcome }
{
    match outcome {
        Ok(count) => Ok(count),
        Err(fault) => Err(fault_of(fault)),
    }
}

/// Sends a message, whose bytes are at the front of the room: those that are written, or where those that
/// are read go. It returns how many were written or read. The tape has the events of this message alone.
///
/// # Errors
///
/// Those of [`SendFault`]. STOP is on the bus after one, unless nothing was sent.
pub fn send(
    bus: &mut Bus<'_>,
    message: Message,
    room: &mut [u8],
    tape: &mut Tape,
) -> Result<usize, SendFault>
    ensures { Sends message room.old room.new bus.old bus.new tape.new result }
{
    tape.clear();
    if let Some(fault) = unsent_fault(message, room.len()) {
        return Err(fault);
    }
    if message.flags == WRITING {
        return send_write(bus, message, room, tape);
    }
    if message.flags == READING {
        return send_read(bus, message, room, tape);
    }
    send_block(bus, message, room, tape)
}

/// Writes the bytes of a message.
fn send_write(
    bus: &mut Bus<'_>,
    message: Message,
    room: &[u8],
    tape: &mut Tape,
) -> Result<usize, SendFault>
    requires ready { IsReady message (length room.now) }
    requires flags { message.flags ≡ writing }
    requires fresh { tape.old ≡ [] }
    ensures { Sends message room.now room.now bus.old bus.new tape.new result }
{
    let bytes = &room[..message.length];
    let outcome = write(bus, message.address as u8, bytes, message.end, tape);
    count_of(message.length, outcome)
}

/// Reads the bytes of a message.
fn send_read(
    bus: &mut Bus<'_>,
    message: Message,
    room: &mut [u8],
    tape: &mut Tape,
) -> Result<usize, SendFault>
    requires ready { IsReady message (length room.old) }
    requires flags { message.flags ≡ reading }
    requires fresh { tape.old ≡ [] }
    ensures { Sends message room.old room.new bus.old bus.new tape.new result }
{
    let bytes = &mut room[..message.length];
    let outcome = read(bus, message.address as u8, bytes, message.end, tape);
    count_of(message.length, outcome)
}

/// Reads a block, and the bytes after it.
fn send_block(
    bus: &mut Bus<'_>,
    message: Message,
    room: &mut [u8],
    tape: &mut Tape,
) -> Result<usize, SendFault>
    requires ready { IsReady message (length room.old) }
    requires flags { message.flags ≡ reading_block }
    requires fresh { tape.old ≡ [] }
    ensures { Sends message room.old room.new bus.old bus.new tape.new result }
{
    let outcome = read_length(
        bus,
        message.address as u8,
        room,
        message.length,
        message.end,
        tape,
    );
    block_count_of(outcome)
}
