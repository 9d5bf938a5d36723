//! I2C messages.
//!
//! A message ends by STOP where it is the last of its transfer, or where a device refused it. Devices
//! act at STOP alone, so what a transfer writes is done when its last message is sent.
//!
//! Its rows: `tests_host`, `src/i2c/messages.rt`, `random.rt`.

ghost use Rattle.std.specs.Prelude.{◌≡◌, ◌+◌, ◌≤◌, IfOk, OnErr, length, drop};
ghost use Rattle.pmb_bus.specs.Address.{read_address, write_address};
ghost use Rattle.pmb_i2c.specs.Signals.{Gives};
ghost use Rattle.pmb_i2c.specs.Message.{IsMessage, ReadsAll, ReadsCounted, Writes};

use crate::listener::Listener;
use crate::signals::{begin, byte_of, finish, give, read_bytes, write_bytes};
use pmb_bus::{read_address, write_address};
use pmb_device::HostSignal;
use pmb_devices::Bus;

/// What comes after a message.
#[derive(Clone, Copy, Debug, PartialEq, Eq)]
pub enum MessageEnd {
    /// STOP: it is the last message of its transfer.
    Stop,
    /// A repeated START: another message follows.
    RepeatedStart,
}

/// Why a message failed. STOP is on the bus after it, unless nothing was sent.
#[derive(Clone, Copy, Debug, PartialEq, Eq)]
pub enum MessageFault {
    /// No device took the address: ENXIO of Linux.
    NoDevice,
    /// A device refused a byte: EREMOTEIO.
    Refused,
    /// The count of a block is 0 or above 32: EPROTO.
    BadCount,
    /// The address is above 7fh, and nothing was sent: EINVAL.
    BadAddress,
}

/// The most bytes that a count allows.
const MOST_COUNTED: u8 = 32;

/// Writes bytes to a device, up to the first that it refuses. No bytes make a quick command.
///
/// # Errors
///
/// `BadAddress`, `NoDevice`, and `Refused` by the first byte that has no ACK.
pub fn write<L: Listener>(
    bus: &mut Bus<'_>,
    address: u8,
    bytes: &[u8],
    end: MessageEnd,
    log: &mut L,
) -> Result<(), MessageFault>
    ensures { Gives (IsMessage address (write_address address) (Writes bytes.now result) end result) bus.old bus.new (L.HasHeard log.old) (L.HasHeard log.new) }
{
    if address > 0x7f {
        return Err(MessageFault::BadAddress);
    }
    begin(bus, write_address(address), log)?;
    let outcome = write_bytes(bus, bytes, log);
    finish(bus, end, outcome.is_err(), log);
    outcome
}

/// Reads as many bytes as there is room for: each gets ACK but the last one, which gets NACK. Where no
/// device gives a byte, ffh is read, as from a wire with a pull-up. No room makes a quick command that
/// reads.
///
/// # Errors
///
/// `BadAddress` and `NoDevice`: then nothing was read.
pub fn read<L: Listener>(
    bus: &mut Bus<'_>,
    address: u8,
    bytes: &mut [u8],
    end: MessageEnd,
    log: &mut L,
) -> Result<(), MessageFault>
    ensures signals { Gives (IsMessage address (read_address address) (ReadsAll bytes.new result) end result) bus.old bus.new (L.HasHeard log.old) (L.HasHeard log.new) }
    ensures untouched { OnErr result (bytes.new ≡ bytes.old) }
{
    if address > 0x7f {
        return Err(MessageFault::BadAddress);
    }
    begin(bus, read_address(address), log)?;
    read_bytes(bus, bytes, log);
    finish(bus, end, false, log);
    Ok(())
}

/// Reads a count, as many bytes, and `more` bytes after them, such as a packet error code. It returns
/// how many came in all, the count among them.
fn read_counted<L: Listener>(
    bus: &mut Bus<'_>,
    bytes: &mut [u8],
    more: usize,
    log: &mut L,
) -> Result<usize, MessageFault>
    requires { 33 + more ≤ length bytes.old }
    ensures signals { Gives (ReadsCounted bytes.new more result) bus.old bus.new (L.HasHeard log.old) (L.HasHeard log.new) }
    ensures rest { IfOk result (λ n. drop n bytes.new ≡ drop n bytes.old) }
    ensures untouched { OnErr result (bytes.new ≡ bytes.old) }
{
    let count = byte_of(give(bus, HostSignal::Ask, log));
    if count == 0 || count > MOST_COUNTED {
        give(bus, HostSignal::Nack, log);
        return Err(MessageFault::BadCount);
    }
    give(bus, HostSignal::Ack, log);
    let came = 1 + count as usize + more;
    bytes[0] = count;
    read_bytes(bus, &mut bytes[1..came], log);
    Ok(came)
}

/// Reads a block whose first byte says how many follow, 1 to 32, and `more` bytes after them: 1 where
/// a packet error code comes, else 0. It returns how many bytes came in all, and leaves the room after
/// them as it was. There has to be room for the largest block.
///
/// # Errors
///
/// `BadAddress`, `NoDevice`, and `BadCount` where the count is 0 or above 32: it gets NACK. Then
/// nothing was read.
pub fn read_length<L: Listener>(
    bus: &mut Bus<'_>,
    address: u8,
    bytes: &mut [u8],
    more: usize,
    end: MessageEnd,
    log: &mut L,
) -> Result<usize, MessageFault>
    requires { 33 + more ≤ length bytes.old }
    ensures signals { Gives (IsMessage address (read_address address) (ReadsCounted bytes.new more result) end result) bus.old bus.new (L.HasHeard log.old) (L.HasHeard log.new) }
    ensures rest { IfOk result (λ n. drop n bytes.new ≡ drop n bytes.old) }
    ensures untouched { OnErr result (bytes.new ≡ bytes.old) }
{
    if address > 0x7f {
        return Err(MessageFault::BadAddress);
    }
    begin(bus, read_address(address), log)?;
    let outcome = read_counted(bus, bytes, more, log);
    finish(bus, end, outcome.is_err(), log);
    outcome
}
