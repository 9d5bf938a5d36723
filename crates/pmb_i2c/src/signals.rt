//! Signals to a bus, and what a listener hears of them.
//!
//! Its rows: `tests_host`, `src/i2c/messages.rt`, `random.rt`.

ghost use Rattle.std.specs.Prelude.{◌≡◌, ◌↔◌, IsTrue, [], ◌∷◌};
ghost use Rattle.pmb_device.specs.declared.signal.DeviceSignal.TheVariants as answers;
ghost use Rattle.pmb_device.specs.declared.signal.HostSignal.TheVariants as signals;
ghost use Rattle.pmb_i2c.specs.Signals.{Gives};
ghost use Rattle.pmb_i2c.specs.Message.{BeginsAt, EndsBy, Reads, ReadsByte, Writes, answered, stops};
ghost use Rattle.pmb_i2c.specs.Wire.{byte_read};

use crate::listener::Listener;
use crate::message::{MessageEnd, MessageFault};
use pmb_bus::Event;
use pmb_device::{DeviceSignal, HostSignal};
use pmb_devices::Bus;

/// Gives the bus a signal, tells what is on the wire of it, and returns the answer.
pub(crate) fn give<L: Listener>(bus: &mut Bus<'_>, signal: HostSignal, log: &mut L) -> DeviceSignal
    ensures { Gives (λ heard. heard ≡ answered signal result ∷ []) bus.old bus.new (L.HasHeard log.old) (L.HasHeard log.new) }
{
    let recorded = bus.signal(signal);
    let answer = recorded.answer();
    if is_ask(signal) {
        let byte = [Event::Byte(byte_of(answer))];
        log.hear(&byte);
        return answer;
    }
    log.hear(recorded.events());
    answer
}

/// Whether the host asks for a byte.
fn is_ask(signal: HostSignal) -> bool
    ensures { IsTrue result ↔ signal ≡ signals.Ask }
{
    match signal {
        HostSignal::Ask => true,
        HostSignal::Start
        | HostSignal::Byte(_)
        | HostSignal::Ack
        | HostSignal::Nack
        | HostSignal::Stop => false,
    }
}

/// Whether a device took a byte.
pub(crate) fn is_ack(answer: DeviceSignal) -> bool
    ensures { IsTrue result ↔ answer ≡ answers.Ack }
{
    match answer {
        DeviceSignal::Ack => true,
        DeviceSignal::Silent | DeviceSignal::Nack | DeviceSignal::Byte(_) => false,
    }
}

/// The byte that was read, ffh where no device gave one.
pub(crate) fn byte_of(answer: DeviceSignal) -> u8
    ensures { result ≡ byte_read answer }
{
    match answer {
        DeviceSignal::Byte(byte) => byte,
        DeviceSignal::Silent | DeviceSignal::Ack | DeviceSignal::Nack => 0xff,
    }
}

/// Writes bytes up to the first that no device takes.
pub(crate) fn write_bytes<L: Listener>(
    bus: &mut Bus<'_>,
    bytes: &[u8],
    log: &mut L,
) -> Result<(), MessageFault>
    ensures { Gives (Writes bytes.now result) bus.old bus.new (L.HasHeard log.old) (L.HasHeard log.new) }
{
    for byte in bytes {
        let answer = give(bus, HostSignal::Byte(*byte), log);
        if !is_ack(answer) {
            return Err(MessageFault::Refused);
        }
    }
    Ok(())
}

/// Reads a byte, and answers it by ACK or NACK.
fn read_byte<L: Listener>(bus: &mut Bus<'_>, reply: HostSignal, log: &mut L) -> u8
    ensures { Gives (ReadsByte reply result) bus.old bus.new (L.HasHeard log.old) (L.HasHeard log.new) }
{
    let answer = give(bus, HostSignal::Ask, log);
    give(bus, reply, log);
    byte_of(answer)
}

/// Reads as many bytes as there is room for.
pub(crate) fn read_bytes<L: Listener>(bus: &mut Bus<'_>, bytes: &mut [u8], log: &mut L)
    ensures { Gives (Reads bytes.new) bus.old bus.new (L.HasHeard log.old) (L.HasHeard log.new) }
{
    if bytes.is_empty() {
        return;
    }
    let last = bytes.len() - 1;
    for i in 0..last {
        bytes[i] = read_byte(bus, HostSignal::Ack, log);
    }
    bytes[last] = read_byte(bus, HostSignal::Nack, log);
}

/// START and the address; STOP where no device takes it.
pub(crate) fn begin<L: Listener>(
    bus: &mut Bus<'_>,
    address_byte: u8,
    log: &mut L,
) -> Result<(), MessageFault>
    ensures { Gives (BeginsAt address_byte result) bus.old bus.new (L.HasHeard log.old) (L.HasHeard log.new) }
{
    give(bus, HostSignal::Start, log);
    let answer = give(bus, HostSignal::Byte(address_byte), log);
    if is_ack(answer) {
        return Ok(());
    }
    give(bus, HostSignal::Stop, log);
    Err(MessageFault::NoDevice)
}

/// Whether STOP comes after a message.
fn stops(end: MessageEnd, failed: bool) -> bool
    ensures { result ≡ stops end failed }
{
    match end {
        MessageEnd::Stop => true,
        MessageEnd::RepeatedStart => failed,
    }
}

/// STOP, where one comes after a message.
pub(crate) fn finish<L: Listener>(bus: &mut Bus<'_>, end: MessageEnd, failed: bool, log: &mut L)
    ensures { Gives (EndsBy (stops end failed)) bus.old bus.new (L.HasHeard log.old) (L.HasHeard log.new) }
{
    if stops(end, failed) {
        give(bus, HostSignal::Stop, log);
    }
}
