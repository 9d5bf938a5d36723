//! One device: its registers, and what it does in the packet under way.
//!
//! Its rows: `tests_devices`, `src/devices/calls.rt`, `src/devices/compared.rt`.

ghost use Rattle.std.specs.Prelude.{◌≡◌, ◌≤◌, ℕ, List, IfOk, IfSome, length, option_map};
ghost use Rattle.pmb_command.specs.Parts.{DeviceParts};
ghost use Rattle.pmb_registers.specs.Apply.{after_other};
ghost use Rattle.pmb_registers.specs.State.{DeviceState, first_state, register};
ghost use Rattle.pmb_device.specs.declared.signal.HostSignal.TheVariants.{Byte, Stop};
ghost use Rattle.pmb_device.specs.Legs.{Legs, Outside, with_signal};
ghost use Rattle.pmb_device.specs.Rules.{Answers};
ghost use Rattle.pmb_device.specs.Ends.{Took};
ghost use Rattle.pmb_device.specs.DevicePacket.{IsAskedIn, written_part};
ghost use Rattle.pmb_device.specs.Device.{DeviceStanding, DeviceStandsAt, Leads, Moves, Remembers};
ghost use Rattle.pmb_device.specs.machine.Device.{Acted};

use crate::device_packet::{DevicePacket, Effect, Heard};
use crate::signal::{DeviceSignal, HostSignal};
use pmb_leg::WriteContent;
use pmb_registers::Registers;
use pmb_table::DeviceProfile;
use std::alloc::{AllocError, Global};

/// A simulated device.
#[derive(Drop)]
pub struct Device<'p> {
    registers: Registers<'p>,
    exchange: DevicePacket<'p>,
    /// Whether it took a complete write in the packet that ended with the last STOP.
    wrote: bool,
}

impl<'p> Device<'p> {
    /// A device in its first state, outside of legs. It has room for all that its registers can hold,
    /// so no later call takes memory. Where an allocation is refused nothing was made.
    pub fn new(alloc: Global, device: &'p DeviceProfile) -> Result<Self, AllocError>
        ensures { IfOk result (λ made. DeviceStandsAt made (record { device = device.now; state = first_state device.now; legs = Outside })) }
    {
        let registers = Registers::new(alloc, device)?;
        Ok(Device {
            registers,
            exchange: DevicePacket::new(device),
            wrote: false,
        })
    }

    /// The device's profile.
    pub fn profile(&self) -> &'p DeviceProfile
        ensures { (standing : DeviceStanding) → DeviceStandsAt self.now standing → result.now ≡ standing.device }
    {
        self.registers.device()
    }

    /// The device's address, seven bits.
    pub fn address(&self) -> u8
        ensures { (standing : DeviceStanding) → DeviceStandsAt self.now standing → result ≡ standing.device.address }
    {
        self.registers.device().address()
    }

    /// The selected page, ffh for all pages.
    pub fn page(&self) -> u8
        ensures { (standing : DeviceStanding) → DeviceStandsAt self.now standing → result ≡ standing.state.page }
    {
        self.registers.page()
    }

    /// What a register holds, low byte first and without the count of a block. There is none for a
    /// page that is not there or a code without a register.
    pub fn register(&self, page: u8, code: u8) -> Option<&[u8]>
        ensures { (standing : DeviceStanding) → DeviceStandsAt self.now standing
            → option_map (λ bytes. bytes.now) result ≡ register standing.device standing.state page code }
    {
        self.registers.register(page, code)
    }

    /// Takes a signal of the host, and answers it. Its registers and its page change at STOP alone.
    #[inline]
    pub fn on(&mut self, signal: HostSignal) -> DeviceSignal
        ensures { (standing : DeviceStanding) → DeviceStandsAt self.old standing → Moves standing signal result self.new }
    {
        match signal {
            HostSignal::Start => {
                self.exchange.start();
                DeviceSignal::Silent
            }
            HostSignal::Byte(byte) => self.byte(byte),
            HostSignal::Ask => self.exchange.ask(),
            HostSignal::Ack => {
                self.exchange.ack();
                DeviceSignal::Silent
            }
            HostSignal::Nack => {
                self.exchange.nack();
                DeviceSignal::Silent
            }
            HostSignal::Stop => {
                self.stop();
                DeviceSignal::Silent
            }
        }
    }

    /// Takes a byte.
    #[inline]
    fn byte(&mut self, byte: u8) -> DeviceSignal
        ensures { (standing : DeviceStanding) → DeviceStandsAt self.old standing → Moves standing (Byte byte) result self.new }
    {
        match self.exchange.byte(byte) {
            Heard::Silent => DeviceSignal::Silent,
            Heard::Ack => DeviceSignal::Ack,
            Heard::Nack => DeviceSignal::Nack,
            Heard::Read => self.be_read(),
        }
    }

    /// Answers its address for reading.
    fn be_read(&mut self) -> DeviceSignal
        ensures { (device : DeviceParts) (state : DeviceState) (legs : Legs) (byte : ℕ) (body : List ℕ)
            → self.old.registers ≡ record { device = device; state = state } → IsAskedIn self.old.exchange device state legs byte body
            → Moves (record { device = device; state = state; legs = legs }) (Byte byte) result self.new }
    {
        match self.registers.answer(self.exchange.body()) {
            Ok(reply) => {
                self.exchange.reply(reply.as_slice());
                DeviceSignal::Ack
            }
            Err(bit) => {
                self.exchange.refuse(bit);
                DeviceSignal::Nack
            }
        }
    }

    /// Does what the packet does to its registers.
    fn stop(&mut self)
        ensures { (standing : DeviceStanding) → DeviceStandsAt self.old standing → Leads standing Stop self.new }
    {
        self.act();
        self.exchange.end();
    }

    /// Does it, and keeps whether it is a complete write.
    fn act(&mut self)
        ensures { (standing : DeviceStanding) → DeviceStandsAt self.old standing → Acted standing self.new }
    {
        match self.exchange.outcome() {
            Effect::Nothing => self.wrote = false,
            Effect::Write { code, bytes } => {
                self.registers.write(code, bytes);
                self.wrote = true;
            }
            Effect::Note(bit) => {
                self.registers.note(bit);
                self.wrote = false;
            }
        }
    }

    /// The complete write that the device took in the packet that ended with the last signal, a STOP.
    pub fn written(&self) -> Option<WriteContent<'_>>
        ensures took { (device : DeviceParts) (legs : Legs) → Remembers self.now device legs
            → Took device legs (written_part device result) }
        ensures few { IfSome result (λ content. length content.bytes.now ≤ 255) }
    {
        if self.wrote {
            self.exchange.kept()
        } else {
            None
        }
    }

    /// Takes, directly after a STOP, a complete write that came to another address of its part: the code
    /// and up to 255 bytes of data. It acts as one at the device's own address, if the device has such a
    /// write, and else does nothing.
    pub fn take(&mut self, code: u8, bytes: &[u8])
        requires { length bytes.now ≤ 255 }
        ensures stands { (device : DeviceParts) (state : DeviceState)
            → DeviceStandsAt self.old (record { device = device; state = state; legs = Outside })
            → DeviceStandsAt self.new (record { device = device; state = after_other device code bytes.now state; legs = Outside }) }
        ensures remembers { (device : DeviceParts) (legs : Legs) → Remembers self.old device legs
            → Remembers self.new device legs }
    {
        self.registers.write_other(code, bytes);
    }
}
