//! A bus beside devices by the rules in words, and beside registers to which is applied what a
//! reader reads of the events.

use crate::plain::{PlainDevice, PlainWrite};
use pmb_bus::Event;
use pmb_device::{DeviceSignal, HostSignal};
use pmb_devices::Bus;
use pmb_reader::{Reader, Took};
use pmb_registers::Registers;
use pmb_table::Profile;
use std::alloc::{AllocError, Global};

/// All three, given the same signals.
#[derive(Drop)]
pub(crate) struct Compared<'p> {
    profile: &'p Profile,
    bus: Bus<'p>,
    plain: Vec<PlainDevice<'p>>,
    reader: Reader<'p>,
    applied: Vec<Registers<'p>>,
    /// Whether the reader refused an event.
    refused: bool,
    /// At how many STOPs the transactions that were read were compared too.
    pub alike: usize,
}

/// The events of a signal and the answer to it.
fn events_of(signal: HostSignal, answer: DeviceSignal) -> [Option<Event>; 2] {
    match (signal, answer) {
        (HostSignal::Start, _) => [Some(Event::Start), None],
        (HostSignal::Stop, _) => [Some(Event::Stop), None],
        (HostSignal::Ack, _) => [Some(Event::Ack), None],
        (HostSignal::Nack, _) => [Some(Event::Nack), None],
        (HostSignal::Byte(byte), DeviceSignal::Ack) => [Some(Event::Byte(byte)), Some(Event::Ack)],
        (HostSignal::Byte(byte), _) => [Some(Event::Byte(byte)), Some(Event::Nack)],
        (HostSignal::Ask, DeviceSignal::Byte(byte)) => [Some(Event::Byte(byte)), None],
        (HostSignal::Ask, _) => [Some(Event::Nack), None],
    }
}

impl<'p> Compared<'p> {
    pub(crate) fn new(alloc: Global, profile: &'p Profile) -> Result<Self, AllocError> {
        let mut plain = Vec::new(alloc);
        let mut applied = Vec::new(alloc);
        for i in 0..profile.len() {
            if let Some(device) = profile.device_at(i) {
                plain.push(PlainDevice::new(alloc, device)?)?;
                applied.push(Registers::new(alloc, device)?)?;
            }
        }
        Ok(Compared {
            profile,
            bus: Bus::new(alloc, profile)?,
            plain,
            reader: Reader::new(profile),
            applied,
            refused: false,
            alike: 0,
        })
    }

    /// Gives a signal to all, and says whether they agree.
    pub(crate) fn take(&mut self, signal: HostSignal) -> Result<bool, AllocError> {
        let mut expected = DeviceSignal::Silent;
        for device in self.plain.as_mut_slice().iter_mut() {
            let given = device.on(signal)?;
            if given != DeviceSignal::Silent {
                expected = given;
            }
        }
        let recorded = self.bus.signal(signal);
        let [first, second] = events_of(signal, expected);
        let events = recorded.events();
        if recorded.answer() != expected
            || events.first().copied() != first
            || events.get(1).copied() != second
        {
            return Ok(false);
        }
        for event in events {
            self.read(*event);
        }
        if signal != HostSignal::Stop {
            return Ok(true);
        }
        self.take_others()?;
        if !self.refused {
            self.alike = self.alike.saturating_add(1);
        }
        Ok(self.hold_alike())
    }

    /// Each plain device takes what was written at its other addresses, from the least one on.
    fn take_others(&mut self) -> Result<(), AllocError> {
        for i in 0..self.profile.len() {
            let Some(device) = self.profile.device_at(i) else {
                return Ok(());
            };
            for address in 0..128u8 {
                if address != device.address() && device.listens(address) {
                    self.take_at(i, address)?;
                }
            }
        }
        Ok(())
    }

    fn take_at(&mut self, i: usize, address: u8) -> Result<(), AllocError> {
        let Some(write) = self.written_at(address)? else {
            return Ok(());
        };
        match self.plain.as_mut_slice().get_mut(i) {
            Some(device) => device.take(&write),
            None => Ok(()),
        }
    }

    /// What was written to the plain device with an address.
    fn written_at(&self, address: u8) -> Result<Option<PlainWrite>, AllocError> {
        for device in self.plain.iter() {
            if device.address() == address {
                return device.last_write();
            }
        }
        Ok(None)
    }

    /// Has the reader take an event, and applies what it read. A refused event stays: from it on
    /// the reader passes over what comes, up to a STOP.
    fn read(&mut self, event: Event) {
        match self.reader.take(event) {
            Took::Continues => {}
            Took::Packet => {
                for registers in self.applied.as_mut_slice().iter_mut() {
                    registers.apply(self.reader.packet());
                }
            }
            Took::Refused(_) => {
                self.refused = true;
                self.reader.resync();
                let _ = self.reader.take(event);
            }
        }
    }

    /// Whether each device has the page and the registers that it has by the rules, and that the
    /// transactions made, where none was refused.
    fn hold_alike(&self) -> bool {
        for i in 0..self.profile.len() {
            let Some(profile) = self.profile.device_at(i) else {
                return false;
            };
            let Some(device) = self.bus.device(profile.address()) else {
                return false;
            };
            let Some(plain) = self.plain.get(i) else {
                return false;
            };
            let Some(applied) = self.applied.get(i) else {
                return false;
            };
            if device.page() != plain.page() || !self.refused && device.page() != applied.page() {
                return false;
            }
            for k in 0..profile.len() {
                let Some(entry) = profile.entry_at(k) else {
                    return false;
                };
                for page in 0..profile.pages() {
                    let held = device.register(page, entry.code);
                    if held != plain.register(page, entry.code)
                        || !self.refused && held != applied.register(page, entry.code)
                    {
                        return false;
                    }
                }
            }
        }
        true
    }
}
