//! The packets of a capture, counted by devices and commands.
//!
//! Its rows: `tests/rows/scan.txt`.

use crate::command_tally::CommandTally;
use crate::device_tally::DeviceTally;
use crate::leg::Leg;
use crate::leg_reader::LegReader;
use crate::seen::place_of;
use pmb_bus::Event;
use pmb_command::PecMode;
use std::alloc::{AllocError, Global};

/// How many devices are counted.
const DEVICES: usize = 64;

/// How many codes a device may have.
const CODES: usize = 256;

/// The packets so far. A device is named by its place in a list that only grows.
#[derive(Drop)]
pub(crate) struct Tallies {
    reader: LegReader,
    packets: u64,
    devices: [DeviceTally; DEVICES],
    /// For each device in turn, for each code.
    commands: Vec<CommandTally>,
}

impl Tallies {
    /// No event came. All memory is taken here.
    ///
    /// # Errors
    ///
    /// There was no memory.
    pub(crate) fn new(alloc: Global) -> Result<Tallies, AllocError> {
        Ok(Tallies {
            reader: LegReader::new(),
            packets: 0,
            devices: [DeviceTally::NONE; DEVICES],
            commands: vec![in alloc; CommandTally::NONE; DEVICES * CODES]?,
        })
    }

    /// Takes the next event, where these are the addresses of the devices.
    pub(crate) fn take(&mut self, event: Event, addresses: &[u8]) {
        if event == Event::Stop && self.reader.is_inside() {
            self.packets = self.packets.saturating_add(1);
        }
        if let Some(leg) = self.reader.take(event) {
            self.take_leg(&leg, addresses);
        }
    }

    /// Takes the end of the events.
    pub(crate) fn end(&mut self, addresses: &[u8]) {
        if let Some(leg) = self.reader.end() {
            self.take_leg(&leg, addresses);
        }
    }

    fn take_leg(&mut self, leg: &Leg, addresses: &[u8]) {
        let Some(device) = place_of(leg.address, addresses) else {
            return;
        };
        if device >= DEVICES {
            return;
        }
        if let Some(tally) = self.devices.get_mut(device) {
            tally.take(leg);
        }
        if let Some(tally) = self.commands.get_mut(device * CODES + leg.code as usize) {
            tally.take(leg);
        }
    }

    /// How many packets came.
    pub(crate) fn packets(&self) -> u64 {
        self.packets
    }

    /// The packets of the device at a place.
    pub(crate) fn device(&self, place: usize) -> Option<&DeviceTally> {
        self.devices.get(place)
    }

    /// The packets of a command of the device at a place, where there is one.
    pub(crate) fn command(&self, place: usize, code: u8) -> Option<&CommandTally> {
        if place >= DEVICES {
            return None;
        }
        let tally = self.commands.get(place * CODES + code as usize)?;
        if tally.legs() == 0 { None } else { Some(tally) }
    }

    /// Whether the packets of a device carry packet error codes.
    pub(crate) fn pec_mode(&self, place: usize) -> PecMode {
        let told = self.telling(place, PecMode::Optional);
        if told == 0 {
            PecMode::Optional
        } else if self.telling(place, PecMode::On) == told {
            PecMode::On
        } else if self.telling(place, PecMode::Off) == told {
            PecMode::Off
        } else {
            PecMode::Optional
        }
    }

    /// How many packets of a device tell of packet error codes.
    fn telling(&self, place: usize, mode: PecMode) -> u64 {
        let mut count = 0u64;
        for code in 0..=255u8 {
            if let Some(tally) = self.command(place, code) {
                count = count.saturating_add(tally.telling(code, mode));
            }
        }
        count
    }

    /// How many packets of a device have the forms that its commands have under a mode, of those that
    /// another mode allows.
    pub(crate) fn fitting(&self, place: usize, mode: PecMode, of: PecMode) -> u64 {
        let mut count = 0u64;
        for code in 0..=255u8 {
            if let Some(tally) = self.command(place, code) {
                count = count.saturating_add(tally.fitting(tally.shape(code, mode), of));
            }
        }
        count
    }
}
