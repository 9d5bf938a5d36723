//! The signals since the last STOP, in legs.

use pmb_device::{DeviceSignal, HostSignal};
use std::alloc::{AllocError, Global};

/// A leg: the bytes that the host sent, an address first, and all signals after the address.
#[derive(Drop)]
pub(crate) struct PlainLeg {
    pub bytes: Vec<u8>,
    pub behind: Vec<HostSignal>,
    /// How many of the bytes the device took: those before the first that it did not.
    taken: usize,
}

/// Adds a signal to the legs, with the answer to it; what comes before the first START is in none.
pub(crate) fn take(
    alloc: Global,
    legs: &mut Vec<PlainLeg>,
    signal: HostSignal,
    answer: DeviceSignal,
) -> Result<(), AllocError> {
    if signal == HostSignal::Start {
        legs.push(PlainLeg {
            bytes: Vec::new(alloc),
            behind: Vec::new(alloc),
            taken: 0,
        })?;
    } else if let Some(leg) = legs.last_mut() {
        leg.take(signal, answer)?;
    }
    Ok(())
}

impl PlainLeg {
    fn take(&mut self, signal: HostSignal, answer: DeviceSignal) -> Result<(), AllocError> {
        if !self.bytes.is_empty() {
            self.behind.push(signal)?;
        }
        if let HostSignal::Byte(byte) = signal {
            if answer == DeviceSignal::Ack {
                self.taken = self.taken.saturating_add(1);
            }
            self.bytes.push(byte)?;
        }
        Ok(())
    }

    /// Whether the leg begins with this byte.
    pub fn is_to(&self, address: u8) -> bool {
        self.bytes.first() == Some(&address)
    }

    /// Whether it begins with this byte, and the device took that.
    pub fn is_taken_by(&self, address: u8) -> bool {
        self.is_to(address) && self.taken > 0
    }

    /// Whether a byte of it was not taken.
    pub fn is_refused(&self) -> bool {
        self.taken < self.bytes.len()
    }

    /// The bytes that were taken.
    pub fn taken(&self) -> &[u8] {
        self.bytes.get(..self.taken).unwrap_or(&[])
    }
}
