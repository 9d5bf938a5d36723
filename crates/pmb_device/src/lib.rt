//! A simulated device on a bus.
#![tactic(auto)]

mod device;
mod device_packet;
mod reply;
mod signal;

pub use device::Device;
pub use device_packet::{DevicePacket, Effect, Heard};
pub use signal::{DeviceSignal, HostSignal};
