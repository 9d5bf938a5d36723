//! Laws on simulated devices: their rules allow one answer alone.
//!
//! What a device answers to a signal, and what STOP makes of its state, are relations in `pmb_device`,
//! and those of a bus in `pmb_devices`. By these laws they are functions of the profile, the state and
//! the signals since the last STOP. So two devices, or two buses, that stand alike go on alike. See
//! [`laws`]. Nothing runs here.
#![tactic(auto)]

pub mod laws;
