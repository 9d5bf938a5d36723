//! Tests of simulated devices and their bus: sessions told by hand, also with devices that take what is
//! written at other addresses, the programs of
//! `docs/devices.md`, and random signals beside devices by the rules in words and beside what a
//! reader reads of the events; and buses of each size.

mod bench;
mod calls;
mod compared;
mod memory;
mod others;
mod random;
mod sessions;
mod signals;
mod sizes;
