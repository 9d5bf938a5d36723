//! Tests of registers (`pmb_registers`), and of simulated devices and their bus (`pmb_device`,
//! `pmb_devices`), by hand and beside devices by the rules in words.
#![tactic(auto)]

#[cfg(test)]
mod compare;
#[cfg(test)]
mod devices;
#[cfg(test)]
mod plain;
#[cfg(test)]
mod registers;
