//! Tests of the host (`pmb_host`), and of requests on simulated devices (`pmb_exchange`), by hand and
//! beside a host by the rules in words; of I2C messages to simulated devices (`pmb_i2c`); of sessions of a bus
//! (`pmb_bus_session`).
#![tactic(auto)]

#[cfg(test)]
mod compare;
#[cfg(test)]
mod exchange;
#[cfg(test)]
mod host;
#[cfg(test)]
mod i2c;
#[cfg(test)]
mod session;
