//! Tests of what commands are: the standard's table, the names of status bits, how the data of each
//! form go over the bus, which packets carry a packet error code, what an accepted profile says of its
//! devices and commands, and what it makes of their data.
//!
//! A table of rows a subject; a row that fails prints its name.
#![tactic(auto)]

#[cfg(test)]
mod command_data;
#[cfg(test)]
mod compare;
#[cfg(test)]
mod forms;
#[cfg(test)]
mod meanings;
#[cfg(test)]
mod modes;
#[cfg(test)]
mod parts;
#[cfg(test)]
mod sample;
#[cfg(test)]
mod shapes;
#[cfg(test)]
mod standard_commands;
#[cfg(test)]
mod status_bits;
#[cfg(test)]
mod units;
