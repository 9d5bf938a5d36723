//! Tests of bytes: capture text, packet error codes and addresses (`pmb_bus`), places in a text
//! (`pmb_places`), times that its comments tell (`pmb_times`), C functions that allocate nothing
//! (`pmb_firmware`), readers and writers (`pmb_io`).
#![tactic(auto)]

#[cfg(test)]
mod bus;
#[cfg(test)]
mod compare;
#[cfg(test)]
mod firmware;
#[cfg(test)]
mod io;
#[cfg(test)]
mod places;
#[cfg(test)]
mod times;
