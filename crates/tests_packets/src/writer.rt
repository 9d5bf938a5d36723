//! Tests of transactions as packets, over the public names of `pmb_writer`: tables of transactions,
//! each with its capture text or the name of its first fault, told by hand.

mod faults;
mod packets;
mod says;
mod sizes;
