//! The library for C: thin exports over the crates that do the work.
//!
//! Functions that allocate nothing: packet error codes, every number format in both directions, the
//! texts of quantities, the names of commands and of status bits, and the events of a capture's
//! text ([`firmware`]), with the library's version ([`version`]). Functions that take memory for a
//! profile, and write to the caller's buffer: `show`, `check`, `build`, `run` and `json` over whole
//! inputs ([`whole`]), and hints for mistakes in a profile ([`explain`]). And the capture of a whole
//! recording, without a profile ([`recording`]). Handles hold what stays from one call to the next: a
//! profile that was read ([`profile`]), a reader that is fed a capture in pieces ([`reader`]), of which items
//! may be taken ([`items`]), and a bus of simulated devices ([`bus`]).
//!
//! A C caller is checked by nobody, so no export has a premise on values: each is itself the test
//! of what it is given. What a C type can't say is the header's to say: no pointer is null, and
//! after each is what its type and length tell. `include/pmb.h` has the same names.
//!
//! ```c
//! #include "pmb.h"
//! uint16_t code;
//! pmb_encode(&(pmb_format){ .kind = PMB_LINEAR11 }, (pmb_quantity){ 12, 1 }, &code);   /* 0xd300
//! */
//! ```
#![tactic(auto)]

pub mod bus;
mod choice;
pub mod explain;
pub mod firmware;
pub mod handle;
pub mod held;
pub mod items;
pub mod profile;
pub mod reader;
mod recorder;
pub mod recording;
mod result;
pub mod version;
pub mod whole;
