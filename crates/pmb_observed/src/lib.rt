//! What the facts of a capture tell of the commands of its devices: reads of status registers, and
//! numbers, each of a command of a device, on a page, in a phase.
//!
//! A [`Spot`] is such a command on a page, in a phase. The definitions say what each fact tells of
//! which spot (`specs/Observing`), and what there is to tell of a page in the end (`specs/Told`).
//! [`phases_of`] says how many phases a command has, and [`phase_at`] gives each, in order.
#![tactic(auto)]

mod phases;
mod spot;

pub use phases::{phase_at, phase_count, phases_of};
pub use spot::{PageKey, PhaseKey, Spot};
