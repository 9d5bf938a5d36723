//! The facts of a capture as plain numbers.
//!
//! An [`Item`] says what a fact of `pmb_facts` says without pointers and texts of its own: where and when it
//! begins, its kind, the device and the command, the bytes that were sent and replied, the number that the
//! data are, and why an event was refused. By the [`laws`] it names the device that the object of the fact
//! names. [`append_item`] appends its record, of [`RECORD`] bytes: the layout of a struct of C without
//! padding. [`reason_of`] is the reason that its number names.
#![tactic(auto)]

mod append;
mod bytes;
mod command;
mod fact;
mod item;
pub mod laws;
mod number;
mod pec;
mod record;
mod refusal;

pub use append::append_item;
pub use item::{
    Item, ItemCommand, ItemHead, ItemLeg, ItemNumber, ItemPart, ItemPec, ItemRefusal, ItemText,
    NONE, UNKNOWN,
};
pub use record::RECORD;
pub use refusal::reason_of;
