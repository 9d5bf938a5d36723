//! Simulated devices by the rules in words, for tests to compare with.
//!
//! A [`PlainDevice`] keeps each signal since the last STOP, in legs, and finds the bodies that a leg may
//! have by trying them at each byte. It keeps the value of a register for each page, one by one. It is
//! slow, and short enough to be believed.

mod device;
mod legs;
mod profiles;
mod registers;

pub(crate) use device::{PlainDevice, PlainWrite};
pub(crate) use profiles::{EVERY_KIND, OTHERS, PROTECTED, many_devices};
