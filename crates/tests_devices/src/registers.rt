//! Tests of a device's registers, over the public names of `pmb_registers`: what they begin with,
//! what writes, refusals and transactions make of them, and what is answered from them, by hand.

mod answers;
mod applied;
mod example;
mod held;
mod written;
