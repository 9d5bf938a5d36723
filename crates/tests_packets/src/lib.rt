//! Tests of packets by hand: transactions (`pmb_transaction`), their checks and their text
//! (`pmb_writer`), the bytes of a leg (`pmb_leg`), and unfinished packets (`pmb_partial_packet`).
#![tactic(auto)]

#[cfg(test)]
mod compare;
#[cfg(test)]
mod legs;
#[cfg(test)]
mod said;
#[cfg(test)]
mod transactions;
#[cfg(test)]
mod writer;
