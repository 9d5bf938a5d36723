//! Tests of lines: of transactions (`pmb_line`), of requests (`pmb_request`), their notes (`pmb_note`),
//! what is known where a capture begins in the middle (`pmb_unknown_start`), and each name of `pmb_packet`.
#![tactic(auto)]

#[cfg(test)]
mod compare;
#[cfg(test)]
mod late;
#[cfg(test)]
mod lines;
#[cfg(test)]
mod names;
#[cfg(test)]
mod notes;
#[cfg(test)]
mod requests;
