//! Tests of the lines of `pmb log`, over the public names of `pmb_log_lines`: a row for each kind of fact
//! and each reason, told by hand.

mod doc;
mod own;
mod packets;
mod refusals;
mod words;
