//! Tests of the host, over the public names of `pmb_host`: tables of requests and answers, each with the
//! signals that are sent and the end, told by hand.

mod answers;
mod ends;
mod faults;
mod longest;
mod plain;
mod random;
mod requests;
