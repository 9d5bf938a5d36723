//! Tests of packets and viability: the plain decision of `plain_packets` against transactions,
//! packets and refusals that were written by hand, under the sample profile and others.

mod laws;
mod no_packet_rows;
mod packet_rows;
mod refusal_rows;
mod said;
