//! Tests over the public names of `pmb_bus`. Of capture text, both ways: tables of rows, each row
//! with a name, its text and the events that it spells, all told by hand. Of packet error codes:
//! known vectors and the plain computation. Of the set of event kinds, and of the bytes of addresses.

mod addresses;
mod cuts;
mod doc;
mod event_text;
mod kinds;
mod packet_error_codes;
mod rows;
mod steps;
mod tokens;
