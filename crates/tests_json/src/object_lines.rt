//! Tests of the objects of a capture, over the public names of `pmb_json_objects`: each object's line,
//! told by hand.

mod commands;
mod counts;
mod facts;
mod packets;
mod refusals;
pub(crate) mod seen;
mod words;
