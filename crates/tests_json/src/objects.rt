//! Tests of JSON lines, over the public names of `pmb_json_text`: each byte in a string, each kind of
//! member, and whole objects, told by hand.

mod doc;
mod laws;
mod numbers;
mod objects;
mod strings;
