//! Tests of request lines, over the public names of `pmb_request`: tables of lines, each with the
//! request that it spells, or its first fault, told by hand.

mod long;
mod modes;
mod program;
mod rows;
mod says;
