//! Tests of transaction lines, over the public names of `pmb_line`: tables of lines, each with the
//! line that is written for what it spells, or its first fault, told by hand.

mod laws;
mod long;
mod rows;
mod says;
mod words;
