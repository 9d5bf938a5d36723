//! Tests of the bytes of one leg, over the public names of `pmb_leg`: tables of bytes, how many of
//! them are taken, and what they say, told by hand.

mod answers;
mod example;
mod words;
mod written;
