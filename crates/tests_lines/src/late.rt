//! Tests of what is known where a capture begins in the middle, over the public names of
//! `pmb_unknown_start`: a table of lines, each row with what is known after them, told by hand.

mod also;
mod drops;
mod phases;
mod restores;
mod starts;
