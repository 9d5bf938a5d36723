//! Tests of notes, over the public names of `pmb_note`: tables of lines, each with the note of what
//! it spells, told by hand.

mod contexts;
mod long;
mod registers;
mod rows;
mod says;
