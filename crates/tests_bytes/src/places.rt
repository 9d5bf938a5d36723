//! Tests of `pmb_places`.

mod example;
mod lines;
mod open_words;
mod rows;
