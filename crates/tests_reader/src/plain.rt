//! Tests of `pmb_reader`: captures of every sort, whole, damaged and short ones in every order,
//! against a reader that decides each event anew by the rules in words.

mod compared;
mod damaged;
mod every_order;
mod fronts;
mod plain;
