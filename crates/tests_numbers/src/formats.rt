//! Rows from data sheets and worked examples, against the number formats and the texts of
//! quantities.
//!
//! Each subject is one loop over a table; a row that fails prints its name.

mod checks;
mod compared;
mod direct;
mod example;
mod half;
mod linear11;
mod linear11_fixed;
mod linear16;
mod plain;
mod quantity;
mod steps;
mod vid;
mod vout;
