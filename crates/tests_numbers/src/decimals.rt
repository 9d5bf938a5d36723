//! Rows of quantities and their nearest decimals, and a comparison with a slow definition.
//!
//! Each subject is one loop over a table; a row that fails prints its name.

mod compared;
mod example;
mod rows;
