//! Laws of the texts of `stats`.
//!
//! [`put_objects`](pmb_stats_objects::put_objects) and [`put_table`](pmb_stats_table::put_table) put out the text of
//! any facts at which statistics stand. It is one text, whichever they are: see [`laws`]. Nothing runs here.
#![tactic(auto)]

pub mod laws;
