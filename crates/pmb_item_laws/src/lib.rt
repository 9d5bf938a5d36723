//! Laws on items: what an item has in common with the object of the same fact.
//!
//! `pmb_items` has an item of each fact, as plain numbers, and `pmb_facts` its object, a line of JSON. By
//! these laws both begin alike, are of one kind and have the same bytes, the item is about the command that
//! the fact is about, and a number of a reason is that of one reason alone. See [`laws`]. Nothing runs here.
#![tactic(auto)]

pub mod laws;
