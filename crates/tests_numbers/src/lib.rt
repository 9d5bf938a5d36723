//! Tests of number formats and quantities (`pmb_value` and below), and of the nearest decimals
//! (`pmb_decimal`): rows from data sheets and worked examples, and comparisons with slow definitions.
#![tactic(auto)]

#[cfg(test)]
mod compare;
#[cfg(test)]
mod decimals;
#[cfg(test)]
mod formats;
#[cfg(test)]
mod means;
