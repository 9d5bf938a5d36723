//! The tasks as Rattle code calls them: each function once on its happy path, with values by hand,
//! and what neither the program nor the library for C can show. The rows of `tests/rows` try the
//! rest.
#![tactic(auto)]

#[cfg(test)]
mod capture_reader;
#[cfg(test)]
mod captures;
#[cfg(test)]
mod drafts;
#[cfg(test)]
mod items;
#[cfg(test)]
mod lines;
#[cfg(test)]
mod memory;
#[cfg(test)]
mod numbers;
#[cfg(test)]
mod profiles;
#[cfg(test)]
mod program;
#[cfg(test)]
mod sizes;
#[cfg(test)]
mod stats;
#[cfg(test)]
mod whole;
