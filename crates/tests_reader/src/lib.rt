//! Tests of captures read: by the reader, by whole packets, by the engine of what reads a capture, beside
//! a plain reader, and counted.
#![tactic(auto)]

#[cfg(test)]
mod canonical;
#[cfg(test)]
mod compare;
#[cfg(test)]
mod counts;
#[cfg(test)]
mod plain;
#[cfg(test)]
mod reader;
#[cfg(test)]
mod scan;
