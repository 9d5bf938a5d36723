//! What a scan tells its visitor of captures, worked out by hand, however they are cut.

mod example;
mod kinds;
mod log;
mod scans;
