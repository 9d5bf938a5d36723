//! What is done with a whole input.
//!
//! Its rows: `tests_tasks`, `src/whole.rt`.

/// What is done with a whole input, as the subcommand of that name does it.
#[derive(Clone, Copy, Debug, PartialEq, Eq)]
pub enum MemoryTask {
    /// Lines for the packets and the refusals of a capture.
    Show,
    /// Lines for the refusals of a capture, and the numbers of packets and refusals.
    Check,
    /// The packets of transaction lines.
    Build,
    /// Requests, run against simulated devices.
    Run,
}
