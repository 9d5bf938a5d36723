//! Whether faults are explained.

/// Whether faults are explained on standard error: where that is a terminal, or where it is asked for.
#[derive(Clone, Copy, PartialEq, Eq)]
pub enum Explaining {
    On,
    Off,
}
