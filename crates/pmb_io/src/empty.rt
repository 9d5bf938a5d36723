//! A source without bytes.

use crate::fault::IoFault;
use crate::source::Source;

/// A source that has ended, and never fails.
#[derive(Clone, Copy, Debug, PartialEq, Eq)]
pub struct Empty;

impl Source for Empty {
    ghost use Rattle.std.specs.Prelude.{Some, [], true};

    ghost told = { λ _. record { left = Some []; given = 0; reads = 0; failures = 0; ended = true } };

    fn read(&mut self, _buffer: &mut [u8]) -> Result<usize, IoFault> {
        Ok(0)
    }
}
