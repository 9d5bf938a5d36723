//! The lines of an output, as they come in pieces.

use crate::reports::Reports;
use arrayvec::ArrayVec;

/// How many bytes of a line are kept: as many as a line has that reports a fault.
const MOST: usize = 160;

/// What the lines of an output report, and the line under way.
#[derive(Drop)]
pub(crate) struct Watch {
    /// The front of the line under way.
    line: ArrayVec<u8, 160>,
    pub(crate) reports: Reports,
}

impl Watch {
    pub(crate) fn new() -> Watch {
        Watch {
            line: ArrayVec::new(),
            reports: Reports::new(),
        }
    }

    /// Takes a piece of the output.
    pub(crate) fn take(&mut self, bytes: &[u8]) {
        for piece in bytes.split_inclusive(|byte| *byte == b'\n') {
            match piece.strip_suffix(b"\n") {
                Some(line) => self.end_line(line),
                None => self.push(piece),
            }
        }
    }

    /// Takes the line under way, which ends with these bytes.
    fn end_line(&mut self, bytes: &[u8]) {
        if self.line.is_empty() {
            self.reports.take(bytes);
            return;
        }
        self.push(bytes);
        self.reports.take(self.line.as_slice());
        self.line.clear();
    }

    /// Has the line under way go on, as far as it is kept.
    fn push(&mut self, bytes: &[u8]) {
        let room = MOST.saturating_sub(self.line.len());
        let _ = self
            .line
            .try_extend_from_slice(&bytes[..room.min(bytes.len())]);
    }
}
