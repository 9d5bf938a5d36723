//! What the lines of the program's output report: the first fault of each name, and how many there are; and
//! what `import` says of a recording.
//!
//! Its rows: `tests/rows/explanations.txt`.

use crate::report::{Report, number_of, report_of, word_of_log};
use arrayvec::ArrayVec;

/// The first fault of a name, the line of the output that reports it, and how many have the name.
#[derive(Clone, Copy, Default)]
pub(crate) struct FirstReport {
    pub(crate) report: Report,
    /// The number of the line of the output, from 1.
    pub(crate) line: u64,
    pub(crate) count: u64,
}

/// Lines of a sort that `import` writes: how many, and the line of the recording that the first names.
#[derive(Clone, Copy)]
pub(crate) struct Counted {
    pub(crate) count: u64,
    pub(crate) first: Option<u64>,
}

impl Counted {
    fn new() -> Counted {
        Counted {
            count: 0,
            first: None,
        }
    }

    fn add(&mut self, line: Option<u64>) {
        self.count = self.count.saturating_add(1);
        if self.first.is_none() {
            self.first = line;
        }
    }
}

/// What the lines of an output report.
#[derive(Drop)]
pub(crate) struct Reports {
    firsts: ArrayVec<FirstReport, 16>,
    /// How many lines came.
    lines: u64,
    /// How many begin with S: packets.
    pub(crate) packets: u64,
    /// `# line N: makes no sense`
    pub(crate) senseless: Counted,
    /// Other lines `# line N: ..`
    pub(crate) others: Counted,
}

impl Reports {
    /// No line came.
    pub(crate) fn new() -> Reports {
        Reports {
            firsts: ArrayVec::new(),
            lines: 0,
            packets: 0,
            senseless: Counted::new(),
            others: Counted::new(),
        }
    }

    /// The first fault of each name, in their order.
    pub(crate) fn firsts(&self) -> &[FirstReport] {
        self.firsts.as_slice()
    }

    /// Takes a line, without its LF.
    pub(crate) fn take(&mut self, line: &[u8]) {
        self.lines = self.lines.saturating_add(1);
        match line {
            [b'S', ..] => self.packets = self.packets.saturating_add(1),
            [b'#' | b'!' | b'p', ..] => self.take_report(line),
            [b' ' | b'0'..=b'9', ..] => {
                if let Some(report) = word_of_log(line) {
                    self.count(report);
                }
            }
            _ => {}
        }
    }

    /// Takes a line that may report a fault.
    fn take_report(&mut self, line: &[u8]) {
        match report_of(line) {
            Some(report) => self.count(report),
            None => self.take_import(line),
        }
    }

    /// Counts a fault.
    fn count(&mut self, report: Report) {
        for first in self.firsts.as_mut_slice() {
            if first.report.name.as_str() == report.name.as_str() {
                first.count = first.count.saturating_add(1);
                return;
            }
        }
        let _ = self.firsts.try_push(FirstReport {
            report,
            line: self.lines,
            count: 1,
        });
    }

    /// Takes a line that `import` may have written.
    fn take_import(&mut self, line: &[u8]) {
        let Ok(text) = std::str::from_utf8(line) else {
            return;
        };
        let Some(rest) = text.strip_prefix("# line ") else {
            return;
        };
        let Some((number, what)) = rest.split_once(": ") else {
            return;
        };
        let number = number_of(number);
        if what == "makes no sense" {
            self.senseless.add(number);
        } else if !what.starts_with("a transfer failed") {
            self.others.add(number);
        }
    }
}
