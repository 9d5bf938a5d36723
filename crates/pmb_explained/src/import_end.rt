//! The last line of `import` on standard error, where the capture lacks something.
//!
//! Its rows: `tests/rows/recordings.txt`, `tests/rows/explanations.txt`.

use crate::reports::{Counted, Reports};
use arrayvec::ArrayString;
use std::fmt::Write;

/// The line that sums up what `import` wrote: `pmb: import: 77 lines make no sense, first line 1; 2 packets`.
pub(crate) fn import_end(reports: &Reports) -> ArrayString<256> {
    let mut line = ArrayString::new();
    let _ = line.try_push_str("pmb: import: ");
    append_counted(
        reports.senseless,
        "line makes no sense",
        "lines make no sense",
        &mut line,
    );
    append_counted(reports.others, "other fault", "other faults", &mut line);
    let packets = reports.packets;
    match packets {
        0 => {
            let _ = line.try_push_str("no packets\n");
        }
        1 => {
            let _ = line.try_push_str("1 packet\n");
        }
        _ => {
            let _ = write!(line, "{packets} packets\n");
        }
    }
    line
}

/// Adds how many lines there are of a sort, and the first, if there are some.
fn append_counted(counted: Counted, one: &str, many: &str, line: &mut ArrayString<256>) {
    let count = counted.count;
    if count == 0 {
        return;
    }
    let words = if count == 1 { one } else { many };
    let _ = write!(line, "{count} {words}");
    if let Some(first) = counted.first {
        let _ = if count == 1 {
            write!(line, ", line {first}")
        } else {
            write!(line, ", first line {first}")
        };
    }
    let _ = line.try_push_str("; ");
}
