//! A transaction of each kind, to read lines into.
//!
//! Its rows: `tests_lines`, `src/lines/rows.rt`, `long.rt` and `words.rt`.

ghost use Rattle.std.specs.Prelude.{IfOk, IfErr};
ghost use Rattle.pmb_transaction.specs.Transaction.{transaction_data};
ghost use Rattle.pmb_line.specs.LineFault.{IsLineFault, Parses};

use crate::line_fault::LineFault;
use crate::whole_line::read_line;
use crate::words::blanks;
use pmb_table::Profile;
use pmb_transaction::Transaction;
use pmb_transaction_slot::TransactionKind;

/// Reads lines of all kinds into transactions that it keeps, one of each kind: a line copies and
/// clears no more than it holds, whatever the kind of the line before.
#[derive(Drop)]
pub struct LineReader {
    write: Transaction,
    read: Transaction,
    call: Transaction,
    refused: Transaction,
    alert: Transaction,
    no_alert: Transaction,
}

impl LineReader {
    /// A reader that has read no line.
    pub fn new() -> LineReader {
        LineReader {
            write: Transaction::NoAlert,
            read: Transaction::NoAlert,
            call: Transaction::NoAlert,
            refused: Transaction::NoAlert,
            alert: Transaction::NoAlert,
            no_alert: Transaction::NoAlert,
        }
    }

    /// The transaction that a line spells, as [`parse_line`](crate::parse_line) answers it.
    ///
    /// # Errors
    ///
    /// The line's first fault.
    pub fn read(&mut self, profile: &Profile, line: &[u8]) -> Result<&Transaction, LineFault>
        ensures ok { IfOk result (λ t. Parses profile.now line.now (transaction_data t.now)) }
        ensures err { IfErr result (IsLineFault profile.now line.now) }
    {
        let slot = match likely_kind(line) {
            TransactionKind::Write => &mut self.write,
            TransactionKind::Read => &mut self.read,
            TransactionKind::Call => &mut self.call,
            TransactionKind::Refused => &mut self.refused,
            TransactionKind::Alert => &mut self.alert,
            TransactionKind::NoAlert => &mut self.no_alert,
        };
        match read_line(profile, line, slot) {
            Ok(()) => Ok(slot),
            Err(fault) => Err(fault),
        }
    }
}

/// The kind whose transaction a line is read into: that of its keyword, as far as the first letters
/// tell. Any would do, since a line is read into each alike. One that begins with no keyword is read
/// into none.
#[inline]
fn likely_kind(line: &[u8]) -> TransactionKind {
    match &line[blanks(line)..] {
        [b'w', ..] => TransactionKind::Write,
        [b'r', b'e', b'a', ..] => TransactionKind::Read,
        [b'r', b'e', b'f', ..] => TransactionKind::Refused,
        [b'c', ..] => TransactionKind::Call,
        [b'a', b'l', b'e', b'r', b't', b' ', b'n', ..] => TransactionKind::NoAlert,
        [b'a', ..] => TransactionKind::Alert,
        _ => TransactionKind::NoAlert,
    }
}
