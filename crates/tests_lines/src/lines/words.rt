//! Words of a line, from an offset on; a transaction that is kept; the least line.

use crate::compare::{ensure, same};
use arrayvec::ArrayVec;
use pmb_line::{LineFault, LineReader, append_line, line_of, read_words, word_at};
use pmb_table::{Profile, SAMPLE};
use pmb_transaction::Transaction;
use std::test::Fail;

/// A line, an offset, and the word that begins there or after it.
type Row = (&'static str, usize, Option<(usize, usize)>);

/// The rows of the table. A call keeps the proof of a loop over them from carrying the table.
fn rows() -> &'static [Row] {
    &ROWS
}

static ROWS: [Row; 14] = [
    ("write 58 03", 0, Some((0, 5))),
    ("write 58 03", 1, Some((6, 8))),
    ("write 58 03", 5, Some((6, 8))),
    ("write 58 03", 6, Some((6, 8))),
    ("write 58 03", 7, Some((9, 11))),
    ("write 58 03", 10, None),
    ("write 58 03", 99, None),
    (" \t58", 0, Some((2, 4))),
    ("58 # 03", 1, None),
    ("58#03", 0, Some((0, 2))),
    ("58\r", 0, Some((0, 2))),
    ("58 \r\r", 2, Some((3, 4))),
    ("\r", 0, None),
    ("", 0, None),
];

#[test]
fn words_from_an_offset(rt: HostRuntime) {
    for row in rows() {
        same(&rt, row.0, word_at(row.0.as_bytes(), row.1), row.2);
    }
}

// A transaction that is kept is written over, by one of its kind and by one of another.
#[test]
fn a_kept_transaction(rt: HostRuntime) -> Result<(), Fail> {
    let mut kept = Transaction::NoAlert;
    let lines = [
        "write 58 21 00 18 pec + 59 03",
        "write 5a 03 pec",
        "write 58 9a + 59 9a 01 02 + 5a 03 04 pec",
        "write 58 03",
        "read 58 88 : 00 d3",
        "read 58 99 :",
        "call 58 06 01 : 02 pec",
        "refused 58 03 + 59 21 00",
        "refused 59 88 read",
        "alert b0",
        "alert none",
        "write 58 03",
    ];
    for line in lines {
        same(&rt, line, read_words(line.as_bytes(), &mut kept), Ok(()));
        let mut text = ArrayVec::<u8, 12600>::new();
        append_line(&kept, &mut text);
        same(&rt, line, text.as_slice(), line.as_bytes());
    }
    Ok(())
}

// A reader answers each line by itself, whatever the one before was.
#[test]
fn a_line_reader(rt: HostRuntime) -> Result<(), Fail> {
    let profile = Profile::from_toml(rt.alloc(), SAMPLE.as_bytes())?;
    let mut reader = LineReader::new();
    let lines = [
        "write 58 21 00 18 pec + 59 03",
        "read 58 88 : 00 d3",
        "write 5a 03 pec",
        "call 58 1b 7a : 10",
        "refused 58 03 + 59 21 00",
        "alert b0",
        "refused 59 88 read",
        "alert none",
    ];
    for line in lines {
        let transaction = reader.read(&profile, line.as_bytes());
        ensure(&rt, line, transaction.is_ok());
        if let Ok(transaction) = transaction {
            same(&rt, line, line_of(transaction).as_str(), line);
        }
        let short = reader.read(&profile, b"write 58 2");
        ensure(&rt, line, short.is_err());
        if let Err(fault) = short {
            same(&rt, line, fault, LineFault::BadWord(9));
        }
    }
    Ok(())
}
