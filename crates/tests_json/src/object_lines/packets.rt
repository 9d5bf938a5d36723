//! The objects of packets.

use crate::compare::same;
use crate::object_lines::seen::{NAMED, head, seen};
use arrayvec::ArrayVec;
use pmb_json_objects::{
    Head, OBJECT, Seen, alert_line, call_line, no_alert_line, other_line, read_line, refused_line,
    write_line,
};
use pmb_line::parse_line;
use pmb_places::Place;
use pmb_table::{Profile, SAMPLE};
use pmb_transaction::Transaction;
use pmb_unknown_start::{Late, Start};
use std::test::Fail;

/// A line of a transaction, where its first event stands, and the line of its object, or of its
/// last part.
pub(crate) type Row = (&'static str, u64, Place, &'static str);

/// The rows of the table. A call keeps the proof of a loop over them from carrying the table.
pub(crate) fn rows() -> &'static [Row] {
    &ROWS
}

#[rattlefmt::skip]
static ROWS: [Row; 9] = [
    ("write 58 21 00 18 pec", 0, Place {line: 1, column: 1}, "{\"at\":0,\"line\":1,\"column\":1,\"kind\":\"write\",\"device\":\"58\",\"code\":\"21\",\"command\":\"VOUT_COMMAND\",\"page\":0,\"page_mode\":\"assumed\",\"bytes\":\"0018\",\"pec\":true,\"value\":\"12\",\"number\":12,\"mode\":\"assumed\",\"unit\":\"V\"}\n"),
    ("read 58 79 : 40 88", 12, Place {line: 2, column: 1}, "{\"at\":12,\"line\":2,\"column\":1,\"kind\":\"read\",\"device\":\"58\",\"code\":\"79\",\"command\":\"STATUS_WORD\",\"page\":0,\"page_mode\":\"assumed\",\"bytes\":\"4088\",\"pec\":false,\"bits\":[\"VOUT\",\"POWER_GOOD_N\",\"OFF\"]}\n"),
    ("write 58 03 + 59 03", 30, Place {line: 3, column: 13}, "{\"at\":30,\"line\":3,\"column\":13,\"kind\":\"write\",\"part\":2,\"parts\":2,\"device\":\"59\",\"code\":\"03\",\"command\":\"CLEAR_FAULTS\",\"bytes\":\"\",\"pec\":false}\n"),
    ("call 58 1b 7a : 10", 7, Place {line: 4, column: 2}, "{\"at\":7,\"line\":4,\"column\":2,\"kind\":\"call\",\"device\":\"58\",\"code\":\"1b\",\"command\":\"SMBALERT_MASK\",\"sent\":\"7a\",\"reply\":\"10\",\"pec\":false,\"says\":{\"register\":\"7a\",\"mask\":[\"VOUT_UV_FAULT\"]}}\n"),
    ("refused 58 03 47", 36, Place {line: 4, column: 1}, "{\"at\":36,\"line\":4,\"column\":1,\"kind\":\"refused\",\"device\":\"58\",\"refused\":\"byte\",\"code\":\"03\",\"command\":\"CLEAR_FAULTS\",\"sent\":\"0347\",\"pec\":\"wrong\",\"right_pec\":\"46\"}\n"),
    ("refused 59 03 + 20", 36, Place {line: 4, column: 1}, "{\"at\":36,\"line\":4,\"column\":1,\"kind\":\"refused\",\"part\":2,\"parts\":2,\"device\":\"20\",\"refused\":\"address\",\"sent\":\"\"}\n"),
    ("refused 58 88 read", 36, Place {line: 4, column: 1}, "{\"at\":36,\"line\":4,\"column\":1,\"kind\":\"refused\",\"device\":\"58\",\"refused\":\"read address\",\"code\":\"88\",\"command\":\"READ_VIN\",\"page\":0,\"page_mode\":\"assumed\",\"sent\":\"88\"}\n"),
    ("alert b0", 44, Place {line: 5, column: 1}, "{\"at\":44,\"line\":5,\"column\":1,\"kind\":\"alert\",\"device\":\"58\",\"byte\":\"b0\",\"pec\":false}\n"),
    ("alert none", 44, Place {line: 5, column: 1}, "{\"at\":44,\"line\":5,\"column\":1,\"kind\":\"alert\",\"device\":null}\n"),
];

/// A line of a transaction, the time of its packet, a line of what came before, and the line of its object.
type TimedRow = (
    &'static str,
    Option<&'static str>,
    &'static str,
    &'static str,
);

/// The rows of the second table, under a profile with names.
fn timed_rows() -> &'static [TimedRow] {
    &TIMED_ROWS
}

#[rattlefmt::skip]
static TIMED_ROWS: [TimedRow; 12] = [
    ("write 58 21 00 18 pec", Some("0.25"), "write 58 03", "{\"at\":3,\"line\":4,\"column\":5,\"time\":\"0.25\",\"kind\":\"write\",\"device\":\"58\",\"name\":\"VDD_CORE\",\"code\":\"21\",\"command\":\"VOUT_COMMAND\",\"page\":0,\"page_mode\":\"assumed\",\"bytes\":\"0018\",\"pec\":true,\"value\":\"12\",\"number\":12,\"mode\":\"assumed\",\"unit\":\"V\"}\n"),
    ("write 58 21 00 18", None, "write 58 00 01", "{\"at\":3,\"line\":4,\"column\":5,\"kind\":\"write\",\"device\":\"58\",\"name\":\"VDD_CORE\",\"code\":\"21\",\"command\":\"VOUT_COMMAND\",\"page\":1,\"bytes\":\"0018\",\"pec\":false,\"value\":\"1.5\",\"number\":1.5,\"mode\":\"assumed\",\"unit\":\"V\"}\n"),
    ("read 59 8b : 00 18", Some("1"), "write 59 20 14", "{\"at\":3,\"line\":4,\"column\":5,\"time\":\"1\",\"kind\":\"read\",\"device\":\"59\",\"name\":\"\\u00223V3\\u0022 \\u005c ~\",\"code\":\"8b\",\"command\":\"READ_VOUT\",\"page\":0,\"bytes\":\"0018\",\"pec\":false,\"value\":\"1.5\",\"number\":1.5,\"unit\":\"V\"}\n"),
    ("read 59 8b : 00 18", Some("1"), "write 59 12", "{\"at\":3,\"line\":4,\"column\":5,\"time\":\"1\",\"kind\":\"read\",\"device\":\"59\",\"name\":\"\\u00223V3\\u0022 \\u005c ~\",\"code\":\"8b\",\"command\":\"READ_VOUT\",\"page\":0,\"bytes\":\"0018\",\"pec\":false,\"value\":\"12\",\"number\":12,\"mode\":\"assumed\",\"unit\":\"V\"}\n"),
    ("read 5a 88 : 00 d3", Some("2024-05-01T12:30:00.125+02:00"), "write 59 03", "{\"at\":3,\"line\":4,\"column\":5,\"time\":\"2024-05-01T12:30:00.125+02:00\",\"kind\":\"read\",\"device\":\"5a\",\"code\":\"88\",\"command\":\"READ_VIN\",\"page\":0,\"bytes\":\"00d3\",\"pec\":false,\"value\":\"12\",\"number\":12,\"unit\":\"V\"}\n"),
    ("write 5a 03 + 58 03", Some("0000000000.00000000000000000000000000001"), "write 59 03", "{\"at\":3,\"line\":4,\"column\":5,\"time\":\"0000000000.00000000000000000000000000001\",\"kind\":\"write\",\"part\":2,\"parts\":2,\"device\":\"58\",\"name\":\"VDD_CORE\",\"code\":\"03\",\"command\":\"CLEAR_FAULTS\",\"bytes\":\"\",\"pec\":false}\n"),
    ("call 58 1b 7a : 10", Some(".5"), "write 59 03", "{\"at\":3,\"line\":4,\"column\":5,\"time\":\".5\",\"kind\":\"call\",\"device\":\"58\",\"name\":\"VDD_CORE\",\"code\":\"1b\",\"command\":\"SMBALERT_MASK\",\"sent\":\"7a\",\"reply\":\"10\",\"pec\":false,\"says\":{\"register\":\"7a\",\"mask\":[\"VOUT_UV_FAULT\"]}}\n"),
    ("refused 58 03 47", Some("7."), "write 59 03", "{\"at\":3,\"line\":4,\"column\":5,\"time\":\"7.\",\"kind\":\"refused\",\"device\":\"58\",\"name\":\"VDD_CORE\",\"refused\":\"byte\",\"code\":\"03\",\"command\":\"CLEAR_FAULTS\",\"sent\":\"0347\",\"pec\":\"wrong\",\"right_pec\":\"46\"}\n"),
    ("refused 59 03 + 20", Some("7"), "write 59 03", "{\"at\":3,\"line\":4,\"column\":5,\"time\":\"7\",\"kind\":\"refused\",\"part\":2,\"parts\":2,\"device\":\"20\",\"refused\":\"address\",\"sent\":\"\"}\n"),
    ("alert b2", Some("8"), "write 59 03", "{\"at\":3,\"line\":4,\"column\":5,\"time\":\"8\",\"kind\":\"alert\",\"device\":\"59\",\"name\":\"\\u00223V3\\u0022 \\u005c ~\",\"byte\":\"b2\",\"pec\":false}\n"),
    ("alert b4", None, "write 59 03", "{\"at\":3,\"line\":4,\"column\":5,\"kind\":\"alert\",\"device\":\"5a\",\"byte\":\"b4\",\"pec\":false}\n"),
    ("alert none", Some("8"), "write 59 03", "{\"at\":3,\"line\":4,\"column\":5,\"time\":\"8\",\"kind\":\"alert\",\"device\":null}\n"),
];

/// The line of a transaction: of a group that of its last part, or of the leg that was refused.
pub(crate) fn told(
    seen: &Seen<'_>,
    head: Head<'_>,
    transaction: &Transaction,
) -> ArrayVec<u8, OBJECT> {
    let mut out = ArrayVec::new();
    match transaction {
        Transaction::Write { parts } => {
            let count = parts.len() as u64;
            if let Some(part) = parts.as_slice().last() {
                write_line(&mut out, seen, head, count, count, part);
            }
        }
        Transaction::Read {
            addr,
            code,
            reply,
            pec,
        } => read_line(&mut out, seen, head, *addr, *code, reply.as_slice(), *pec),
        Transaction::Call {
            addr,
            code,
            bytes,
            reply,
            pec,
        } => call_line(
            &mut out,
            seen,
            head,
            *addr,
            *code,
            bytes.as_slice(),
            reply.as_slice(),
            *pec,
        ),
        Transaction::Alert { byte, pec } => {
            alert_line(&mut out, seen.profile, head, *byte, *pec)
        },
        Transaction::NoAlert => no_alert_line(&mut out, head),
        Transaction::Refused {
            parts,
            addr,
            sent,
            at_read,
        } => refused_line(
            &mut out,
            seen,
            head,
            parts.len() as u64 + 1,
            *addr,
            sent.as_slice(),
            *at_read,
        ),
    }
    out
}

#[test]
fn each_is_told(rt: HostRuntime) -> Result<(), Fail> {
    let profile = Profile::from_toml(rt.alloc(), SAMPLE.as_bytes())?;
    let late = Late::new(&profile, Start::AllKnown);
    let seen = seen(&profile, &late);
    for (line, at, place, object) in rows() {
        let transaction = parse_line(&profile, line.as_bytes())?;
        let out = told(&seen, head(*at, *place, None), &transaction);
        same(&rt, line, out.as_slice(), object.as_bytes());
    }
    Ok(())
}

#[test]
fn each_is_told_with_its_time_and_name(rt: HostRuntime) -> Result<(), Fail> {
    let profile = Profile::from_toml(rt.alloc(), NAMED.as_bytes())?;
    let place = Place { line: 4, column: 5 };
    for &(line, time, before, object) in timed_rows() {
        let mut late = Late::new(&profile, Start::AllKnown);
        late.observe(&parse_line(&profile, before.as_bytes())?);
        let seen = seen(&profile, &late);
        let transaction = parse_line(&profile, line.as_bytes())?;
        let out = told(&seen, head(3, place, time), &transaction);
        same(&rt, (line, before), out.as_slice(), object.as_bytes());
    }
    Ok(())
}

// The address alone, with a time and without.
#[test]
fn an_other_is_told(rt: HostRuntime) {
    let place = Place { line: 4, column: 5 };
    let mut out = ArrayVec::<u8, OBJECT>::new();
    other_line(&mut out, head(1, place, Some("0.25")), 0x50);
    let line =
        b"{\"at\":1,\"line\":4,\"column\":5,\"time\":\"0.25\",\"kind\":\"other\",\"device\":\"50\"}\n";
    same(&rt, "with a time", out.as_slice(), &line[..]);
    out.clear();
    other_line(&mut out, head(1, place, None), 0x0c);
    let line = b"{\"at\":1,\"line\":4,\"column\":5,\"kind\":\"other\",\"device\":\"0c\"}\n";
    same(&rt, "without one", out.as_slice(), &line[..]);
}
