//! Captures under the sample profile, with what a scan tells of them.

use crate::compare::same;
use crate::scan::log::Log;
use pmb_bus::LexFault;
use pmb_io::{Io, Waiting};
use pmb_scan::{PieceEnd, Scan};
use pmb_table::{Profile, SAMPLE};
use std::alloc::Global;
use std::process::Abort;
use std::test::Fail;

/// A capture, and what is told of it.
struct Row {
    capture: &'static [u8],
    /// The events, as a `Log` has them.
    events: &'static [u8],
    /// The places of the refusals.
    places: &'static [u64],
    /// How many bytes are used.
    used: usize,
    /// Where a word begins that is no token.
    bad: Option<u64>,
    /// The place of an end inside a packet.
    end: Option<u64>,
}

#[rattlefmt::skip]
static ROWS: [Row; 10] = [
    // two packets, the last word at the end of the text
    Row { capture: b"S b0 A 03 A P # a comment\nS 40 N P", events: b"S b0 A 03 A packet S 40 N packet ", places: &[], used: 34, bad: None, end: None },
    // comments and separators before a packet, and after it
    Row { capture: b"# 1\n\t#2\r\nS b0 A 03 A P\n\r\n# 3", events: b"S b0 A 03 A packet ", places: &[], used: 28, bad: None, end: None },
    // a comment before a word that is no token
    Row { capture: b" # S\nS4 A P\n", events: b"", places: &[], used: 6, bad: Some(5), end: None },
    // the byte of a byte and its ACK is refused
    Row { capture: b"S b1 A 21 A P S b0 A 03 A P ", events: b"S !b1 A 21 A P\nS b0 A 03 A packet ", places: &[1], used: 28, bad: None, end: None },
    // the ACK is: the error code of a write of nothing is wrong
    Row { capture: b"S b0 A 03 A 47 A P ", events: b"S b0 A 03 A 47 !A P\n", places: &[6], used: 19, bad: None, end: None },
    // a STOP is refused, and is the first that is passed over
    Row { capture: b"S P\nS b0 A 03 A P\n", events: b"S !P\nS b0 A 03 A packet ", places: &[1], used: 18, bad: None, end: None },
    // it ends inside a packet, whose last word ends with the text
    Row { capture: b"S b0 A 03", events: b"S b0 A 03 ", places: &[], used: 9, bad: None, end: Some(4) },
    // a word whose first byte begins no token
    Row { capture: b"S b0 A oops P\n", events: b"S b0 A ", places: &[], used: 7, bad: Some(7), end: Some(3) },
    // one that continues where a token can't
    Row { capture: b"S b0 A 03 A P\nS b0 A 0x ", events: b"S b0 A 03 A packet S b0 A ", places: &[], used: 22, bad: Some(21), end: Some(9) },
    // one that ends where a token can't
    Row { capture: b"S b0 A 3", events: b"S b0 A ", places: &[], used: 8, bad: Some(7), end: Some(3) },
];

/// What a scan comes to that takes a row's capture in two pieces.
fn check_row(
    rt: &impl Abort,
    alloc: Global,
    profile: &Profile,
    row: &Row,
    front: &[u8],
    back: &[u8],
) -> Result<(), Fail> {
    let cut = front.len();
    let mut scan = Scan::new(profile);
    let mut log = Log::default();
    let mut waiting = Waiting::new();
    let mut writer = Io::new(Vec::new(alloc));
    let mut used: usize = 0;
    let mut bad = None;
    for piece in [front, back] {
        if bad.is_some() {
            continue;
        }
        match scan.take_words(piece, &mut log, &mut waiting, &mut writer)? {
            PieceEnd::All => used = used.saturating_add(piece.len()),
            PieceEnd::Fault { used: more, fault } => {
                used = used.saturating_add(more);
                bad = Some(fault);
            }
        }
    }
    if bad.is_none() {
        bad = scan.take_end(&mut log, &mut waiting, &mut writer)?;
    }
    let at = bad.map(|fault| {
        let LexFault::BadToken { at } = fault;
        at
    });
    let end = scan.truncation().map(|refusal| refusal.at);
    same(rt, ("cut at", cut), log.events.as_slice(), row.events);
    same(rt, ("cut at", cut), log.places.as_slice(), row.places);
    same(
        rt,
        ("cut at", cut),
        (used, at, end),
        (row.used, row.bad, row.end),
    );
    same(
        rt,
        ("cut at", cut),
        Some(log.bytes.as_slice()),
        row.capture.get(..row.used),
    );
    Ok(())
}

/// Each row whole, and cut at each place.
#[test]
fn rows_are_told(rt: HostRuntime) -> Result<(), Fail> {
    let profile = Profile::from_toml(rt.alloc(), SAMPLE.as_bytes())?;
    for row in &ROWS {
        for cut in 0..=row.capture.len() {
            let (front, back) = row.capture.split_at(cut);
            check_row(&rt, rt.alloc(), &profile, row, front, back)?;
        }
    }
    Ok(())
}
