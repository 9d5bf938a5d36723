//! Each other name once.

use crate::compare::same;
use arrayvec::ArrayVec;
use pmb_bus::{Event, Kinds};
use pmb_packet::{
    Context, FaultText, Invalid, Line, LineFault, LineReader, Part, Reader, Reason, Refusal, Took,
    Transaction, WordFault, append_line, check, line_of, parse_line, read_line, read_words,
    word_at,
};
use pmb_table::{Profile, SAMPLE};
use std::test::Fail;

fn clear_faults(addr: u8) -> Part {
    Part {
        addr,
        code: 0x03,
        bytes: ArrayVec::new(),
        pec: false,
    }
}

#[test]
fn a_transaction_is_checked(rt: HostRuntime) -> Result<(), Fail> {
    let profile = Profile::from_toml(rt.alloc(), SAMPLE.as_bytes()).map_err(|_| "profile")?;
    let mut parts = ArrayVec::new();
    let _ = parts.try_push(clear_faults(0x20));
    let write = Transaction::Write { parts };
    same(
        &rt,
        "check",
        check(&profile, &write),
        Err(Invalid::UnknownDevice),
    );
    Ok(())
}

#[test]
fn words_of_a_line(rt: HostRuntime) -> Result<(), Fail> {
    let profile = Profile::from_toml(rt.alloc(), SAMPLE.as_bytes()).map_err(|_| "profile")?;
    same(&rt, "word_at", word_at(b"  write 58", 0), Some((2, 7)));
    let mut kept = Transaction::NoAlert;
    same(
        &rt,
        "read_words",
        read_words(b"alert b0 7", &mut kept),
        Err(WordFault::BadWord(9)),
    );
    same(
        &rt,
        "read_line",
        read_line(&profile, b" ", &mut kept),
        Err(LineFault::Blank),
    );
    let text: FaultText = LineFault::BadWord(9).text();
    same(&rt, "fault", text.as_slice(), b"BadWord at 9".as_slice());
    let mut line: ArrayVec<u8, 12544> = ArrayVec::new();
    append_line(&Transaction::NoAlert, &mut line);
    same(
        &rt,
        "append_line",
        line.as_slice(),
        b"alert none".as_slice(),
    );
    let whole: Line = line_of(&Transaction::NoAlert);
    same(&rt, "line_of", whole.as_str(), "alert none");
    let mut reader = LineReader::new();
    same(
        &rt,
        "LineReader",
        reader.read(&profile, b"alert none"),
        Ok(&Transaction::NoAlert),
    );
    Ok(())
}

#[test]
fn a_stop_is_refused_at_the_front(rt: HostRuntime) -> Result<(), Fail> {
    let profile = Profile::from_toml(rt.alloc(), SAMPLE.as_bytes()).map_err(|_| "profile")?;
    let refusal = Refusal {
        at: 0,
        reason: Reason::WrongEvent,
        expected: Kinds::START,
    };
    let mut reader = Reader::new(&profile);
    same(
        &rt,
        "Reader",
        reader.take(Event::Stop),
        Took::Refused(refusal),
    );
    Ok(())
}

#[test]
fn pages_are_followed(rt: HostRuntime) -> Result<(), Fail> {
    let profile = Profile::from_toml(rt.alloc(), SAMPLE.as_bytes()).map_err(|_| "profile")?;
    let mut context = Context::new(&profile);
    same(&rt, "PAGE at first", context.page(0x58), Some(0));
    let page_1 = parse_line(&profile, b"write 58 00 01").map_err(|_| "line")?;
    context.observe(&page_1);
    same(&rt, "PAGE set", context.page(0x58), Some(1));
    Ok(())
}
