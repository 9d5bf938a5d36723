//! A capture that is fed in pieces. `refused_memory_loses_nothing` passes whichever one allocation is
//! refused: `rt try --test --fail-alloc N -- refused_memory` refuses the Nth.

use pmb_capture_reader::{Answer, CaptureReader, Fed, ReaderGround, Task, Work};
use pmb_cli::{AfterBadToken, Choice, Digits, Start, Telling};
use pmb_io::Tally;
use pmb_table::{BusProfile, Profile, SAMPLE};
use std::alloc::{AllocError, Global};
use std::sync::Arc;
use std::test::Fail;

/// The front of examples/analysers/sigrok.capture, and a word that is no token.
const CAPTURE: &[u8] =
    b"# 0.000025000 s\nS b0 A 21 A 00 A 18 A f8 A P\n# 0.000545000 s\nS b0 A 79 A S b1 A 40 A 88 N P\nxyz it\n";

/// The first two lines are those of docs/json.md.
const TOLD: &str =
    "{\"at\":0,\"line\":2,\"column\":1,\"time\":\"0.000025000\",\"kind\":\"write\",\"device\":\"58\",\"code\":\"21\",\"command\":\"VOUT_COMMAND\",\"page\":0,\"page_mode\":\"assumed\",\"bytes\":\"0018\",\"pec\":true,\"value\":\"12\",\"number\":12,\"mode\":\"assumed\",\"unit\":\"V\"}\n{\"at\":12,\"line\":4,\"column\":1,\"time\":\"0.000545000\",\"kind\":\"read\",\"device\":\"58\",\"code\":\"79\",\"command\":\"STATUS_WORD\",\"page\":0,\"page_mode\":\"assumed\",\"bytes\":\"4088\",\"pec\":false,\"bits\":[\"VOUT\",\"POWER_GOOD_N\",\"OFF\"]}\n{\"at\":25,\"line\":5,\"column\":1,\"kind\":\"bad_token\",\"word\":\"xyz\"}\n{\"kind\":\"device\",\"device\":\"58\",\"writes\":1,\"reads\":1,\"calls\":0,\"refused\":0,\"refusals\":0}\n{\"kind\":\"end\",\"packets\":2,\"refusals\":0,\"bad_tokens\":1}\n";

/// What is told of a capture with no packet.
const NO_PACKETS: &str = "{\"kind\":\"end\",\"packets\":0,\"refusals\":0,\"bad_tokens\":0}\n";

/// Objects of all devices, where PAGE and VOUT_MODE are assumed.
fn json() -> Choice<'static> {
    Choice {
        digits: Digits::default(),
        start: Start::AllKnown,
        devices: &[],
        ignored: None,
        telling: Telling::Objects,
    }
}

fn reader_of(alloc: Global, profile: &Profile) -> Result<CaptureReader<'_>, AllocError> {
    CaptureReader::new(alloc, profile, json(), AfterBadToken::End)
}

/// Has a reader do a task by its one call.
fn answer_to(
    reader: &mut CaptureReader<'_>,
    task: Task,
    piece: &[u8],
    room: &mut [u8],
) -> Option<Answer> {
    let mut work = Work::new(task, piece, room);
    reader.act(&mut work);
    work.answer
}

/// Takes all that is ready, a byte at a time.
fn take_all(reader: &mut CaptureReader<'_>, text: &mut Vec<u8>) -> Result<(), AllocError> {
    let mut room = [0; 1];
    for _ in 0..100_000 {
        if reader.take(&mut room) == 0 {
            return Ok(());
        }
        text.extend_from_slice(&room)?;
    }
    Ok(())
}

/// What is told of pieces, and of the end after them.
fn told_of(alloc: Global, profile: &Profile, pieces: [&[u8]; 2]) -> Result<Vec<u8>, AllocError> {
    let mut reader = reader_of(alloc, profile)?;
    let mut text = Vec::new(alloc);
    reader.feed(pieces[0]);
    take_all(&mut reader, &mut text)?;
    reader.feed(pieces[1]);
    reader.end();
    take_all(&mut reader, &mut text)?;
    Ok(text)
}

#[test]
fn tells_a_capture_that_is_fed_whole(rt: HostRuntime) -> Result<(), Fail> {
    let profile = Profile::from_toml(rt.alloc(), SAMPLE.as_bytes())?;
    let mut reader = reader_of(rt.alloc(), &profile)?;
    assert!(rt; reader.feed(b"") == Fed::More && reader.ready() == 0);
    assert!(rt; reader.feed(CAPTURE) == Fed::Ended);
    let ready = reader.ready();
    assert!(rt; ready == TOLD.len());
    // What comes after the end changes nothing.
    assert!(rt; reader.feed(CAPTURE) == Fed::Ended && reader.end() == Fed::Ended);
    let mut room = [0; 1024];
    let count = reader.take(&mut room);
    assert!(rt; &room[..count] == TOLD.as_bytes());
    assert!(rt; reader.ready() == 0 && reader.take(&mut room) == 0);
    let tally = Tally {
        packets: 2,
        refusals: 1,
    };
    assert!(rt; reader.tally() == tally);
    Ok(())
}

#[test]
fn tells_the_same_however_it_is_cut(rt: HostRuntime) -> Result<(), Fail> {
    let profile = Profile::from_toml(rt.alloc(), SAMPLE.as_bytes())?;
    for at in 0..CAPTURE.len() {
        let (first, rest) = CAPTURE.split_at(at);
        let text = told_of(rt.alloc(), &profile, [first, rest])?;
        assert!(rt; text.as_slice() == TOLD.as_bytes(), "cut at {at}");
    }
    Ok(())
}

#[test]
fn tells_the_same_byte_by_byte(rt: HostRuntime) -> Result<(), Fail> {
    let bus = Arc::new(
        rt.alloc(),
        BusProfile::from_toml(rt.alloc(), SAMPLE.as_bytes())?,
    )?;
    let borrowed = ReaderGround {
        bus,
        devices: Vec::new(rt.alloc()),
        digits: Digits::default(),
        start: Start::AllKnown,
        bad_words: AfterBadToken::End,
        telling: Telling::Objects,
        alloc: rt.alloc(),
    };
    let mut reader = CaptureReader::over(&borrowed)?;
    let mut text = Vec::new(rt.alloc());
    for byte in CAPTURE {
        reader.feed(&[*byte]);
        take_all(&mut reader, &mut text)?;
    }
    assert!(rt; reader.state() == Fed::Ended);
    assert!(rt; text.as_slice() == TOLD.as_bytes());
    Ok(())
}

#[test]
fn tells_the_end(rt: HostRuntime) -> Result<(), Fail> {
    let profile = Profile::from_toml(rt.alloc(), SAMPLE.as_bytes())?;
    let mut reader = reader_of(rt.alloc(), &profile)?;
    assert!(rt; reader.end() == Fed::Ended && reader.end() == Fed::Ended);
    let mut room = [0; 64];
    let count = reader.take(&mut room);
    assert!(rt; &room[..count] == NO_PACKETS.as_bytes());
    Ok(())
}

/// Of all that is ready, ten bytes are taken first.
#[test]
fn does_each_task_by_one_call(rt: HostRuntime) -> Result<(), Fail> {
    let profile = Profile::from_toml(rt.alloc(), SAMPLE.as_bytes())?;
    let mut reader = reader_of(rt.alloc(), &profile)?;
    let read = answer_to(&mut reader, Task::Feed, CAPTURE, &mut []);
    let mut room = [0; 10];
    let taken = answer_to(&mut reader, Task::Take, b"", &mut room);
    let mut wanted = Answer {
        state: Fed::Ended,
        ready: TOLD.len(),
        moved: 0,
        tally: Tally {
            packets: 2,
            refusals: 1,
        },
    };
    assert!(rt; read == Some(wanted));
    wanted.moved = 10;
    assert!(rt; taken == Some(wanted));
    assert!(rt; room.as_slice() == &TOLD.as_bytes()[..10]);
    Ok(())
}

/// The sample profile, at the second try where memory was refused.
fn sample(alloc: Global) -> Result<Profile, Fail> {
    match Profile::from_toml(alloc, SAMPLE.as_bytes()) {
        Ok(profile) => Ok(profile),
        Err(_) => Ok(Profile::from_toml(alloc, SAMPLE.as_bytes())?),
    }
}

/// A reader, at the second try where memory was refused.
fn reader_again<'p>(alloc: Global, profile: &'p Profile) -> Result<CaptureReader<'p>, AllocError> {
    match reader_of(alloc, profile) {
        Ok(reader) => Ok(reader),
        Err(_) => reader_of(alloc, profile),
    }
}

/// Two packets, and then the rest: the first two lines wait while the others are made.
#[test]
fn refused_memory_loses_nothing(rt: HostRuntime) -> Result<(), Fail> {
    let profile = sample(rt.alloc())?;
    let mut reader = reader_again(rt.alloc(), &profile)?;
    let (first, rest) = CAPTURE.split_at(92);
    let one = reader.feed(first);
    let ready = reader.ready();
    let two = reader.feed(rest);
    let refused = one == Fed::Memory || two == Fed::Memory;
    assert!(rt; refused || two == Fed::Ended);
    assert!(rt; !refused || reader.feed(CAPTURE) == Fed::Memory);
    assert!(rt; !refused || reader.ready() == ready);
    let mut room = [0; 1024];
    let count = reader.take(&mut room);
    assert!(rt; TOLD.as_bytes().starts_with(&room[..count]));
    assert!(rt; refused || count == TOLD.len());
    Ok(())
}
