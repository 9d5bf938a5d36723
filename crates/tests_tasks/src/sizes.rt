//! With ample memory each task has all that it needs, whatever the number of devices and of their pages:
//! want of memory is reported where an allocation was refused, and nowhere else.

use pmb_capture_reader::{CaptureReader, Fed};
use pmb_cli::{AfterBadToken, Choice, Digits, Start, Telling};
use pmb_io::Io;
use pmb_run::run;
use pmb_stats::Statistics;
use pmb_stats_room::Room;
use pmb_table::BusProfile;
use std::alloc::{AllocError, Global};
use std::process::Abort;
use std::test::Fail;

/// What a device has in its profile besides its address and its pages.
const COMMANDS: &str =
    "pec = \"off\", phases = 4, standard = false, command = [{ name = \"PAGE\" }, { name = \"VOUT_MODE\" }, { name = \"VOUT_COMMAND\" }, { name = \"COEFFICIENTS\" }, { name = \"READ_IOUT\", phased = true }, { name = \"STATUS_CML\" }, { name = \"MFR_ID\" }]";

/// A request of each kind.
const REQUESTS: &[u8] =
    b"write 10 99 41 + 11 99 42\nread 10 99\ncall 10 30 21 01\nset 10 21 1\nget 10 21\nget\n";

/// A write, a read, and a word that is no token.
const CAPTURE: &[u8] = b"S 20 A 99 A 01 A 41 A P\nS 20 A 7e A S 21 A 80 N P\nhm\n";

/// A profile of so many devices, from 10h on, each with so many pages.
fn profile_text(alloc: Global, devices: u8, pages: u8) -> Result<String, AllocError> {
    let mut text = String::new(alloc);
    text.push_str("device = [")?;
    for i in 0..devices {
        let address = u16::from(i) + 0x10;
        let numbers = format!(in alloc; "{{ address = {address}, pages = {pages}, ")?;
        text.push_str(numbers.as_str())?;
        text.push_str(COMMANDS)?;
        text.push_str(" },")?;
    }
    text.push_str("]\n")?;
    Ok(text)
}

/// Objects of all devices, where PAGE and VOUT_MODE are assumed.
fn json() -> Choice<'static> {
    Choice {
        digits: Digits::default(),
        start: Start::AllKnown,
        devices: &[],
        ignored: None,
        telling: Telling::Objects,
    }
}

/// Runs requests, makes room for sums, and feeds a capture. The rest of a task takes no memory.
fn each_task_is_done(rt: &impl Abort, alloc: Global, devices: u8, pages: u8) -> Result<(), Fail> {
    let text = profile_text(alloc, devices, pages)?;
    let bus = BusProfile::from_toml(alloc, text.as_bytes())?;
    let profile = bus.profile();
    let mut reader = Io::new(REQUESTS);
    let mut writer = Io::new(Vec::new(alloc));
    let ran = run(alloc, profile, b"", &mut reader, &mut writer);
    assert!(rt; ran.is_ok(), "{devices} devices, {pages} pages: {ran:?}");
    let room = Room::new(alloc, profile);
    assert!(rt; room.is_ok(), "{devices} devices, {pages} pages");
    let statistics = Statistics::new(alloc, profile);
    assert!(rt; statistics.is_ok(), "{devices} devices, {pages} pages");
    let mut told = CaptureReader::new(alloc, profile, json(), AfterBadToken::Continue)?;
    let fed = told.feed(CAPTURE);
    assert!(rt;
        fed == Fed::More,
        "{devices} devices, {pages} pages: {fed:?}"
    );
    let ended = told.end();
    assert!(rt;
        ended == Fed::Ended,
        "{devices} devices, {pages} pages: {ended:?}"
    );
    Ok(())
}

#[test]
fn no_task_lacks_ample_memory(rt: HostRuntime) -> Result<(), Fail> {
    for devices in 0..=64 {
        each_task_is_done(&rt, rt.alloc(), devices, 1)?;
    }
    for pages in 1..=32 {
        each_task_is_done(&rt, rt.alloc(), 1, pages)?;
    }
    each_task_is_done(&rt, rt.alloc(), 64, 32)
}
