//! `show`, `check_capture` and `tell`, the profile in front, and their laws.

use pmb_capture::{check_capture, show};
use pmb_cli::{AfterBadToken, Choice, Digits, Start, Telling, front, tell};
use pmb_io::{Io, Sink, Source, Tally, ToolFault};
use pmb_table::{Profile, SAMPLE};
use std::test::Fail;

/// The program of docs/library.md.
#[test]
fn shows_from_bytes_that_were_read_already(rt: HostRuntime) -> Result<(), Fail> {
    let profile = Profile::from_toml(rt.alloc(), SAMPLE.as_bytes())?;
    let mut reader = Io::new(b" 18 A f8 A P".as_slice());
    let mut writer = Io::new(Vec::new(rt.alloc()));
    let tally = show(&profile, b"S b0 A 21 A 00 A", &mut reader, &mut writer)?;
    assert!(rt;
        tally
            == Tally {
                packets: 1,
                refusals: 0
            }
    );
    let written = "write 58 21 00 18 pec # VOUT_COMMAND 12\n";
    assert!(rt; writer.into_inner().as_slice() == written.as_bytes());
    Ok(())
}

#[test]
fn checks_a_packet_error_code_that_was_taken(rt: HostRuntime) -> Result<(), Fail> {
    let profile = Profile::from_toml(rt.alloc(), SAMPLE.as_bytes())?;
    let mut reader = Io::new(b"S b0 A 03 A 47 A P S b0 A 21 A 00 A 18 A f8 A P".as_slice());
    let mut writer = Io::new(Vec::new(rt.alloc()));
    let tally = check_capture(&profile, b"", &mut reader, &mut writer)?;
    assert!(rt;
        tally
            == Tally {
                packets: 1,
                refusals: 1
            }
    );
    let written = "# refusal at 6: BadPec, expected Nack\npackets 1 refusals 1\n";
    assert!(rt; writer.into_inner().as_slice() == written.as_bytes());
    Ok(())
}

/// Writes the objects of some devices, where PAGE and VOUT_MODE are unknown at first.
fn late_objects<'p, R: Source, W: Sink>(
    profile: &'p Profile,
    devices: &'p [u8],
    first: &[u8],
    reader: &mut R,
    writer: &mut W,
) -> Result<Tally, ToolFault> {
    let choice = Choice {
        digits: Digits::default(),
        start: Start::Late,
        devices,
        ignored: None,
        telling: Telling::Objects,
    };
    tell(profile, choice, AfterBadToken::End, first, reader, writer)
}

#[test]
fn writes_the_objects_of_one_device(rt: HostRuntime) -> Result<(), Fail> {
    let profile = Profile::from_toml(rt.alloc(), SAMPLE.as_bytes())?;
    let mut reader = Io::new(b"A 03 A P\nxyz".as_slice());
    let mut writer = Io::new(Vec::new(rt.alloc()));
    let tally = late_objects(&profile, b"\x59", b"S b0 ", &mut reader, &mut writer)?;
    assert!(rt;
        tally
            == Tally {
                packets: 1,
                refusals: 1
            }
    );
    let written =
        "{\"at\":6,\"line\":2,\"column\":1,\"kind\":\"bad_token\",\"word\":\"xyz\"}\n{\"kind\":\"end\",\"packets\":1,\"refusals\":0,\"bad_tokens\":1}\n";
    assert!(rt; writer.into_inner().as_slice() == written.as_bytes());
    Ok(())
}

// The profile, and what was read after the line `%%`: no output shows where the one ends.
#[test]
fn a_profile_stands_in_front(rt: HostRuntime) -> Result<(), Fail> {
    let mut reader = Io::new(b"a\r\n%%%\n%%\r\nS P\n".as_slice());
    let found = front(rt.alloc(), &mut reader)?;
    assert!(rt; found.has_capture());
    assert!(rt; found.profile() == b"a\r\n%%%\n".as_slice());
    assert!(rt; found.rest() == b"S P\n".as_slice());
    Ok(())
}

#[test]
fn each_law_holds() {
    pmb_capture::laws::one_showing();
    pmb_capture::laws::one_check();
    pmb_capture::laws::captures_are_shown();
    pmb_capture::laws::counts_add_up();
    pmb_preamble::laws::one_front();
    pmb_preamble::laws::one_limit();
    pmb_convert::laws::one_format();
    pmb_convert::laws::one_text();
    pmb_cli::laws::words_ask();
    pmb_cli::laws::fact_words_ask();
}
