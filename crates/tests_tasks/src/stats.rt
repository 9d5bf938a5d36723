//! `stats` in memory: the programs of its crates' docs, its table and its objects, its tally, its laws.

use arrayvec::ArrayVec;
use pmb_cli::{AfterBadToken, Digits, Start};
use pmb_facts::{Fact, What};
use pmb_io::{Io, Tally, ToolFault};
use pmb_json_objects::{Head, Seen};
use pmb_keeper::Keeper;
use pmb_observed::{PageKey, PhaseKey, Spot};
use pmb_places::Place;
use pmb_stats::Statistics;
use pmb_stats_counts::{Fail as FailOn, Sort};
use pmb_stats_room::Room;
use pmb_summary::{SumsChoice, write_objects, write_table};
use pmb_table::{Profile, SAMPLE};
use pmb_unknown_start::Late;
use std::test::Fail;

/// VOUT_UV_FAULT is read set, and then clear.
const CAPTURE: &[u8] = b"# 1 s\nS b0 A 7a A S b1 A 10 N P\n# 2 s\nS b0 A 7a A S b1 A 00 N P\n";

const OBJECTS: &str =
    "{\"kind\":\"device\",\"device\":\"58\",\"reads\":2,\"pages\":[{\"page\":0,\"bits\":[{\"code\":\"7a\",\"command\":\"STATUS_VOUT\",\"bit\":\"VOUT_UV_FAULT\",\"count\":1,\"first\":\"1\",\"last\":\"1\",\"gone\":\"2\"}]}]}\n{\"kind\":\"end\",\"packets\":2,\"reads\":2,\"first\":\"1\",\"last\":\"2\"}\n";

const TABLE: &str = "58
  reads 2
  page  command                    bit                   count       first        last        gone
     0  STATUS_VOUT                VOUT_UV_FAULT             1           1           1           2

total  packets 2  reads 2  first 1  last 2
";

/// What is chosen without flags, but for what makes the status 1.
fn chosen(fail_on: Option<&[FailOn]>) -> SumsChoice<'_> {
    SumsChoice {
        digits: Digits::default(),
        start: Start::AllKnown,
        devices: &[],
        ignored: None,
        after_bad_token: AfterBadToken::End,
        fail_on,
    }
}

#[test]
fn writes_objects_of_the_sums(rt: HostRuntime) -> Result<(), Fail> {
    let profile = Profile::from_toml(rt.alloc(), SAMPLE.as_bytes())?;
    let stats = Statistics::new(rt.alloc(), &profile)?;
    let mut reader = Io::new(&CAPTURE[9..]);
    let mut writer = Io::new(Vec::new(rt.alloc()));
    let first = &CAPTURE[..9];
    let tally = write_objects(
        stats,
        &profile,
        chosen(None),
        first,
        &mut reader,
        &mut writer,
    )?;
    let wanted = Tally {
        packets: 2,
        refusals: 0,
    };
    assert!(rt; tally == wanted);
    assert!(rt; writer.into_inner().as_slice() == OBJECTS.as_bytes());
    Ok(())
}

/// The capture has neither refusals nor bad tokens, but a fault.
#[test]
fn writes_a_table_of_the_sums(rt: HostRuntime) -> Result<(), Fail> {
    let profile = Profile::from_toml(rt.alloc(), SAMPLE.as_bytes())?;
    let stats = Statistics::new(rt.alloc(), &profile)?;
    let mut reader = Io::new(b"".as_slice());
    let mut writer = Io::new(Vec::new(rt.alloc()));
    let choice = chosen(Some(&[FailOn::Nacks, FailOn::Faults]));
    let tally = write_table(stats, &profile, choice, CAPTURE, &mut reader, &mut writer)?;
    let wanted = Tally {
        packets: 2,
        refusals: 1,
    };
    assert!(rt; tally == wanted);
    assert!(rt; writer.into_inner().as_slice() == TABLE.as_bytes());
    Ok(())
}

/// Nothing is written before the end, and a writer that has no room for it fails.
#[test]
fn says_that_it_could_not_write(rt: HostRuntime) -> Result<(), Fail> {
    let profile = Profile::from_toml(rt.alloc(), SAMPLE.as_bytes())?;
    let stats = Statistics::new(rt.alloc(), &profile)?;
    let mut reader = Io::new(b"".as_slice());
    let mut writer = Io::new(ArrayVec::<u8, 16>::new());
    let told = write_table(
        stats,
        &profile,
        chosen(None),
        CAPTURE,
        &mut reader,
        &mut writer,
    );
    assert!(rt; told == Err(ToolFault::Write));
    Ok(())
}

/// The program of `pmb_stats`.
#[test]
fn keeps_what_a_fact_tells(rt: HostRuntime) -> Result<(), Fail> {
    let profile = Profile::from_toml(rt.alloc(), SAMPLE.as_bytes())?;
    let mut stats = Statistics::new(rt.alloc(), &profile)?;
    let late = Late::new(&profile, Start::AllKnown);
    let seen = Seen {
        digits: Digits::default(),
        profile: &profile,
        late: &late,
    };
    let head = Head {
        at: 5,
        place: Place { line: 2, column: 7 },
        time: Some(b"0.25"),
    };
    let what = What::Read {
        addr: 0x58,
        code: 0x79,
        reply: &[0x40, 0x00],
        pec: false,
    };
    stats.keep(&seen, Fact { head, what });
    assert!(rt; stats.counts(0x58).of(Sort::Reads) == 1);
    assert!(rt; stats.totals().packets() == 1);
    assert!(rt; stats.signs().holds(FailOn::NoneRead) == false);
    assert!(rt; stats.first() == Some(b"0.25".as_slice()));
    assert!(rt; stats.last() == Some(b"0.25".as_slice()));
    let spot = Spot {
        addr: 0x58,
        code: 0x79,
        page: PageKey::OnPage(0),
        phase: PhaseKey::Unphased,
    };
    let bits = stats.register(spot).ok_or("no register")?;
    let bit = bits.get(6).ok_or("no bit")?;
    assert!(rt; bit.first() == Some(b"0.25".as_slice()));
    assert!(rt; stats.numbers(spot).is_none());
    Ok(())
}

/// The program of `pmb_stats_room`.
#[test]
fn has_room_for_each_register(rt: HostRuntime) -> Result<(), Fail> {
    let profile = Profile::from_toml(rt.alloc(), SAMPLE.as_bytes())?;
    let mut room = Room::new(rt.alloc(), &profile)?;
    let spot = Spot {
        addr: 0x58,
        code: 0x79,
        page: PageKey::OnPage(0),
        phase: PhaseKey::Unphased,
    };
    room.see_read(spot, 0x0040, Some(b"0.5"));
    let bits = room.register(spot).ok_or("no register")?;
    let bit = bits.get(6).ok_or("no bit")?;
    assert!(rt; bit.count() == 1);
    Ok(())
}

#[test]
fn each_law_holds() {
    pmb_stats::laws::pages_make_the_whole();
    pmb_stats::laws::bit_counts_add_up();
    pmb_stats_laws::laws::counts_of_pieces_add_up();
    pmb_stats_laws::laws::bits_of_pieces_add_up();
    pmb_stats_texts::laws::one_table();
    pmb_stats_texts::laws::one_objects();
}
