//! The last objects.

use crate::compare::same;
use crate::object_lines::seen::NAMED;
use arrayvec::ArrayVec;
use pmb_json_objects::{Counts, OBJECT, device_line, end_line};
use pmb_line::parse_line;
use pmb_table::{Profile, SAMPLE};
use std::test::Fail;

/// The packets that are counted, by their lines.
static LINES: [&str; 5] = [
    "write 58 21 00 18 pec",
    "read 58 79 : 40 88",
    "write 58 03 + 59 03",
    "refused 58 03 47",
    "alert b0",
];

/// The line of a device that came: where the profile gives no names and no address that speaks no PMBus,
/// and where it gives both.
#[rattlefmt::skip]
fn lines_of(addr: u8) -> Option<(&'static str, &'static str)> {
    match addr {
        0x58 => Some((
            "{\"kind\":\"device\",\"device\":\"58\",\"writes\":2,\"reads\":1,\"calls\":0,\"refused\":1,\"refusals\":1}\n",
            "{\"kind\":\"device\",\"device\":\"58\",\"name\":\"VDD_CORE\",\"writes\":2,\"reads\":1,\"calls\":0,\"refused\":1,\"refusals\":1,\"others\":0}\n")),
        0x59 => Some((
            "{\"kind\":\"device\",\"device\":\"59\",\"writes\":1,\"reads\":0,\"calls\":0,\"refused\":0,\"refusals\":0}\n",
            "{\"kind\":\"device\",\"device\":\"59\",\"name\":\"\\u00223V3\\u0022 \\u005c ~\",\"writes\":1,\"reads\":0,\"calls\":0,\"refused\":0,\"refusals\":0,\"others\":0}\n")),
        0x50 => Some((
            "{\"kind\":\"device\",\"device\":\"50\",\"writes\":0,\"reads\":0,\"calls\":0,\"refused\":0,\"refusals\":0}\n",
            "{\"kind\":\"device\",\"device\":\"50\",\"writes\":0,\"reads\":0,\"calls\":0,\"refused\":0,\"refusals\":0,\"others\":2}\n")),
        _ => None,
    }
}

/// What came: the packets of the lines, two refusals, a bad token and two packets to 50h, which speaks no
/// PMBus.
fn counted(profile: &Profile) -> Option<Counts> {
    let mut counts = Counts::new();
    for line in &LINES {
        counts.count_packet(&parse_line(profile, line.as_bytes()).ok()?);
    }
    counts.count_refusal(Some(0x58));
    counts.count_refusal(None);
    counts.count_bad_token();
    counts.count_other(0x50);
    counts.count_other(0x50);
    Some(counts)
}

#[test]
fn each_device_is_counted(rt: HostRuntime) -> Result<(), Fail> {
    let profile = Profile::from_toml(rt.alloc(), SAMPLE.as_bytes())?;
    let named = Profile::from_toml(rt.alloc(), NAMED.as_bytes())?;
    let counts = counted(&profile).ok_or("a line")?;
    let mut out = ArrayVec::<u8, OBJECT>::new();
    for addr in 0..128u8 {
        let Some(device) = counts.device(addr) else {
            continue;
        };
        let lines = lines_of(addr);
        same(&rt, addr, device.has_come(), lines.is_some());
        let Some((plain, with_names)) = lines else {
            continue;
        };
        out.clear();
        device_line(&mut out, &profile, false, addr, device);
        same(&rt, addr, out.as_slice(), plain.as_bytes());
        out.clear();
        device_line(&mut out, &named, true, addr, device);
        same(&rt, addr, out.as_slice(), with_names.as_bytes());
    }
    Ok(())
}

#[test]
fn the_end_is_counted(rt: HostRuntime) -> Result<(), Fail> {
    let profile = Profile::from_toml(rt.alloc(), SAMPLE.as_bytes())?;
    let counts = counted(&profile).ok_or("a line")?;
    let mut out = ArrayVec::<u8, OBJECT>::new();
    end_line(&mut out, false, &counts);
    same(
        &rt,
        "the end",
        out.as_slice(),
        &b"{\"kind\":\"end\",\"packets\":5,\"refusals\":2,\"bad_tokens\":1}\n"[..],
    );
    out.clear();
    end_line(&mut out, true, &counts);
    same(
        &rt,
        "the end with others",
        out.as_slice(),
        &b"{\"kind\":\"end\",\"packets\":5,\"refusals\":2,\"bad_tokens\":1,\"others\":2}\n"[..],
    );
    Ok(())
}
