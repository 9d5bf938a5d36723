//! The object of each kind of fact is that of its own function.

ghost use Rattle.pmb_facts.specs.Stands.{IsShort};

use crate::compare::same;
use crate::facts::last_fact;
use crate::object_lines::seen::{head, seen};
use crate::object_lines::{packets, refusals};
use arrayvec::ArrayVec;
use pmb_facts::{Fact, What, append_object};
use pmb_json_objects::{Head, OBJECT, Seen};
use pmb_line::parse_line;
use pmb_partial_packet::PartialPacket;
use pmb_places::Place;
use pmb_table::{Profile, SAMPLE};
use pmb_unknown_start::{Late, Start};
use std::test::Fail;

/// The line of a fact.
fn told(seen: &Seen<'_>, head: Head<'_>, what: What<'_>) -> ArrayVec<u8, OBJECT>
    requires { IsShort what }
{
    let mut out = ArrayVec::new();
    append_object(&mut out, seen, Fact { head, what });
    out
}

#[test]
fn of_packets(rt: HostRuntime) -> Result<(), Fail> {
    let profile = Profile::from_toml(rt.alloc(), SAMPLE.as_bytes())?;
    let late = Late::new(&profile, Start::AllKnown);
    let seen = seen(&profile, &late);
    for (line, at, place, object) in packets::rows() {
        let transaction = parse_line(&profile, line.as_bytes())?;
        let out = told(&seen, head(*at, *place, None), last_fact(&transaction));
        same(&rt, line, out.as_slice(), object.as_bytes());
    }
    Ok(())
}

#[test]
fn of_refusals(rt: HostRuntime) -> Result<(), Fail> {
    let profile = Profile::from_toml(rt.alloc(), SAMPLE.as_bytes())?;
    let late = Late::new(&profile, Start::AllKnown);
    let seen = seen(&profile, &late);
    let place = Place {
        line: 6,
        column: 30,
    };
    for (front, event, reason, expected, line) in refusals::rows() {
        let mut said = PartialPacket::new();
        for event in *front {
            said.take(*event);
        }
        let what = What::Refusal {
            said: &said,
            event: *event,
            reason: *reason,
            expected: *expected,
        };
        let out = told(&seen, head(62, place, None), what);
        same(&rt, line, out.as_slice(), line.as_bytes());
    }
    Ok(())
}

// An address that speaks no PMBus, and a word that is no token.
#[test]
fn of_others_and_words(rt: HostRuntime) -> Result<(), Fail> {
    let profile = Profile::from_toml(rt.alloc(), SAMPLE.as_bytes())?;
    let late = Late::new(&profile, Start::AllKnown);
    let seen = seen(&profile, &late);
    let place = Place { line: 4, column: 5 };
    let out = told(
        &seen,
        head(1, place, Some("0.25")),
        What::Other { addr: 0x50 },
    );
    let line =
        b"{\"at\":1,\"line\":4,\"column\":5,\"time\":\"0.25\",\"kind\":\"other\",\"device\":\"50\"}\n";
    same(&rt, "an other", out.as_slice(), &line[..]);
    let out = told(&seen, head(5, place, None), What::BadToken { word: b"b\"" });
    let line = b"{\"at\":5,\"line\":4,\"column\":5,\"kind\":\"bad_token\",\"word\":\"b\\u0022\"}\n";
    same(&rt, "a word", out.as_slice(), &line[..]);
    Ok(())
}
