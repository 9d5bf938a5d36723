//! The lines of words that are no token, of alerts and of packets to addresses that speak no PMBus.

ghost use Rattle.pmb_facts.specs.Stands.{IsShort};

use crate::compare::same;
use crate::object_lines::seen::{NAMED, head, seen};
use arrayvec::ArrayVec;
use pmb_facts::{Fact, What};
use pmb_log_lines::{LINE, Layout, append_log_line};
use pmb_places::Place;
use pmb_table::Profile;
use pmb_unknown_start::{Late, Start};
use std::test::Fail;

/// The line of a fact that begins in line 2 at column 16.
fn told(profile: &Profile, what: What<'_>) -> ArrayVec<u8, LINE>
    requires { IsShort what }
{
    let late = Late::new(profile, Start::AllKnown);
    let place = Place {
        line: 2,
        column: 16,
    };
    let fact = Fact {
        head: head(62, place, None),
        what,
    };
    let mut out = ArrayVec::new();
    append_log_line(&mut out, Layout::of(profile), &seen(profile, &late), fact);
    out
}

#[rattlefmt::skip]
#[test]
fn each_is_told(rt: HostRuntime) -> Result<(), Fail> {
    let profile = Profile::from_toml(rt.alloc(), NAMED.as_bytes())?;
    let line = b"            59  \"3V3\" \\ ~                                answered an alert\n";
    let alert = told(&profile, What::Alert { byte: 0xb2, pec: false });
    same(&rt, "an alert", alert.as_slice(), &line[..]);
    let line = b"                                                         alert, and no device answered\n";
    let no_alert = told(&profile, What::NoAlert);
    same(&rt, "no device answered", no_alert.as_slice(), &line[..]);
    let line = b"            50                                           not PMBus\n";
    let other = told(&profile, What::Other { addr: 0x50 });
    same(&rt, "an other", other.as_slice(), &line[..]);
    let line = b"                                                         no token: b\\u0022x at line 2 column 16\n";
    let short = told(&profile, What::BadToken { word: b"b\"x" });
    same(&rt, "a short word", short.as_slice(), &line[..]);
    let line = b"                                                         no token: 0123456789abcdef0123456789abcdef at line 2 column 16\n";
    let long = told(&profile, What::BadToken { word: b"0123456789abcdef0123456789abcdef0" });
    same(&rt, "a long word", long.as_slice(), &line[..]);
    Ok(())
}
