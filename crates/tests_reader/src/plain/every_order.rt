//! Events in every order, up to seven, under a small profile, against a reader by the rules in
//! words.

use crate::compare::ensure;
use crate::plain::compared::Compared;
use plain_packets::is_viable;
use pmb_bus::Event;
use pmb_table::Profile;
use std::alloc::{AllocError, Global};
use std::test::Fail;

/// Two devices: one that is written with no byte and called, and one that is read a byte of.
const SMALL: &str = r#"[[device]]
address = 0x10
pec = "optional"
standard = false

[[device.command]]
code = 0x11
write = "zero"
read = "one"

[[device.command]]
code = 0x1b
write = "one"
read = "one"
call = "two"

[[device]]
address = 0x11
pec = "on"
standard = false

[[device.command]]
code = 0x11
write = "zero"
"#;

/// The events that are tried: a byte is an address for writing or reading, of a device or none, the
/// Alert Response Address, a code, a packet error code (of 20 11, of 22 11, of 19 00, of 20 1b 00)
/// or another.
static TRIED: [Event; 17] = [
    Event::Start,
    Event::Ack,
    Event::Nack,
    Event::Stop,
    Event::Byte(0x20),
    Event::Byte(0x21),
    Event::Byte(0x22),
    Event::Byte(0x23),
    Event::Byte(0x40),
    Event::Byte(0x19),
    Event::Byte(0x11),
    Event::Byte(0x1b),
    Event::Byte(0x00),
    Event::Byte(0xd9),
    Event::Byte(0xf3),
    Event::Byte(0xea),
    Event::Byte(0x83),
];

/// Whether both readers answer alike to the last of some events, and end alike after it.
fn reads_alike(
    alloc: Global,
    profile: &Profile,
    front: &[Event],
    event: Event,
) -> Result<bool, AllocError> {
    let mut compared = Compared::new(alloc, profile);
    for before in front {
        compared.take(*before)?;
    }
    Ok(compared.take(event)? && compared.ends_alike()?)
}

/// The longer lists that are viable and no packet, by one event of those tried.
fn longer(
    alloc: Global,
    profile: &Profile,
    fronts: &[Vec<Event>],
) -> Result<Vec<Vec<Event>>, AllocError> {
    let mut lists = Vec::new(alloc);
    for front in fronts {
        for event in &TRIED {
            let mut list = Vec::from_slice(alloc, front.as_slice())?;
            list.push(*event)?;
            if *event != Event::Stop && is_viable(alloc, profile, list.as_slice())? {
                lists.push(list)?;
            }
        }
    }
    Ok(lists)
}

/// The first of some lists with an event after it that the readers answer differently.
fn first_difference(
    alloc: Global,
    profile: &Profile,
    fronts: &[Vec<Event>],
) -> Result<Option<Vec<Event>>, AllocError> {
    for front in fronts {
        for event in &TRIED {
            if !reads_alike(alloc, profile, front.as_slice(), *event)? {
                let mut list = Vec::from_slice(alloc, front.as_slice())?;
                list.push(*event)?;
                return Ok(Some(list));
            }
        }
    }
    Ok(None)
}

#[test]
fn events_in_every_order_read_by_the_rules(rt: HostRuntime) -> Result<(), Fail> {
    let alloc = rt.alloc();
    let profile = Profile::from_toml(alloc, SMALL.as_bytes())?;
    let mut fronts = Vec::new(alloc);
    fronts.push(Vec::new(alloc))?;
    for length in 1..=7u8 {
        let difference = first_difference(alloc, &profile, fronts.as_slice())?;
        ensure(&rt, (length, "events", &difference), difference.is_none());
        fronts = longer(alloc, &profile, fronts.as_slice())?;
    }
    ensure(&rt, "some packet is longer", !fronts.is_empty());
    Ok(())
}
