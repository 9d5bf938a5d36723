//! Sessions told by hand: signals, the events that are recorded, and what the devices hold then.

use crate::compare::ensure;
use crate::devices::signals::signals;
use plain_packets::{LONG_FORMS, events};
use pmb_bus::Event;
use pmb_devices::Bus;
use pmb_table::{Profile, SAMPLE};
use std::alloc::{AllocError, Global};
use std::process::Abort;
use std::test::Fail;

/// A step of a session.
#[derive(Clone, Copy)]
enum Step {
    /// Signals, and the events that are recorded.
    Signals(&'static str, &'static str),
    /// A register of the profile's first device: its page and code, and its bytes.
    Holds(u8, u8, &'static [u8]),
    /// It has no such register.
    Lacks(u8, u8),
    /// Its page.
    Page(u8),
}

/// The steps of a session, on a new bus.
type Session = &'static [Step];

use Step::{Holds, Lacks, Page, Signals};

/// The sample's sessions, each on a new bus.
#[rattlefmt::skip]
static SAMPLE_SESSIONS: [Session; 21] = [
    // The session of `docs/devices.md`.
    &[
        Signals("S b0 21 00 18", "S b0 A 21 A 00 A 18 A"), Holds(0, 0x21, &[0x00, 0x00]),
        Signals("S b2 03", "S b2 A 03 A"), Holds(0, 0x21, &[0x00, 0x00]), Signals("P", "P"),
        Holds(0, 0x21, &[0x00, 0x18]), Holds(1, 0x21, &[0x00, 0x00]),
        Signals("S b0 88 S b1 ? A ? N P", "S b0 A 88 A S b1 A 00 A d3 N P"),
        Holds(0, 0x88, &[0x00, 0xd3]), Signals("S b0 03 47 P", "S b0 A 03 A 47 N P"),
        Holds(0, 0x7e, &[0x20]), Holds(1, 0x7e, &[0x00]),
        Signals("S b0 7e 20 P", "S b0 A 7e A 20 A P"), Holds(0, 0x7e, &[0x00]),
        Signals("S b0 00 ff P", "S b0 A 00 A ff A P"), Page(0xff),
        Signals("S b0 21 S b1 P", "S b0 A 21 A S b1 N P"), Holds(0, 0x7e, &[0x40]),
        Holds(1, 0x7e, &[0x40]), Signals("S 40 P", "S 40 N P"),
    ],
    &[
        Holds(0, 0x21, &[0x00, 0x00]), Signals("S b0 21 00 18", "S b0 A 21 A 00 A 18 A"),
        Holds(0, 0x21, &[0x00, 0x00]), Signals("S b2 03", "S b2 A 03 A"),
        Holds(0, 0x21, &[0x00, 0x00]), Signals("P", "P"), Holds(0, 0x21, &[0x00, 0x18]),
        Holds(1, 0x21, &[0x00, 0x00]), Lacks(2, 0x21), Lacks(0, 0xc8),
    ],
    &[
        Signals("S b0 00 ff P", "S b0 A 00 A ff A P"), Page(0xff),
        Signals("S b0 21 00 18 P", "S b0 A 21 A 00 A 18 A P"), Holds(0, 0x21, &[0x00, 0x18]),
        Holds(1, 0x21, &[0x00, 0x18]),
    ],
    &[
        Signals("S b0 03 47 P", "S b0 A 03 A 47 N P"), Holds(0, 0x7e, &[0x20]),
        Holds(1, 0x7e, &[0x00]),
    ],
    &[Signals("S 40 P", "S 40 N P"), Holds(0, 0x7e, &[0x00])],
    &[
        Signals("S b0 00 ff P", "S b0 A 00 A ff A P"),
        Signals("S b0 21 S b1 P", "S b0 A 21 A S b1 N P"), Holds(0, 0x7e, &[0x40]),
        Holds(1, 0x7e, &[0x40]),
    ],
    &[
        Signals("S b0 99 01 41 P", "S b0 A 99 A 01 A 41 A P"), Holds(0, 0x99, &[0x41]),
        Signals("S b0 99 00 P", "S b0 A 99 A 00 A P"), Holds(0, 0x99, &[]),
    ],
    &[Signals("S b0 88 S b1 ? A ? N P", "S b0 A 88 A S b1 A 00 A d3 N P")],
    // Nothing but what stands after the last STOP counts.
    &[
        Signals("P ? b0 S S b0 ?", "P N b0 N S S b0 A N"), Signals("P", "P"),
        Holds(0, 0x21, &[0x00, 0x00]), Signals("S b0 21 00 18", "S b0 A 21 A 00 A 18 A"),
        Holds(0, 0x21, &[0x00, 0x00]), Signals("S b2 03", "S b2 A 03 A"),
        Holds(0, 0x21, &[0x00, 0x00]), Signals("P", "P"), Holds(0, 0x21, &[0x00, 0x18]),
        Holds(1, 0x21, &[0x00, 0x00]),
    ],
    // A bad page is refused, and its bit cleared by writing it as 1.
    &[
        Signals("S b0 00 05 P", "S b0 A 00 A 05 N P"), Page(0x00), Holds(0, 0x7e, &[0x40]),
        Signals("S b0 7e S b1 ? N P", "S b0 A 7e A S b1 A 40 N P"),
        Signals("S b0 7e 40 P", "S b0 A 7e A 40 A P"), Holds(0, 0x7e, &[0x00]),
    ],
    // Coefficients, with the packet error code that the host does not read.
    &[
        Signals("S b0 30 02 d0 01 S b1 ? A ? A ? A ? A ? A ? N P", "S b0 A 30 A 02 A d0 A 01 A S b1 A 05 A 03 A 00 A 02 A 00 A 01 N P"),
    ],
    // A second byte waits for the ACK of the first; a byte of the host is not answered in a reply.
    &[Signals("S b0 88 S b1 ? ? 12 A ? N ? P", "S b0 A 88 A S b1 A 00 N 12 N A d3 N N P")],
    // The address for reading after another device's leg, and twice the one for writing.
    &[
        Signals("S b2 88 S b1 ? P", "S b2 A 88 A S b1 N N P"),
        Signals("S b0 03 S b0 03 P", "S b0 A 03 A S b0 N 03 N P"),
    ],
    // Its own leg is the packet's first, but another stands between.
    &[Signals("S b0 88 S b2 S b1 ? P", "S b0 A 88 A S b2 A S b1 N N P")],
    // The packet error code of a reply.
    &[Signals("S b0 88 S b1 ? A ? A ? N P", "S b0 A 88 A S b1 A 00 A d3 A f6 N P")],
    // A refused packet error code undoes the write before it, and the next packet is heard.
    &[
        Signals("S b0 21 00 18 f9", "S b0 A 21 A 00 A 18 A f9 N"), Holds(0, 0x7e, &[0x00]),
        Signals("P", "P"), Holds(0, 0x21, &[0x00, 0x00]), Holds(0, 0x7e, &[0x20]),
        Signals("S b0 21 00 18 f8 P", "S b0 A 21 A 00 A 18 A f8 A P"),
        Holds(0, 0x21, &[0x00, 0x18]),
    ],
    // A code that the device lacks, on all pages; CLEAR_FAULTS clears all of them.
    &[
        Signals("S b0 00 ff P", "S b0 A 00 A ff A P"),
        Signals("S b0 c8 00 P", "S b0 A c8 N 00 N P"), Holds(0, 0x7e, &[0x80]),
        Holds(1, 0x7e, &[0x80]), Signals("S b0 03 P", "S b0 A 03 A P"), Holds(0, 0x7e, &[0x00]),
        Holds(1, 0x7e, &[0x00]),
    ],
    // A write after which the address for reading comes does nothing.
    &[
        Signals("S b0 00 01 S b1 P", "S b0 A 00 A 01 A S b1 N P"), Page(0x00),
        Holds(0, 0x7e, &[0x00]),
    ],
    // Nobody answers the Alert Response Address.
    &[
        Signals("S 19 ? P", "S 19 N N P"), Signals("S 18 00 P", "S 18 N 00 N P"),
        Holds(0, 0x7e, &[0x00]),
    ],
    // All parts of a group act at its STOP, the second after the page that was selected before.
    &[
        Signals("S b2 21 00 19 S b0 00 01", "S b2 A 21 A 00 A 19 A S b0 A 00 A 01 A"), Page(0x00),
        Signals("P", "P"), Page(0x01), Signals("S b0 21 00 18 P", "S b0 A 21 A 00 A 18 A P"),
        Holds(0, 0x21, &[0x00, 0x00]), Holds(1, 0x21, &[0x00, 0x18]),
    ],
    // A call that is not answered, and coefficients of a command that has none.
    &[
        Signals("S b0 1a 01 21 S b1 P", "S b0 A 1a A 01 A 21 A S b1 N P"), Holds(0, 0x7e, &[0x80]),
        Signals("S b0 30 02 21 01 S b1 P", "S b0 A 30 A 02 A 21 A 01 A S b1 N P"),
        Holds(0, 0x7e, &[0xc0]),
    ],
];

/// Sessions with a device at 10h whose commands have four and eight bytes.
#[rattlefmt::skip]
static LONG_SESSIONS: [Session; 3] = [
    &[
        Holds(0, 0xe0, &[0x00, 0x00, 0x00, 0x00]),
        Holds(0, 0xe1, &[0x00, 0x00, 0x00, 0x00, 0x00, 0x00, 0x00, 0x00]), Lacks(0, 0xe2),
        Lacks(1, 0xe0), Signals("S 20 e0 01 02 03 04 P", "S 20 A e0 A 01 A 02 A 03 A 04 A P"),
        Holds(0, 0xe0, &[0x01, 0x02, 0x03, 0x04]),
        Signals("S 20 e0 S 21 ? A ? A ? A ? N P", "S 20 A e0 A S 21 A 01 A 02 A 03 A 04 N P"),
        Signals("S 20 e1 S 21 ? A ? A ? A ? A ? A ? A ? A ? N P", "S 20 A e1 A S 21 A 00 A 00 A 00 A 00 A 00 A 00 A 00 A 00 N P"),
    ],
    &[
        Signals("S 20 e1 01 P", "S 20 A e1 A 01 N P"), Holds(0, 0x7e, &[0x00]),
        Signals("S 20 e2 05 06 S 21 P", "S 20 A e2 A 05 A 06 A S 21 N P"), Holds(0, 0x7e, &[0x80]),
    ],
    &[Signals("S 19 ? N P", "S 19 N N N P"), Holds(0, 0x7e, &[0x00])],
];

fn gives(alloc: Global, bus: &mut Bus, given: &str, expected: &str) -> Result<bool, AllocError> {
    let mut recorded: Vec<Event> = Vec::new(alloc);
    let given = signals(alloc, given)?;
    for signal in given.iter() {
        let one = bus.signal(*signal);
        recorded.extend_from_slice(one.events())?;
    }
    let expected = events(alloc, expected)?;
    Ok(recorded.as_slice() == expected.as_slice())
}

/// Whether a step goes as it is told, with the first device at an address.
fn is_so(alloc: Global, bus: &mut Bus, address: u8, step: Step) -> Result<bool, AllocError> {
    match step {
        Signals(given, expected) => gives(alloc, bus, given, expected),
        Holds(page, code, bytes) => Ok(match bus.device(address) {
            Some(device) => device.register(page, code) == Some(bytes),
            None => false,
        }),
        Lacks(page, code) => Ok(match bus.device(address) {
            Some(device) => device.register(page, code).is_none(),
            None => false,
        }),
        Page(page) => Ok(match bus.device(address) {
            Some(device) => device.page() == page,
            None => false,
        }),
    }
}

fn run<R: Abort>(rt: &R, alloc: Global, text: &str, sessions: &[Session]) -> Result<(), Fail> {
    let profile = Profile::from_toml(alloc, text.as_bytes())?;
    let first = profile.device_at(0).ok_or("no device")?;
    for (number, session) in sessions.iter().enumerate() {
        let mut bus = Bus::new(alloc, &profile)?;
        for (place, step) in session.iter().enumerate() {
            let so = is_so(alloc, &mut bus, first.address(), *step)?;
            ensure(rt, ("session", number, "step", place), so);
        }
    }
    Ok(())
}

/// The tables. A call keeps the proof of a loop over them from carrying the table.
fn sample_sessions() -> &'static [Session] {
    &SAMPLE_SESSIONS
}

fn long_sessions() -> &'static [Session] {
    &LONG_SESSIONS
}

#[test]
fn sessions_with_the_sample_go_as_told(rt: HostRuntime) -> Result<(), Fail> {
    run(&rt, rt.alloc(), SAMPLE, sample_sessions())
}

#[test]
fn sessions_with_long_forms_go_as_told(rt: HostRuntime) -> Result<(), Fail> {
    run(&rt, rt.alloc(), LONG_FORMS, long_sessions())
}
