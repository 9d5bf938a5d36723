//! Sessions told by hand with devices that take what is written at other addresses than their own.

use crate::compare::ensure;
use crate::devices::signals::signals;
use crate::plain::OTHERS;
use plain_packets::events;
use pmb_bus::Event;
use pmb_devices::Bus;
use pmb_table::Profile;
use std::alloc::{AllocError, Global};
use std::test::Fail;

/// A step of a session.
#[derive(Clone, Copy)]
enum Step {
    /// Signals, and the events that are recorded.
    Signals(&'static str, &'static str),
    /// A register of the device with an address: its page and code, and its bytes.
    Holds(u8, u8, u8, &'static [u8]),
    /// The page of the device with an address.
    Page(u8, u8),
}

/// The steps of a session, on a new bus.
type Session = &'static [Step];

use Step::{Holds, Page, Signals};

#[rattlefmt::skip]
static SESSIONS: [Session; 15] = [
    // All take what is written at 5bh, and the bus is as if 5bh were there alone.
    &[
        Signals("S b6 21 00 18", "S b6 A 21 A 00 A 18 A"), Holds(0x20, 0, 0x21, &[0x00, 0x00]),
        Signals("P", "P"), Holds(0x5b, 0, 0x21, &[0x00, 0x18]), Holds(0x20, 0, 0x21, &[0x00, 0x18]),
        Holds(0x21, 0, 0x21, &[0x00, 0x18]), Holds(0x22, 0, 0x21, &[0x00, 0x18]),
        Holds(0x20, 1, 0x21, &[0x00, 0x00]),
    ],
    // Its packet error code is none of the data.
    &[
        Signals("S b6 21 00 18 8c P", "S b6 A 21 A 00 A 18 A 8c A P"),
        Holds(0x20, 0, 0x21, &[0x00, 0x18]),
    ],
    // E3h of 20h is read alone, and 21h and 22h lack it: they take nothing, and note nothing.
    &[
        Signals("S b6 e3 07 P", "S b6 A e3 A 07 A P"), Holds(0x5b, 0, 0xe3, &[0x07]),
        Holds(0x20, 0, 0xe3, &[0x00]), Holds(0x20, 0, 0x7e, &[0x00]), Holds(0x21, 0, 0x7e, &[0x00]),
    ],
    // E0h of 21h has one byte. The data count, and not how they went over the bus: E2h of 20h has
    // one byte too, and takes a block of one.
    &[
        Signals("S b6 e0 01 02 P", "S b6 A e0 A 01 A 02 A P"), Holds(0x20, 0, 0xe0, &[0x01, 0x02]),
        Holds(0x21, 0, 0xe0, &[0x00]), Holds(0x22, 0, 0xe0, &[0x01, 0x02]),
        Signals("S b6 e2 01 07 P", "S b6 A e2 A 01 A 07 A P"), Holds(0x20, 0, 0xe2, &[0x07]),
        Signals("S b6 e2 02 08 09 P", "S b6 A e2 A 02 A 08 A 09 A P"), Holds(0x20, 0, 0xe2, &[0x07]),
    ],
    // Page 2 is one of 20h and not of 21h; ffh is all of both, and 22h has no PAGE.
    &[
        Signals("S b6 00 02 P", "S b6 A 00 A 02 A P"), Page(0x5b, 2), Page(0x20, 2), Page(0x21, 0),
        Signals("S b6 21 01 00 P", "S b6 A 21 A 01 A 00 A P"), Holds(0x20, 2, 0x21, &[0x01, 0x00]),
        Holds(0x20, 0, 0x21, &[0x00, 0x00]), Holds(0x21, 0, 0x21, &[0x01, 0x00]),
        Signals("S b6 00 ff P", "S b6 A 00 A ff A P"), Page(0x20, 0xff), Page(0x21, 0xff),
        Page(0x22, 0),
    ],
    // 21h keeps to its own WRITE_PROTECT, at 5bh as at its address; 5bh and 20h don't.
    &[
        Signals("S b6 10 80 P", "S b6 A 10 A 80 A P"), Holds(0x5b, 0, 0x10, &[0x80]),
        Holds(0x21, 0, 0x10, &[0x80]), Signals("S b6 01 40 P", "S b6 A 01 A 40 A P"),
        Holds(0x5b, 0, 0x01, &[0x40]), Holds(0x20, 0, 0x01, &[0x40]), Holds(0x21, 0, 0x01, &[0x00]),
        Holds(0x21, 0, 0x7e, &[0x40]), Holds(0x5b, 0, 0x7e, &[0x00]), Holds(0x20, 0, 0x7e, &[0x00]),
        Signals("S b6 10 00 P", "S b6 A 10 A 00 A P"), Signals("S b6 7e 40 P", "S b6 A 7e A 40 A P"),
        Holds(0x21, 0, 0x7e, &[0x00]),
    ],
    // A device's own address in its list says nothing more: 22h takes what came to it, then what came to
    // 20h. And 20h takes what came to it, then what came to 22h.
    &[
        Signals("S 40 21 20 00 S 44 21 22 00 6f P", "S 40 A 21 A 20 A 00 A S 44 A 21 A 22 A 00 A 6f A P"),
        Holds(0x22, 0, 0x21, &[0x20, 0x00]), Holds(0x20, 0, 0x21, &[0x22, 0x00]),
    ],
    // Its own leg acts first, wherever it stands in the packet; then its other addresses in their order.
    &[
        Signals("S b6 21 01 00 S 40 21 02 00 P", "S b6 A 21 A 01 A 00 A S 40 A 21 A 02 A 00 A P"),
        Holds(0x20, 0, 0x21, &[0x01, 0x00]), Holds(0x5b, 0, 0x21, &[0x01, 0x00]),
        Holds(0x22, 0, 0x21, &[0x01, 0x00]),
        Signals("S b6 00 01 S 40 21 03 00 P", "S b6 A 00 A 01 A S 40 A 21 A 03 A 00 A P"),
        Page(0x20, 1), Holds(0x20, 0, 0x21, &[0x03, 0x00]), Holds(0x20, 1, 0x21, &[0x00, 0x00]),
    ],
    &[
        Signals("S b6 21 01 00 S 44 21 22 00 6f P", "S b6 A 21 A 01 A 00 A S 44 A 21 A 22 A 00 A 6f A P"),
        Holds(0x20, 0, 0x21, &[0x01, 0x00]), Holds(0x22, 0, 0x21, &[0x01, 0x00]),
        Holds(0x21, 0, 0x21, &[0x01, 0x00]),
    ],
    // What is read there is of 5bh, and so is what is refused to be read. A body that is read after it
    // is a call, and without that a write.
    &[
        Signals("S 40 21 05 00 P", "S 40 A 21 A 05 A 00 A P"),
        Signals("S b6 21 S b7 ? A ? N P", "S b6 A 21 A S b7 A 00 A 00 N P"),
        Holds(0x20, 0, 0x21, &[0x05, 0x00]),
        Signals("S b6 e1 01 05 S b7 P", "S b6 A e1 A 01 A 05 A S b7 N P"), Holds(0x20, 0, 0xe1, &[]),
        Holds(0x5b, 0, 0x7e, &[0x80]), Holds(0x20, 0, 0x7e, &[0x00]),
        Signals("S b6 e1 01 05 P", "S b6 A e1 A 01 A 05 A P"), Holds(0x20, 0, 0xe1, &[0x05]),
    ],
    // A leg that 5bh refuses is noted there alone: a code, a packet error code, and a value of PAGE.
    &[
        Signals("S b6 c8 P", "S b6 A c8 N P"), Holds(0x5b, 0, 0x7e, &[0x80]),
        Holds(0x20, 0, 0x7e, &[0x00]), Holds(0x21, 0, 0x7e, &[0x00]),
        Signals("S b6 21 01 00 00 P", "S b6 A 21 A 01 A 00 A 00 N P"), Holds(0x5b, 0, 0x7e, &[0xa0]),
        Holds(0x20, 0, 0x21, &[0x00, 0x00]), Signals("S b6 00 04 P", "S b6 A 00 A 04 N P"),
        Holds(0x5b, 0, 0x7e, &[0xe0]), Page(0x20, 0),
    ],
    // The parts before a refused leg act at other addresses too.
    &[
        Signals("S 40 21 03 00 S b6 c8 P", "S 40 A 21 A 03 A 00 A S b6 A c8 N P"),
        Holds(0x20, 0, 0x21, &[0x03, 0x00]), Holds(0x22, 0, 0x21, &[0x03, 0x00]),
        Holds(0x5b, 0, 0x7e, &[0x80]), Holds(0x20, 0, 0x7e, &[0x00]),
    ],
    &[
        Signals("S b6 21 03 00 S 40 c8 P", "S b6 A 21 A 03 A 00 A S 40 A c8 N P"),
        Holds(0x20, 0, 0x21, &[0x03, 0x00]), Holds(0x20, 0, 0x7e, &[0x80]),
    ],
    // What was taken once is not taken again at the next STOP.
    &[
        Signals("S b6 21 01 00 P", "S b6 A 21 A 01 A 00 A P"),
        Signals("S 40 21 02 00 P", "S 40 A 21 A 02 A 00 A P"), Holds(0x20, 0, 0x21, &[0x02, 0x00]),
        Signals("P S P S 40 P", "P S P S 40 A P"), Holds(0x20, 0, 0x21, &[0x02, 0x00]),
        Holds(0x21, 0, 0x21, &[0x01, 0x00]),
    ],
    // CLEAR_FAULTS clears the bits of each, on its selected page.
    &[
        Signals("S 40 c8 P", "S 40 A c8 N P"), Holds(0x20, 0, 0x7e, &[0x80]),
        Signals("S b6 03 P", "S b6 A 03 A P"), Holds(0x20, 0, 0x7e, &[0x00]),
    ],
];

fn gives(alloc: Global, bus: &mut Bus, given: &str, expected: &str) -> Result<bool, AllocError> {
    let mut recorded: Vec<Event> = Vec::new(alloc);
    let given = signals(alloc, given)?;
    for signal in given.iter() {
        let one = bus.signal(*signal);
        recorded.extend_from_slice(one.events())?;
    }
    let expected = events(alloc, expected)?;
    Ok(recorded.as_slice() == expected.as_slice())
}

/// Whether a step goes as it is told.
fn is_so(alloc: Global, bus: &mut Bus, step: Step) -> Result<bool, AllocError> {
    match step {
        Signals(given, expected) => gives(alloc, bus, given, expected),
        Holds(address, page, code, bytes) => Ok(match bus.device(address) {
            Some(device) => device.register(page, code) == Some(bytes),
            None => false,
        }),
        Page(address, page) => Ok(match bus.device(address) {
            Some(device) => device.page() == page,
            None => false,
        }),
    }
}

/// The table. A call keeps the proof of a loop over it from carrying the table.
fn sessions() -> &'static [Session] {
    &SESSIONS
}

#[test]
fn sessions_with_other_addresses_go_as_told(rt: HostRuntime) -> Result<(), Fail> {
    let profile = Profile::from_toml(rt.alloc(), OTHERS.as_bytes())?;
    for (number, session) in sessions().iter().enumerate() {
        let mut bus = Bus::new(rt.alloc(), &profile)?;
        for (place, step) in session.iter().enumerate() {
            let so = is_so(rt.alloc(), &mut bus, *step)?;
            ensure(&rt, ("session", number, "step", place), so);
        }
    }
    Ok(())
}
