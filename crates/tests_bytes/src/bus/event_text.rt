//! What events are written as.

use crate::compare::same;
use Event::{Ack, Byte, Nack, Start, Stop};
use pmb_bus::{Event, event_text};

static TEXTS: [(Event, &str); 9] = [
    (Start, "S "),
    (Stop, "P\n"),
    (Ack, "A "),
    (Nack, "N "),
    (Byte(0x00), "00 "),
    (Byte(0x0a), "0a "),
    (Byte(0x99), "99 "),
    (Byte(0xb0), "b0 "),
    (Byte(0xff), "ff "),
];

#[test]
fn each_event_has_its_text(rt: HostRuntime) {
    for &(event, text) in &TEXTS {
        same(&rt, event, event_text(event).as_str(), text);
    }
}
