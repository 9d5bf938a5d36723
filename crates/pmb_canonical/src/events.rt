//! The events of a canonical text, one by one.
//!
//! Its rows: `tests/rows/json_objects.txt`, where a group comes at once.

ghost use Rattle.std.specs.Prelude.{◌≡◌, ◌≤◌, ◌++◌, List, ℕ, IfSome, None, Some, length};
ghost use Rattle.pmb_bus.specs.declared.event.Event.{Event as BusEvent};
ghost use Rattle.pmb_bus.specs.declared.event.Event.TheVariants.{Stop};
ghost use Rattle.pmb_bus.specs.Event.{text_of};
ghost use Rattle.pmb_canonical.specs.Inside.{IsInside};

use crate::words::spelled_byte;
use pmb_bus::Event;

/// The event whose canonical text stands at the front of a text; `None` where that is STOP.
pub fn front_event(text: &[u8]) -> Option<Event>
    ensures found { (event : BusEvent) (rest : List ℕ) → IsInside event → text.now ≡ text_of event ++ rest → result ≡ Some event }
    ensures within { IfSome result (λ event. length (text_of event) ≤ length text.now) }
    ensures ended { (rest : List ℕ) → text.now ≡ text_of Stop ++ rest → result ≡ None }
{
    let [first, second, ..] = text else {
        return None;
    };
    if *first == b'S' {
        return Some(Event::Start);
    }
    if *first == b'A' {
        return Some(Event::Ack);
    }
    if *first == b'N' {
        return Some(Event::Nack);
    }
    if *first == b'P' {
        return None;
    }
    let [_, _, space, ..] = text else {
        return None;
    };
    let byte = spelled_byte(*first, *second, *space)?;
    Some(Event::Byte(byte))
}
