//! One event of a capture, also one that is refused.
//!
//! Its rows: `tests_reader`, `src/counts/counted.rt`.

ghost use Rattle.std.specs.Prelude.{List, [], ◌∷◌, ◌++◌};
ghost use Rattle.pmb_bus.specs.declared.event.Event.{Event as BusEvent};
ghost use Rattle.pmb_command.specs.Parts.{DeviceParts};
ghost use Rattle.pmb_transaction.specs.Reading.{Outcome};
ghost use Rattle.pmb_reader.specs.Reading.{AnyEvent, HasRead};
ghost use Rattle.pmb_count.specs.Count.{IsAdded};

use pmb_bus::Event;
use pmb_reader::laws::{reading_accepts, reading_goes_on, reading_refuses, reading_resumes};
use pmb_reader::{Reader, Took};

/// Hands an event to a reader that holds no refusal, and continues after a refusal: the refused event
/// is passed over, and those after it up to and including the next STOP will be.
pub(crate) fn take_on(reader: &mut Reader, event: Event) -> Took
    ensures { (profile : List DeviceParts) (events : List BusEvent) (outcomes : List Outcome)
        → HasRead profile reader.old events AnyEvent outcomes
        → ((added : List Outcome) × IsAdded result added
        × HasRead profile reader.new (events ++ event ∷ []) AnyEvent (outcomes ++ added)) }
{
    reading_goes_on();
    reading_accepts();
    reading_refuses();
    reading_resumes();
    match reader.take(event) {
        Took::Continues => Took::Continues,
        Took::Packet => Took::Packet,
        Took::Refused(refusal) => {
            reader.resync();
            let _ = reader.take(event);
            Took::Refused(refusal)
        }
    }
}
