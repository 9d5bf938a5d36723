//! What is told of the events on a bus.
//!
//! Its rows: `tests_host`, `src/i2c/messages.rt`, `random.rt`.

ghost use Rattle.std.specs.Prelude.{List, ◌++◌};
ghost use Rattle.pmb_bus.specs.declared.event.Event.{Event as EventData};

use pmb_bus::Event;

/// What is told of the events on the wire of a bus.
pub trait Listener {
    /// It heard these events, in order, as far as it is known. It need not keep them.
    ghost HasHeard: { Self → List EventData → Type 0 };

    /// Takes the events of one signal: one or two, after those before them.
    fn hear(&mut self, events: &[Event])
        ensures { (heard : List EventData) → HasHeard self.old heard → HasHeard self.new (heard ++ events.now) };
}
