//! Laws over the definitions. Each function is its contract, and does nothing.
//!
//! Its rows: `tests_packets`, `src/said/example.rt`, where the law is called.

ghost use Rattle.std.specs.Prelude.{List};
ghost use Rattle.pmb_bus.specs.declared.event.Event.{Event};
ghost use Rattle.pmb_command.specs.Parts.{DeviceParts};
ghost use Rattle.pmb_transaction.specs.Capture.{Viable};
ghost use Rattle.pmb_partial_packet.specs.PartialPacket.{LegsAreShort};

use pmb_transaction::laws::bodies_are_short;

/// In events that some packet begins with, no leg has more than 258 bytes after its address.
pub fn legs_are_short()
    ensures { (profile : List DeviceParts) (events : List Event) → Viable profile events → LegsAreShort events }
{
    bodies_are_short();
}
