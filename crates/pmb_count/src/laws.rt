//! A law on readers inside a capture: a function that is its contract, and does nothing.

ghost use Rattle.std.specs.Prelude.{List, [], ◌∷◌, ◌++◌};
ghost use Rattle.pmb_bus.specs.declared.event.Event.{Event};
ghost use Rattle.pmb_command.specs.Parts.{DeviceParts};
ghost use Rattle.pmb_command.specs.Bus.{IsBus};
ghost use Rattle.pmb_transaction.specs.Transaction.{TransactionData};
ghost use Rattle.pmb_transaction.specs.Capture.{Capture};
ghost use Rattle.pmb_transaction.specs.Reading.{Outcome, Refusal, RefusalData};
ghost use Rattle.pmb_reader.specs.declared.reader.Reader.{Reader};
ghost use Rattle.pmb_reader.specs.Reading.{HasRead, HeldEvent};

use pmb_transaction::laws::{
    captures_read_as_written, each_list_has_a_reading, events_are_passed_over,
};

/// Inside the capture of transactions no reader refuses an event, under a profile that is accepted:
/// none that has read a front of it holds a refusal of the next event.
pub fn captures_are_not_refused()
    ensures { (profile : List DeviceParts) (ts : List TransactionData) (reader : Reader) (events more : List Event) (event : Event)
        (outcomes : List Outcome) (refusal : RefusalData) → IsBus profile → Capture profile ts (events ++ event ∷ more)
        → HasRead profile reader events (HeldEvent event) (outcomes ++ Refusal refusal ∷ []) → ⊥ }
{
    captures_read_as_written();
    each_list_has_a_reading();
    events_are_passed_over();
}
