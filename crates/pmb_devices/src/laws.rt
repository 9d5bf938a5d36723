//! Laws on what a bus of devices records, and what its devices become: each function is its contract,
//! and does nothing.

ghost use Rattle.std.specs.Prelude.{◌≡◌, List, [], ◌∷◌, ◌++◌, map};
ghost use Rattle.std.specs.List.{Contains};
ghost use Rattle.pmb_bus.specs.declared.event.Event.{Event};
ghost use Rattle.pmb_bus.specs.declared.event.Event.TheVariants.{Stop};
ghost use Rattle.pmb_command.specs.Parts.{DeviceParts};
ghost use Rattle.pmb_command.specs.Bus.{IsBus};
ghost use Rattle.pmb_transaction.specs.Transaction.{TransactionData};
ghost use Rattle.pmb_transaction.specs.Packet.{Packet};
ghost use Rattle.pmb_transaction.specs.Capture.{HasNoStop};
ghost use Rattle.pmb_transaction.specs.Reading.{Accepted, Outcome, Reading};
ghost use Rattle.pmb_registers.specs.State.{DeviceState, InState};
ghost use Rattle.pmb_registers.specs.Apply.{apply};
ghost use Rattle.pmb_device.specs.Legs.{Outside};
ghost use Rattle.pmb_devices.specs.Bus.{AreAnswered, AnsweredSignal, recorded_events, legs_after};
ghost use Rattle.pmb_devices.specs.Runs.{AreStopped, IsTruncation, Runs, all_after, first_members, run_events};
ghost use Rattle.pmb_devices.specs.Stops.{EndsOn};

use pmb_transaction::laws::{
    packet_ends_with_stop, packets_under_way, refused_events_have_a_reason,
};

/// Where what is recorded since the last STOP is, with STOP, the packet of a transaction, STOP makes of
/// each device what the transaction makes of it.
pub fn transactions_are_applied()
    ensures { (profile : List DeviceParts) (members : List InState) (history : List AnsweredSignal) (t : TransactionData)
        (member : InState) (after : DeviceState) → IsBus profile → map (λ m. m.device) members ≡ profile
        → AreAnswered members Outside history → Packet profile t (recorded_events history ++ Stop ∷ [])
        → Contains members member → EndsOn profile (legs_after Outside history) member.device member.state after
        → after ≡ apply member.device t member.state }
{}

/// Where the reading of events up to a STOP ends with a transaction, whatever was refused before, its
/// packet is what came since the STOP before.
pub fn transactions_end_at_one_stop()
    ensures { (profile : List DeviceParts) (before since : List Event) (outcomes : List Outcome) (t : TransactionData)
        → AreStopped before → HasNoStop since → Reading profile (before ++ (since ++ Stop ∷ [])) (outcomes ++ Accepted t ∷ [])
        → Packet profile t (since ++ Stop ∷ []) }
{
    packet_ends_with_stop();
    packets_under_way();
}

/// Where of what was recorded since the bus was made nothing is refused but an end inside a packet, the
/// devices are what the transactions that were read make of them, one after the other.
pub fn transactions_are_applied_in_turn()
    ensures { (profile : List DeviceParts) (stretches : List (List AnsweredSignal)) (now : List InState) (history : List AnsweredSignal)
        (ts : List TransactionData) (end : List Outcome) → IsBus profile
        → Runs (first_members profile) stretches now → AreAnswered now Outside history
        → Reading profile (run_events stretches ++ recorded_events history) (map Accepted ts ++ end) → IsTruncation end
        → now ≡ all_after ts (first_members profile) }
{
    packet_ends_with_stop();
    packets_under_way();
    refused_events_have_a_reason();
}
