//! Laws on what devices hold, and on their replies to a host that reads by Asks alone: each
//! function is its contract, and does nothing.

ghost use Rattle.std.specs.Prelude.{◌≡◌, Some, Ok, List, [], ◌∷◌, ◌++◌};
ghost use Rattle.std.specs.List.{Contains};
ghost use Rattle.pmb_bus.specs.declared.event.Event.TheVariants.{Stop};
ghost use Rattle.pmb_command.specs.declared.form.Form.{Form};
ghost use Rattle.pmb_command.specs.Parts.{DeviceParts};
ghost use Rattle.pmb_command.specs.Bus.{IsBus};
ghost use Rattle.pmb_command.specs.Wire.{wire};
ghost use Rattle.pmb_transaction.specs.Transaction.{CallData, ReadData, Call, Read};
ghost use Rattle.pmb_transaction.specs.Body.{forms};
ghost use Rattle.pmb_transaction.specs.Packet.{Packet};
ghost use Rattle.pmb_registers.specs.State.{InState};
ghost use Rattle.pmb_registers.specs.Answer.{answer};
ghost use Rattle.pmb_device.specs.Legs.{Outside};
ghost use Rattle.pmb_devices.specs.Bus.{AreAnswered, AnsweredSignal, recorded_events, legs_after};
ghost use Rattle.pmb_devices.specs.Runs.{Runs, first_members};
ghost use Rattle.pmb_devices.specs.Replies.{HasAddressAlone, IsState};

/// The state of each device fits it, whatever the bus went through since it was made.
pub fn states_fit()
    ensures { (profile : List DeviceParts) (stretches : List (List AnsweredSignal)) (now : List InState) (member : InState) → IsBus profile
        → Runs (first_members profile) stretches now → Contains now member → IsState member.device member.state }
{}

/// Where what is recorded since the last STOP is, with STOP, the packet of a read or a call, and
/// the host sent no byte after the address for reading, the reply is the device's answer in its
/// state before.
pub fn replies_are_answers()
    ensures read { (profile : List DeviceParts) (stretches : List (List AnsweredSignal)) (now : List InState) (history : List AnsweredSignal)
        (t : ReadData) (member : InState) → IsBus profile → Runs (first_members profile) stretches now
        → AreAnswered now Outside history → Packet profile (Read t) (recorded_events history ++ Stop ∷ [])
        → HasAddressAlone (legs_after Outside history) → Contains now member → member.device.address ≡ t.addr
        → answer member.device member.state (t.code ∷ []) ≡ Ok t.reply }
    ensures call { (profile : List DeviceParts) (stretches : List (List AnsweredSignal)) (now : List InState) (history : List AnsweredSignal)
        (t : CallData) (member : InState) (form : Form) → IsBus profile → Runs (first_members profile) stretches now
        → AreAnswered now Outside history → Packet profile (Call t) (recorded_events history ++ Stop ∷ [])
        → HasAddressAlone (legs_after Outside history) → Contains now member → member.device.address ≡ t.addr
        → (forms member.device t.code).call ≡ Some form
        → answer member.device member.state (t.code ∷ wire form t.bytes) ≡ Ok t.reply }
{}
