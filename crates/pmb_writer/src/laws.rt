//! Laws over the definitions that the contracts cite: each function is its contract, and does
//! nothing.

ghost use Rattle.std.specs.Prelude.{◌≡◌, ◌⊎◌, List};
ghost use Rattle.pmb_command.specs.Bus.{IsBus};
ghost use Rattle.pmb_command.specs.Parts.{DeviceParts};
ghost use Rattle.pmb_transaction.specs.Transaction.{TransactionData};
ghost use Rattle.pmb_writer.specs.declared.invalid.Invalid.{Invalid};
ghost use Rattle.pmb_writer.specs.Invalid.{HasPacket, IsFirstFault};
ghost use Rattle.pmb_writer.specs.Typed.{IsTyped};

/// A transaction has one first fault at most.
pub fn one_first_fault()
    ensures { (profile : List DeviceParts) (t : TransactionData) (a b : Invalid) → IsFirstFault profile t a → IsFirstFault profile t b → a ≡ b }
{}

/// A transaction with a fault has no packet under an accepted profile.
pub fn no_packet_with_a_fault()
    ensures { (profile : List DeviceParts) (t : TransactionData) (fault : Invalid) → IsBus profile → IsFirstFault profile t fault → HasPacket profile t → ⊥ }
{}

/// A transaction that is one of the type's has a packet, or a first fault.
pub fn packet_or_fault()
    ensures { (profile : List DeviceParts) (t : TransactionData) → IsTyped t → HasPacket profile t ⊎ ((fault : Invalid) × IsFirstFault profile t fault) }
{}
