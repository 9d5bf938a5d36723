//! Laws over the definitions of notes. Each function ensures one, and does nothing.

ghost use Rattle.std.specs.Prelude.{◌≢◌, ◌≤◌, ℕ, List, length};
ghost use Rattle.std.specs.List.{All};
ghost use Rattle.pmb_bus.specs.declared.event.Event.{Event};
ghost use Rattle.pmb_bus.specs.Event.{character};
ghost use Rattle.pmb_command.specs.Bus.{IsBus};
ghost use Rattle.pmb_command.specs.Parts.{DeviceParts};
ghost use Rattle.pmb_transaction.specs.Packet.{Packet};
ghost use Rattle.pmb_transaction.specs.Transaction.{TransactionData};
ghost use Rattle.pmb_note.specs.Note.{note};

/// The note of a transaction that has a packet, under a profile that is accepted and after any
/// transactions, is one line of 8,192 bytes at most.
pub fn notes_are_short()
    ensures one { (profile : List DeviceParts) (before : List TransactionData) (t : TransactionData) (events : List Event) → IsBus profile
        → Packet profile t events → All (λ b. b ≢ character "\n") (note profile before t) }
    ensures short { (profile : List DeviceParts) (before : List TransactionData) (t : TransactionData) (events : List Event) → IsBus profile
        → Packet profile t events → length (note profile before t) ≤ 8192 }
{}
