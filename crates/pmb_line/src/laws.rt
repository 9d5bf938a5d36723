//! Laws over the definitions of lines. Each function ensures one, and does nothing.
//!
//! Its rows: `tests_lines`, `src/lines/laws.rt`, where each law is called.

ghost use Rattle.std.specs.Prelude.{◌≡◌, ◌≢◌, ◌≤◌, ◌⊎◌, ℕ, List, ◌++◌, codes, length};
ghost use Rattle.std.specs.List.{All};
ghost use Rattle.pmb_bus.specs.declared.event.Event.{Event};
ghost use Rattle.pmb_bus.specs.Event.{character};
ghost use Rattle.pmb_command.specs.Bus.{IsBus};
ghost use Rattle.pmb_command.specs.Parts.{DeviceParts};
ghost use Rattle.pmb_transaction.specs.Packet.{Packet};
ghost use Rattle.pmb_transaction.specs.Transaction.{TransactionData};
ghost use Rattle.pmb_line.specs.declared.line_fault.LineFault.{LineFault};
ghost use Rattle.pmb_line.specs.LineFault.{IsLineFault, Parses};
ghost use Rattle.pmb_line.specs.Words.{texts, line_words};
ghost use Rattle.pmb_line.specs.Spelling.{HasBytes, HasLine, SpellsTransaction, line};

use pmb_transaction::laws::bodies_are_short;
use pmb_writer::laws::packet_or_fault;

/// Words spell one transaction at most.
pub fn one_transaction()
    ensures { (ws : List (List ℕ)) (t u : TransactionData) → SpellsTransaction ws t → SpellsTransaction ws u → t ≡ u }
{}

/// The line that is written for a transaction of bytes spells it, and no other transaction.
pub fn line_spells()
    ensures spells { (t : TransactionData) → HasLine t → HasBytes t → SpellsTransaction (texts (line_words (line t))) t }
    ensures alone { (t u : TransactionData) → HasLine t → HasBytes t → SpellsTransaction (texts (line_words (line t))) u → t ≡ u }
{}

/// The line of a transaction that has a packet, under a profile that is accepted, spells it, and no
/// other transaction.
pub fn packet_has_line()
    ensures spells { (profile : List DeviceParts) (t : TransactionData) (events : List Event) → IsBus profile → Packet profile t events
        → SpellsTransaction (texts (line_words (line t))) t }
    ensures alone { (profile : List DeviceParts) (t u : TransactionData) (events : List Event) → IsBus profile → Packet profile t events
        → SpellsTransaction (texts (line_words (line t))) u → t ≡ u }
{}

/// With a comment after it, the line of such a transaction spells it too.
pub fn comments_say_nothing()
    ensures { (profile : List DeviceParts) (t : TransactionData) (events : List Event) (comment : List ℕ) → IsBus profile → Packet profile t events
        → SpellsTransaction (texts (line_words (line t ++ (codes " # " ++ comment)))) t }
{}

/// The line of such a transaction is one line, of 12,544 bytes at most.
pub fn lines_are_short()
    ensures one { (t : TransactionData) → All (λ b. b ≢ character "\n") (line t) }
    ensures short { (profile : List DeviceParts) (t : TransactionData) (events : List Event) → Packet profile t events → length (line t) ≤ 12544 }
{
    bodies_are_short();
}

/// A line has one fault at most, under any profile.
pub fn one_line_fault()
    ensures { (profile : List DeviceParts) (line : List ℕ) (a b : LineFault) → IsLineFault profile line a → IsLineFault profile line b → a ≡ b }
{}

/// A line with a fault spells no transaction that has a packet, under an accepted profile.
pub fn no_parse_with_a_fault()
    ensures { (profile : List DeviceParts) (line : List ℕ) (fault : LineFault) (t : TransactionData) → IsBus profile → IsLineFault profile line fault
        → Parses profile line t → ⊥ }
{
    bodies_are_short();
}

/// A line spells a transaction that has a packet, or has a first fault, under any profile.
pub fn parse_or_fault()
    ensures { (profile : List DeviceParts) (line : List ℕ) → ((t : TransactionData) × Parses profile line t) ⊎ ((fault : LineFault) × IsLineFault profile line fault) }
{
    packet_or_fault();
}
