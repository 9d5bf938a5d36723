//! Laws over the definitions of what is built. Each function ensures one, and does nothing.

ghost use Rattle.std.specs.Prelude.{◌≡◌, ℕ, List, ◌++◌};
ghost use Rattle.pmb_command.specs.Bus.{IsBus};
ghost use Rattle.pmb_command.specs.Parts.{DeviceParts};
ghost use Rattle.pmb_io.specs.declared.tally.Tally.{Tally};
ghost use Rattle.pmb_build.specs.Lines.{BuildsEnded, BuildsInput};

use pmb_io::laws::ended_lines_stay;
use pmb_line::laws::{no_parse_with_a_fault, one_line_fault, one_transaction, parse_or_fault};
use pmb_transaction::laws::one_packet;

/// What is built of bytes, and its tally, is a function of the bytes under a profile that is accepted.
pub fn one_building()
    ensures { (profile : List DeviceParts) (bytes a b : List ℕ) (s t : Tally) → IsBus profile
        → BuildsInput profile s bytes a → BuildsInput profile t bytes b → (a ≡ b) × (s ≡ t) }
{
    one_transaction();
    one_packet();
    one_line_fault();
    no_parse_with_a_fault();
}

/// Some text, with its tally, is what is built of any bytes, under any profile.
pub fn some_building()
    ensures { (profile : List DeviceParts) (bytes : List ℕ) → (text : List ℕ) × (tally : Tally) × BuildsInput profile tally bytes text }
{
    parse_or_fault();
}

/// What is built of the lines that have ended in some bytes is a function of these bytes, and a front
/// of what is built of them and whatever follows.
pub fn ended_lines_come_first()
    ensures one { (profile : List DeviceParts) (bytes a b : List ℕ) → IsBus profile
        → BuildsEnded profile bytes a → BuildsEnded profile bytes b → a ≡ b }
    ensures front { (profile : List DeviceParts) (bytes more a b : List ℕ) (tally : Tally) → IsBus profile
        → BuildsEnded profile bytes a → BuildsInput profile tally (bytes ++ more) b → (rest : List ℕ) × (b ≡ a ++ rest) }
{
    ended_lines_stay();
    one_transaction();
    one_packet();
    one_line_fault();
    no_parse_with_a_fault();
}
