//! Laws over the definitions that the contracts cite: each is the contract of a function that does
//! nothing.
ghost use Rattle.std.specs.Prelude.{◌≡◌, ◌≢◌, ℕ, List, [], Some, true};
ghost use Rattle.std.specs.Bool.{Decides};
ghost use Rattle.pmb_command.specs.declared.form.Form.{Form};
ghost use Rattle.pmb_command.specs.Entry.{EntryParts};
ghost use Rattle.pmb_command.specs.Fitting.{same_form, value_form};
ghost use Rattle.pmb_command.specs.Commands.{code_of_name, standard_entry};
ghost use Rattle.pmb_command.specs.Standard.{IsNamed, HasNamedBits, IsStandardAt, are_bits_of};
ghost use Rattle.pmb_command.specs.StatusBits.{status_bits};

/// The standard entry of a code has that code and a name of its own, of at most 32 bytes, and its
/// data are no number in DIRECT, and in LINEAR11 with no fixed exponent.
pub fn standard_entries_are_sound()
    ensures { (code : ℕ) (e : EntryParts) → standard_entry code ≡ Some e → IsStandardAt code e }
{}

/// The code of a name is a byte, and has a standard entry with that name.
pub fn names_are_of_entries()
    ensures { (name : List ℕ) (code : ℕ) → code_of_name name ≡ Some code → IsNamed name code }
{}

/// Forms are the same to the definitions exactly where they are equal.
pub fn forms_are_told_apart()
    ensures { (form : Form) (other : Form) → Decides (same_form form other) (form ≡ other) }
{}

/// Each standard status command has a name, or a gap, for each of its 8 or 16 bits, but for those
/// whose bits have no names here; and no other code has names of bits.
pub fn status_commands_have_names()
    ensures each { (code : ℕ) (status : HasNamedBits code) → are_bits_of (value_form status.entry.shape) (status_bits code) ≡ true }
    ensures only { (code : ℕ) → status_bits code ≢ [] → HasNamedBits code }
{}
