//! What a device needs that keeps to WRITE_PROTECT.
//!
//! Its rows: `tests/rows/profiles.txt`.

ghost use Rattle.std.specs.Prelude.{◌≡◌, option_map};
ghost use Rattle.pmb_command.specs.Parts.{command_with, initial_on};
ghost use Rattle.pmb_command.specs.Protection.{begins_protected, can_protect, is_first_protection};
ghost use Rattle.pmb_keys.specs.CommandView.{initial_parts};
ghost use Rattle.pmb_keys.specs.Rules.{bind, unless};
ghost use Rattle.pmb_table.specs.Profile.{first_protection_fits, protection_fits};

use crate::command_map::CommandMap;
use pmb_command::{Form, Kind, is_protection};
use pmb_keys::{FaultKind, Initial};

/// WRITE_PROTECT.
const WRITE_PROTECT: u8 = 0x10;

/// Whether WRITE_PROTECT is a byte that is written and read, one for all pages, and no status bits.
fn can_protect(commands: &CommandMap) -> bool
    ensures { result ≡ can_protect (command_with 0x10 commands.now) }
{
    match commands.get(WRITE_PROTECT) {
        Some(command) => {
            matches!(command.entry.shape.write, Some(Form::One))
                && matches!(command.entry.shape.read, Some(Form::One))
                && !command.entry.paged
                && !matches!(command.entry.kind, Kind::Status)
        }
        None => false,
    }
}

/// Whether WRITE_PROTECT may begin with what a profile gives it, if it gives something.
fn is_first_protection(initial: Option<&Initial>) -> bool
    ensures { result ≡ is_first_protection (initial_on 0 (option_map (λ i. initial_parts i.now) initial.entry)) }
{
    match initial {
        Some(initial) => match initial.on(0) {
            Some(bytes) => is_protection(bytes),
            None => true,
        },
        None => true,
    }
}

/// Whether WRITE_PROTECT, if it is there, begins with one of its four values.
fn begins_protected(commands: &CommandMap) -> bool
    ensures { result ≡ begins_protected (command_with 0x10 commands.now) }
{
    match commands.get(WRITE_PROTECT) {
        Some(command) => is_first_protection(command.initial.as_ref()),
        None => true,
    }
}

/// Refuses a device that keeps to WRITE_PROTECT and has no such byte, or one that begins with
/// another value than its four.
pub(crate) fn check_protection(commands: &CommandMap, protect: bool) -> Result<(), FaultKind>
    ensures { result ≡ bind (unless FaultKind.BadValue (protection_fits protect commands.now)) (λ _. unless FaultKind.BadInitial (first_protection_fits protect commands.now)) }
{
    if protect && !can_protect(commands) {
        return Err(FaultKind::BadValue);
    }
    if protect && !begins_protected(commands) {
        return Err(FaultKind::BadInitial);
    }
    Ok(())
}
