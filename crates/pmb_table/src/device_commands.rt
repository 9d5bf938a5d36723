//! The commands of a device, as the tables of a profile change the standard ones.
//!
//! Its rows: `tests_commands`, `src/parts.rt`, `src/sample.rt`; `tests/rows/profiles.txt`.

ghost use Rattle.std.specs.Prelude.{ℕ, ◌≡◌, ◌⊎◌, ◌≤◌, [], length, Ok, Err, IfOk, if◌then◌else◌};
ghost use Rattle.std.specs.List.{AllByRecursion};
ghost use Rattle.toml.specs.View.{view, items_view};
ghost use Rattle.pmb_keys.specs.Rules.{bind};
ghost use Rattle.pmb_table.specs.machine.CommandMap.{AreTaken, IsCommandOf, Taken, after_one};
ghost use Rattle.pmb_command.specs.Parts.{HaveOwnCodes, IsNew};
ghost use Rattle.pmb_keys.specs.CommandRules.{command_of};
ghost use Rattle.pmb_keys.specs.CommandView.{command_parts};
ghost use Rattle.pmb_table.specs.Profile.{at_command, at_top, placed, standard_commands, commands_after};

use crate::command_map::CommandMap;
use crate::fault::ProfileFault;
use crate::place;
use crate::standard_commands::StandardCommands;
use arrayvec::ArrayVec;
use pmb_keys::{Command, FaultKind, read_command};
use std::alloc::{AllocError, Global};
use toml::Value;

/// The commands of a device before the tables of the profile: the standard ones, or none.
pub(crate) fn first_commands(
    alloc: Global,
    standard: &mut StandardCommands,
    has_standard: bool,
) -> Result<CommandMap, AllocError>
    ensures commands { IfOk result (λ commands. commands ≡ (if has_standard then standard_commands else [])) }
    ensures own_codes { IfOk result HaveOwnCodes }
    ensures accepted { IfOk result (λ commands. (pages : ℕ) → AllByRecursion (IsCommandOf pages) commands) }
{
    if has_standard {
        standard.commands(alloc)
    } else {
        Ok(CommandMap::new(alloc))
    }
}

/// The code of a command.
fn code_of(command: &Command) -> u8
    ensures { result ≡ command.now.entry.code }
{
    command.entry.code
}

/// Reads a table of a device with so many pages, where the tables before it have the codes `taken`; its
/// fault lies there.
fn read_placed(
    alloc: Global,
    device: u8,
    pages: u8,
    value: &Value,
    taken: &[u8],
) -> Result<Command, ProfileFault>
    requires { length taken.now ≤ 256 }
    ensures read { (result ≡ Err (at_top FaultKind.OutOfMemory)) ⊎ (bind result (λ c. Ok (command_parts c)) ≡ placed (at_command device (length taken.now)) (command_of pages taken.now (view value.now))) }
    ensures accepted { IfOk result (λ c. IsCommandOf pages (command_parts c)) }
    ensures own_code { IfOk result (λ c. IsNew c.entry.code taken.now) }
{
    match read_command(alloc, value, pages, taken) {
        Ok(command) => Ok(command),
        Err(what) => Err(place::in_command(device, taken.len() as u16, what)),
    }
}

/// Reads one more table of a device, where the tables before it have the codes `taken`.
fn read_next(
    alloc: Global,
    device: u8,
    pages: u8,
    taken: &mut ArrayVec<u8, 256>,
    commands: &mut CommandMap,
    value: &Value,
) -> Result<(), ProfileFault>
    requires { AreTaken taken.old.items }
    ensures read { (result ≡ Err (at_top FaultKind.OutOfMemory)) ⊎ (bind {Y = Taken} result (λ _. Ok (taken.new.items, commands.new)) ≡ after_one device pages (taken.old.items, commands.old) (view value.now)) }
    ensures taken { AreTaken taken.new.items }
    ensures own_codes { HaveOwnCodes commands.old → HaveOwnCodes commands.new }
    ensures accepted { AllByRecursion (IsCommandOf pages) commands.old → AllByRecursion (IsCommandOf pages) commands.new }
{
    let command = match read_placed(alloc, device, pages, value, taken.as_slice()) {
        Ok(command) => command,
        Err(fault) => return Err(fault),
    };
    let code = code_of(&command);
    taken.push(code);
    match commands.put(command) {
        Ok(()) => Ok(()),
        Err(error) => Err(place::no_memory(error)),
    }
}

/// The commands of a device after its tables.
pub(crate) fn read_commands(
    alloc: Global,
    device: u8,
    pages: u8,
    first: CommandMap,
    values: &[Value],
) -> Result<CommandMap, ProfileFault>
    requires own_codes { HaveOwnCodes first }
    requires accepted { AllByRecursion (IsCommandOf pages) first }
    ensures read { (result ≡ Err (at_top FaultKind.OutOfMemory)) ⊎ (result ≡ commands_after device pages [] first (items_view values.now)) }
    ensures own_codes { IfOk result HaveOwnCodes }
    ensures accepted { IfOk result (λ commands. AllByRecursion (IsCommandOf pages) commands) }
{
    let mut taken = ArrayVec::new();
    let mut commands = first;
    for value in values {
        match read_next(alloc, device, pages, &mut taken, &mut commands, value) {
            Ok(()) => {}
            Err(fault) => return Err(fault),
        }
    }
    Ok(commands)
}
