//! The standard commands, which most devices of a profile begin with.
//!
//! The standard's table is searched once a profile, for the first device that has its commands. What
//! was found is kept, and each further device gets a copy of it.
//!
//! Its rows: `tests_commands`, `src/standard_commands.rt`, `src/sample.rt`.

ghost use Rattle.std.specs.Prelude.{◌≡◌, IfOk};
ghost use Rattle.std.specs.List.{AllByRecursion};
ghost use Rattle.pmb_command.specs.Bus.{IsCommand};
ghost use Rattle.pmb_command.specs.Parts.{HaveOwnCodes};
ghost use Rattle.pmb_table.specs.Profile.{standard_commands};

use crate::command_map::CommandMap;
use pmb_command::{laws, standard};
use pmb_keys::Command;
use std::alloc::{AllocError, Global};
use std::marker::Model;

/// How many codes there are.
const CODES: usize = 256;

/// The standard commands, once a device has had them.
#[derive(Drop)]
pub(crate) struct StandardCommands {
    /// All of them, or none so far.
    commands: CommandMap,
}

impl Model for StandardCommands {
    ghost use Rattle.pmb_table.specs.machine.StandardCommands.{AreAllOrNone};

    ghost Value = { Unit };

    ghost view = { λ s. tt };

    ghost invariant = { λ s. AreAllOrNone s.commands };
}

/// The standard commands, in the order of their codes.
fn standard_ones(alloc: Global) -> Result<CommandMap, AllocError>
    ensures commands { IfOk result (λ commands. commands ≡ standard_commands) }
    ensures own_codes { IfOk result HaveOwnCodes }
    ensures accepted { IfOk result (λ commands. AllByRecursion IsCommand commands) }
{
    laws::standard_entries_are_sound();
    let mut commands = CommandMap::with_capacity(alloc, CODES)?;
    for code in 0u16..256 {
        if let Some(entry) = standard(code as u8) {
            commands.put(Command::standard(entry))?;
        }
    }
    Ok(commands)
}

impl StandardCommands {
    /// None so far.
    pub fn new(alloc: Global) -> Self {
        StandardCommands {
            commands: CommandMap::new(alloc),
        }
    }

    /// The standard commands, in the order of their codes.
    pub fn commands(&mut self, alloc: Global) -> Result<CommandMap, AllocError>
        ensures commands { IfOk result (λ commands. commands ≡ standard_commands) }
        ensures own_codes { IfOk result HaveOwnCodes }
        ensures accepted { IfOk result (λ commands. AllByRecursion IsCommand commands) }
    {
        if self.commands.len() > 0 {
            let copy = self.commands.bare(alloc)?;
            return Ok(copy);
        }
        let found = standard_ones(alloc)?;
        let kept = found.bare(alloc)?;
        self.commands = kept;
        Ok(found)
    }
}
