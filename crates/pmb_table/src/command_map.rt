//! The commands of a device, in their order.
//!
//! Each packet looks a command up by its code. To save it the hash, `places` says for each code
//! where its command stands. A code without a command has a place too, which says nothing: `get`
//! looks whether the command there has the code.

ghost use Rattle.std.specs.Prelude.{◌≡◌, None, [], length, map, nat_eq, option_map, slice_get, IfOk, OnOk, OnErr};
ghost use Rattle.indexmap.specs.IndexMap.{insert_entry};
ghost use Rattle.pmb_keys.specs.CommandView.{command_parts};
ghost use Rattle.pmb_command.specs.Parts.{HaveOwnCodes, command_with};
ghost use Rattle.pmb_table.specs.Profile.{put};
ghost use Rattle.pmb_table.specs.machine.CommandMap.{bare_command, bare_entry};

use indexmap::IndexMap;
use pmb_keys::Command;
use std::alloc::{AllocError, Global};
use std::marker::Model;

/// The commands of a device in their order, no two of which have one code.
#[derive(Debug, Drop)]
pub(crate) struct CommandMap {
    /// Each command, at its code.
    commands: IndexMap<u8, Command>,
    /// For the code of each command its index.
    places: [u8; 256],
}

impl Model for CommandMap {
    ghost use Rattle.std.specs.Prelude.{List};
    ghost use Rattle.pmb_command.specs.Parts.{CommandParts};
    ghost use Rattle.pmb_table.specs.machine.CommandMap.{IsFoundByCode, commands_view};

    ghost Value = { List CommandParts };

    ghost view = { λ m. commands_view m.commands.entries };

    ghost invariant = { λ m. IsFoundByCode m.commands.entries m.places };
}

/// Puts a command at a code, without the bytes that it has at first and the names of its bits.
fn insert_bare(
    copy: &mut IndexMap<u8, Command>,
    code: u8,
    command: &Command,
) -> Result<(), AllocError>
    ensures { OnOk result (copy.new.entries ≡ insert_entry nat_eq copy.old.entries code (bare_entry (code, command.now)).1) }
{
    let bare = Command {
        entry: command.entry,
        initial: None,
        unit: command.unit,
        bits: None,
        phased: command.phased,
    };
    copy.insert(code, bare)?;
    Ok(())
}

/// A copy of commands at their codes, without the bytes that they have at first and the names of
/// their bits.
fn bare_copy(
    alloc: Global,
    commands: &IndexMap<u8, Command>,
) -> Result<IndexMap<u8, Command>, AllocError>
    ensures { IfOk result (λ copy. copy.entries ≡ map bare_entry commands.now.entries) }
{
    let mut copy = IndexMap::with_capacity(alloc, commands.len())?;
    for (code, command) in commands {
        insert_bare(&mut copy, *code, command)?;
    }
    Ok(copy)
}

impl CommandMap {
    /// No commands.
    pub fn new(alloc: Global) -> Self
        ensures empty { result ≡ [] }
        ensures own_codes { HaveOwnCodes result }
    {
        CommandMap {
            commands: IndexMap::new(alloc),
            places: [0; 256],
        }
    }

    /// No commands, with room for some.
    pub fn with_capacity(alloc: Global, capacity: usize) -> Result<Self, AllocError>
        ensures empty { IfOk result (λ commands. commands ≡ []) }
        ensures own_codes { IfOk result HaveOwnCodes }
    {
        Ok(CommandMap {
            commands: IndexMap::with_capacity(alloc, capacity)?,
            places: [0; 256],
        })
    }

    /// A copy of the commands, without the bytes that they have at first and the names of their bits.
    pub fn bare(&self, alloc: Global) -> Result<Self, AllocError>
        ensures { IfOk result (λ copy. copy ≡ map bare_command self.now) }
    {
        let commands = bare_copy(alloc, &self.commands)?;
        Ok(CommandMap {
            commands,
            places: self.places,
        })
    }

    /// Puts a command in the place of the one that has its code, or at the end where none has.
    pub fn put(&mut self, command: Command) -> Result<(), AllocError>
        ensures ok { OnOk result (self.new ≡ put (command_parts command) self.old) }
        ensures err { OnErr result (self.new ≡ self.old) }
        ensures own_codes { HaveOwnCodes self.new }
    {
        let code = command.entry.code;
        let (place, _replaced) = self.commands.insert_full(code, command)?;
        self.places[code as usize] = place as u8;
        Ok(())
    }

    /// How many commands there are.
    pub fn len(&self) -> usize
        ensures len { result ≡ length self.now }
        ensures own_codes { HaveOwnCodes self.now }
    {
        self.commands.len()
    }

    /// The command with a code. A device answers `entry` and `initial` by it.
    pub fn get(&self, code: u8) -> Option<&Command>
        ensures { option_map (λ c. command_parts c.now) result ≡ command_with code self.now }
    {
        let place = self.places[code as usize] as usize;
        let command = self.at(place)?;
        if command.entry.code == code {
            Some(command)
        } else {
            None
        }
    }

    /// The command at an index.
    pub fn at(&self, index: usize) -> Option<&Command>
        ensures { option_map (λ c. command_parts c.now) result ≡ slice_get self.now index }
    {
        match self.commands.get_index(index) {
            Some((_, command)) => Some(command),
            None => None,
        }
    }
}
