//! Room for a command of a device.
//!
//! Its rows: `tests/rows/stats.txt`.

ghost use Rattle.std.specs.Prelude.{◌≡◌, [], IfOk, Some, option_map};
ghost use Rattle.pmb_json_objects.specs.Seen.{command_of};
ghost use Rattle.pmb_keys.specs.CommandView.{command_parts};
ghost use Rattle.pmb_stats_room.specs.machine.Beginning.{AreFresh, BeginsCommand, HasFreshSlots};
ghost use Rattle.pmb_stats_room.specs.machine.Finding.{in_command};
ghost use Rattle.pmb_stats_room.specs.machine.Seeing.{CommandSees, SlotsSee};
ghost use Rattle.pmb_stats_room.specs.machine.Sights.{IsShort};

use crate::places::Places;
use crate::sight::Sight;
use crate::slot::{Slot, SlotKind, kept_as};
use pmb_keys::Command;
use pmb_observed::Spot;
use pmb_table::DeviceProfile;
use std::alloc::{AllocError, Global};

/// What is kept of a command of a device.
#[derive(Drop)]
pub(crate) struct CommandRoom {
    /// How many pages and phases there are.
    places: Places,
    /// What is kept of each, in its place; nothing of a command that has neither bits nor numbers.
    slots: Vec<Slot>,
}

impl CommandRoom {
    /// Room for the command with a code, if the device has it. Nothing was seen.
    pub(crate) fn new(
        alloc: Global,
        device: &DeviceProfile,
        code: u8,
    ) -> Result<CommandRoom, AllocError>
        ensures { IfOk result (BeginsCommand device.now (command_of (Some device.now) code)) }
    {
        match device.command(code) {
            Some(command) => CommandRoom::of_command(alloc, device, command),
            None => Ok(CommandRoom::empty(alloc)),
        }
    }

    /// No room.
    fn empty(alloc: Global) -> CommandRoom
        ensures { result.slots.items ≡ [] }
    {
        CommandRoom {
            places: Places {
                pages: None,
                phases: None,
            },
            slots: Vec::new(alloc),
        }
    }

    /// Room for a command of a device.
    fn of_command(
        alloc: Global,
        device: &DeviceProfile,
        command: &Command,
    ) -> Result<CommandRoom, AllocError>
        ensures { IfOk result (BeginsCommand device.now (Some (command_parts command.now))) }
    {
        match kept_as(command.entry.kind) {
            Some(kind) => CommandRoom::of_kind(alloc, Places::of(device, command), kind),
            None => Ok(CommandRoom::empty(alloc)),
        }
    }

    /// Room for what is kept of a command.
    fn of_kind(alloc: Global, places: Places, kind: SlotKind) -> Result<CommandRoom, AllocError>
        ensures { IfOk result (HasFreshSlots kind places) }
    {
        let slots = fresh_slots(alloc, kind, places.count())?;
        Ok(CommandRoom { places, slots })
    }

    /// What is kept of a spot of this command.
    pub(crate) fn slot(&self, spot: Spot) -> Option<&Slot>
        ensures { option_map (λ slot. slot.now) result ≡ in_command self.now spot }
    {
        let place = self.places.place(spot)?;
        self.slots.get(place)
    }

    /// Takes what is seen of a spot of this command.
    pub(crate) fn see(&mut self, spot: Spot, sight: Sight<'_>)
        requires { IsShort sight }
        ensures { CommandSees spot sight.entry self.old self.new }
    {
        if let Some(place) = self.places.place(spot) {
            self.see_at(place, sight);
        }
    }

    /// Takes what is seen of the spot of a place.
    fn see_at(&mut self, place: usize, sight: Sight<'_>)
        requires { IsShort sight }
        ensures places { self.new.places ≡ self.old.places }
        ensures slots { SlotsSee place sight.entry self.old.slots.items self.new.slots.items }
    {
        if let Some(slot) = self.slots.get_mut(place) {
            slot.see(sight);
        }
    }
}

/// So many slots, in which nothing was seen.
fn fresh_slots(alloc: Global, kind: SlotKind, count: usize) -> Result<Vec<Slot>, AllocError>
    ensures { IfOk result (λ slots. AreFresh kind count slots.items) }
{
    let mut slots = Vec::with_capacity(alloc, count)?;
    for _place in 0..count {
        slots.push(Slot::new(alloc, kind)?)?;
    }
    Ok(slots)
}
