//! Room for the commands of a device.
//!
//! Its rows: `tests/rows/stats.txt`.

ghost use Rattle.std.specs.Prelude.{◌≡◌, IfOk, Some, option_map};
ghost use Rattle.pmb_stats_room.specs.machine.Beginning.{BeginsDevice};
ghost use Rattle.pmb_stats_room.specs.machine.Finding.{in_device};
ghost use Rattle.pmb_stats_room.specs.machine.Seeing.{DeviceSees};
ghost use Rattle.pmb_stats_room.specs.machine.Sights.{IsShort};

use crate::command_room::CommandRoom;
use crate::sight::Sight;
use crate::slot::Slot;
use pmb_observed::Spot;
use pmb_table::DeviceProfile;
use std::alloc::{AllocError, Global};

/// How many numbers a code can be.
const CODES: usize = 256;

/// What is kept of the commands of a device.
#[derive(Drop)]
pub(crate) struct DeviceRoom {
    /// Of each by its code; nothing where the profile has no such device.
    commands: Vec<CommandRoom>,
}

impl DeviceRoom {
    /// Room for a device, if there is one. Nothing was seen.
    pub(crate) fn new(
        alloc: Global,
        device: Option<&DeviceProfile>,
    ) -> Result<DeviceRoom, AllocError>
        ensures { IfOk result (BeginsDevice (option_map (λ device. device.now) device.entry)) }
    {
        match device {
            Some(device) => DeviceRoom::of_device(alloc, device),
            None => Ok(DeviceRoom {
                commands: Vec::new(alloc),
            }),
        }
    }

    /// Room for a device.
    fn of_device(alloc: Global, device: &DeviceProfile) -> Result<DeviceRoom, AllocError>
        ensures { IfOk result (BeginsDevice (Some device.now)) }
    {
        let mut commands = Vec::with_capacity(alloc, CODES)?;
        for code in 0..CODES {
            commands.push(CommandRoom::new(alloc, device, code as u8)?)?;
        }
        Ok(DeviceRoom { commands })
    }

    /// What is kept of a spot of this device.
    pub(crate) fn slot(&self, spot: Spot) -> Option<&Slot>
        ensures { option_map (λ slot. slot.now) result ≡ in_device self.now spot }
    {
        let command = self.commands.get(usize::from(spot.code))?;
        command.slot(spot)
    }

    /// Takes what is seen of a spot of this device.
    pub(crate) fn see(&mut self, spot: Spot, sight: Sight<'_>)
        requires { IsShort sight }
        ensures { DeviceSees spot sight.entry self.old self.new }
    {
        if let Some(command) = self.commands.get_mut(usize::from(spot.code)) {
            command.see(spot, sight);
        }
    }
}
