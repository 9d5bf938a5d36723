//! Room for the devices of a profile.
//!
//! Its rows: `tests/rows/stats.txt`.

ghost use Rattle.std.specs.Prelude.{◌≡◌, ◌≤◌, ◌++◌, ◌∷◌, [], true, false, IfOk, List, MatchOption, length, option_map};
ghost use Rattle.std.specs.Option.{ForSome};
ghost use Rattle.pmb_command.specs.Parts.{DeviceParts};
ghost use Rattle.pmb_mean.specs.machine.History.{HistoryStandsAt};
ghost use Rattle.pmb_observed.specs.Observed.{NumberAt, Observation, ReadAt, numbers_at, reads_at};
ghost use Rattle.pmb_observed.specs.Spot.{has_numbers, has_register};
ghost use Rattle.pmb_stats_bits.specs.Standing.{RegisterStandsAt};
ghost use Rattle.pmb_stats_room.specs.Standing.{RoomStandsAt};
ghost use Rattle.pmb_stats_room.specs.machine.Finding.{in_room};
ghost use Rattle.pmb_stats_room.specs.machine.Seeing.{RoomSees};
ghost use Rattle.pmb_stats_room.specs.machine.Sights.{IsShort};

use crate::device_room::DeviceRoom;
use crate::sight::Sight;
use crate::slot::Slot;
use pmb_mean::{Number, NumberHistory};
use pmb_observed::Spot;
use pmb_stats_bits::BitHistory;
use pmb_table::Profile;
use std::alloc::{AllocError, Global};

/// How many numbers an address can be, of which one has seven bits.
const ADDRESSES: usize = 256;

/// What is kept of each command of a profile's devices, page by page and phase by phase. It stands
/// at what was seen since it was made.
#[derive(Drop)]
pub struct Room {
    /// Of each device by its address.
    devices: Vec<DeviceRoom>,
}

impl Room {
    /// Room for the devices of a profile. Nothing was seen. All memory is taken here, at once; an `Err`
    /// says that it was refused.
    pub fn new(alloc: Global, profile: &Profile) -> Result<Room, AllocError>
        ensures { IfOk result (λ room. RoomStandsAt room profile.now []) }
    {
        let mut devices = Vec::with_capacity(alloc, ADDRESSES)?;
        for addr in 0..ADDRESSES {
            devices.push(DeviceRoom::new(alloc, profile.device(addr as u8))?)?;
        }
        Ok(Room { devices })
    }

    /// Takes a read of the status register of a spot: the word, and the time of its packet, of at most
    /// 40 bytes, if one is known. Of a spot that the profile lacks it changes nothing.
    pub fn see_read(&mut self, spot: Spot, word: u16, time: Option<&[u8]>)
        requires { ForSome time (λ time. length time.now ≤ 40) }
        ensures { (profile : List DeviceParts) (observations : List Observation) → RoomStandsAt self.old profile observations
            → RoomStandsAt self.new profile
            (observations ++ ReadAt spot (record { word = word; time = option_map (λ time. time.now) time.entry }) ∷ []) }
    {
        self.see(spot, Sight::Read(word, time));
    }

    /// Takes a number of the command of a spot. Of a spot that the profile lacks it changes nothing.
    pub fn see_number(&mut self, spot: Spot, number: &Number)
        ensures { (profile : List DeviceParts) (observations : List Observation) → RoomStandsAt self.old profile observations
            → RoomStandsAt self.new profile (observations ++ NumberAt spot number.now ∷ []) }
    {
        self.see(spot, Sight::Number(number));
    }

    /// The histories of the 16 bits of a spot's status register, that of bit 0 first. `None` if the
    /// profile has no register there.
    pub fn register(&self, spot: Spot) -> Option<&[BitHistory]>
        ensures { (profile : List DeviceParts) (observations : List Observation) → RoomStandsAt self.now profile observations
            → MatchOption result (has_register profile spot ≡ false)
            (λ bits. (has_register profile spot ≡ true) × RegisterStandsAt bits.now (reads_at spot observations) × (length bits.now ≡ 16)) }
    {
        match self.slot(spot) {
            Some(slot) => slot.bits(),
            None => None,
        }
    }

    /// The history of the numbers of a spot's command. `None` if the profile has none that has numbers
    /// there.
    pub fn numbers(&self, spot: Spot) -> Option<&NumberHistory>
        ensures { (profile : List DeviceParts) (observations : List Observation) → RoomStandsAt self.now profile observations
            → MatchOption result (has_numbers profile spot ≡ false)
            (λ history. (has_numbers profile spot ≡ true) × HistoryStandsAt history.now (numbers_at spot observations)) }
    {
        match self.slot(spot) {
            Some(slot) => slot.numbers(),
            None => None,
        }
    }

    /// What is kept of a spot.
    fn slot(&self, spot: Spot) -> Option<&Slot>
        ensures { option_map (λ slot. slot.now) result ≡ in_room self.now spot }
    {
        let device = self.devices.get(usize::from(spot.addr))?;
        device.slot(spot)
    }

    /// Takes what is seen of a spot.
    fn see(&mut self, spot: Spot, sight: Sight<'_>)
        requires { IsShort sight }
        ensures { RoomSees spot sight.entry self.old self.new }
    {
        if let Some(device) = self.devices.get_mut(usize::from(spot.addr)) {
            device.see(spot, sight);
        }
    }
}
