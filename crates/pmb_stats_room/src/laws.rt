//! Laws over the definitions alone. Each function is its contract, and does nothing.

ghost use Rattle.std.specs.Prelude.{List};
ghost use Rattle.pmb_command.specs.Parts.{DeviceParts};
ghost use Rattle.pmb_observed.specs.Observed.{Observation};
ghost use Rattle.pmb_stats_room.specs.declared.room.Room.{Room};
ghost use Rattle.pmb_stats_room.specs.Alike.{TellSpotsAlike};
ghost use Rattle.pmb_stats_room.specs.Standing.{RoomStandsAt};

use pmb_mean::laws::one_history;
use pmb_stats_bits::laws::one_bit;

/// A room stands at no two lists of observations of which it would tell something else.
pub fn one_room()
    ensures { (room : Room) (profile : List DeviceParts) (told others : List Observation) → RoomStandsAt room profile told
        → RoomStandsAt room profile others → TellSpotsAlike profile told others }
{
    one_bit();
    one_history();
}
