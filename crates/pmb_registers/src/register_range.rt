//! The place of a command's registers among all of them.

ghost use Rattle.std.specs.Prelude.{◌≡◌, ◌≤◌, IfSome, length, map, nat_eq, option_map};
ghost use Rattle.pmb_registers.specs.State.{held};
ghost use Rattle.pmb_registers.specs.Apply.{changed};
ghost use Rattle.pmb_registers.specs.machine.Registers.{HasRoom, change_of, register_data};
ghost use Rattle.pmb_registers.specs.machine.Places.{ArePlaces, IsPlaceOf};
ghost use Rattle.pmb_registers.specs.machine.StatusCodes.{is_listed};

use crate::change::Change;
use crate::register::{Register, bytes_on, change_each};

/// Where the registers of a command lie: from `start` up to `end`.
#[derive(Clone, Copy, Debug)]
pub(crate) struct RegisterRange {
    pub start: usize,
    pub end: usize,
}

/// Changes the registers of a code that are reached under a selected page, in their place.
pub(crate) fn change_in(
    registers: &mut [Register],
    place: RegisterRange,
    code: u8,
    selected: u8,
    change: &Change<'_>,
)
    requires place { IsPlaceOf code place (map register_data registers.old) }
    requires room { HasRoom change.now }
    ensures { map register_data registers.new ≡ changed selected (nat_eq code) (change_of change.now) (map register_data registers.old) }
{
    change_each(
        &mut registers[place.start..place.end],
        code,
        selected,
        change,
    );
}

/// Clears all bits of the registers of these codes that are reached under a selected page, in the
/// place of each code.
pub(crate) fn clear_in_each(
    registers: &mut [Register],
    places: &[RegisterRange; 256],
    codes: &[u8],
    selected: u8,
)
    requires { ArePlaces places.now (map register_data registers.old) }
    ensures { map register_data registers.new ≡ changed selected (is_listed codes.now) (map (λ byte. 0)) (map register_data registers.old) }
{
    for code in codes {
        let place = places[*code as usize];
        change_in(registers, place, *code, selected, &Change::ClearEach);
    }
}

/// The bytes that are held on a page, looked for in their place.
pub(crate) fn bytes_in(
    registers: &[Register],
    place: RegisterRange,
    page: u8,
    code: u8,
) -> Option<&[u8]>
    requires { IsPlaceOf code place (map register_data registers.now) }
    ensures held { option_map (λ bytes. bytes.now) result ≡ held page code (map register_data registers.now) }
    ensures few { IfSome result (λ bytes. length bytes.now ≤ 255) }
{
    bytes_on(&registers[place.start..place.end], page, code)
}
