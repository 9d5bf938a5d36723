//! The names of the bits that a mask of a status register has.

ghost use Rattle.std.specs.Prelude.{◌≡◌, ◌+◌, ◌*◌, ◌<◌, ◌≤◌, ◌++◌, [], codes, decimal, length, map, option_map};
ghost use Rattle.pmb_command_data.specs.Bits.{bit_text_in};
ghost use Rattle.pmb_keys.specs.CommandView.{bit_parts};
ghost use Rattle.pmb_meaning.specs.Field.{texts};
ghost use Rattle.pmb_meaning.specs.Names.{is_set, mask_names, named_bit, names_of, set_names};
ghost use Rattle.pmb_meaning.specs.machine.Room.{words_room};

use arrayvec::ArrayVec;
use pmb_command_data::bit_name;
use pmb_keys::NamedBit;
use pmb_table::DeviceProfile;
use pmb_table::laws::accepted_device;

/// The names of the bits of a status register that are set in a mask, from the highest down.
pub(crate) fn bit_names<'d>(
    device: &'d DeviceProfile,
    register: u8,
    mask: u8,
) -> ArrayVec<&'d str, 8>
    ensures names { texts result.items ≡ mask_names (names_of device.now) register mask }
    ensures short { words_room (texts result.items) ≤ 8 * 195 }
{
    accepted_device(device);
    let mut names = ArrayVec::new();
    push_names(&mut names, device.bits(register), register, mask, 8);
    names
}

/// Appends the names of the set bits among the lowest, that many.
fn push_names<'d>(
    names: &mut ArrayVec<&'d str, 8>,
    named: &'d [NamedBit],
    register: u8,
    mask: u8,
    bits: u8,
)
    requires { length names.old.items + bits ≤ 8 }
    ensures { texts names.new.items ≡ texts names.old.items ++ set_names (map bit_parts named.now) register mask bits }
{
    if bits > 0 {
        if is_set(mask, bits - 1) {
            names.push(name_of_bit(named, register, bits - 1));
        }
        push_names(names, named, register, mask, bits - 1);
    }
}

fn is_set(mask: u8, bit: u8) -> bool
    requires { bit < 8 }
    ensures { result ≡ is_set mask bit }
{
    (mask >> bit) % 2 == 1
}

/// The name of a bit of a status register, or its number.
fn name_of_bit(named: &[NamedBit], register: u8, bit: u8) -> &str
    requires { bit < 8 }
    ensures { result.now ≡ named_bit (bit_text_in (map bit_parts named.now) register bit) bit }
{
    match bit_name(named, register, bit) {
        Some(name) => name,
        None => number_of_bit(bit),
    }
}

/// What stands for a bit that has no name.
fn number_of_bit(bit: u8) -> &'static str
    requires { bit < 8 }
    ensures { result.now ≡ codes "bit" ++ decimal bit }
{
    match bit {
        0 => "bit0",
        1 => "bit1",
        2 => "bit2",
        3 => "bit3",
        4 => "bit4",
        5 => "bit5",
        6 => "bit6",
        _ => "bit7",
    }
}
