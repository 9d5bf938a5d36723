//! What is said of a command's data, by its kind.
//!
//! Its rows: `tests_json`, `src/fields/numbers.rt`, `registers.rt` and `profiles.rt`.

ghost use Rattle.std.specs.Prelude.{◌≡◌, ◌+◌, ◌≤◌, ◌++◌, length};
ghost use Rattle.pmb_keys.specs.CommandView.{command_parts};
ghost use Rattle.pmb_json_text.specs.declared.item_order.ItemOrder.TheVariants.{Later};
ghost use Rattle.pmb_json_text.specs.Member.{AreWritable, members_text};
ghost use Rattle.pmb_voltage.specs.Voltage.{voltages_data};
ghost use Rattle.pmb_json_fields.specs.Value.{data_members};
ghost use Rattle.pmb_json_fields.specs.machine.Written.{Appends};

use crate::access::Access;
use crate::basis::Basis;
use crate::bits::append_status;
use crate::number::append_number;
use crate::text::append_data_text;
use crate::voltage::append_voltage;
use arrayvec::ArrayVec;
use pmb_command::Kind;
use pmb_decimal::Digits;
use pmb_keys::Command;
use pmb_value::Sign;
use pmb_voltage::Voltages;

/// The most bytes of the members that [`data_members`] appends: those of 16 status bits with names of
/// 32 characters.
pub const DATA_MEMBERS: usize = 3142;

/// Appends what is said of a command's data to an object that has members already.
///
/// `digits` is how many digits a number has after the point at most. `voltages` is what the format of
/// an output voltage depends on, and `basis` says whether its VOUT_MODE is assumed. `bytes` is what is
/// read or written, 255 bytes at most: without the count of a block, and without a packet error code.
/// Nothing is appended where the command's kind says nothing of that many bytes, and they are no text.
pub fn data_members<const N: usize>(
    out: &mut ArrayVec<u8, N>,
    digits: Digits,
    access: Access,
    voltages: &Voltages<'_>,
    basis: Basis,
    command: &Command,
    bytes: &[u8],
)
    requires few { length bytes.now ≤ 255 }
    requires room { length out.old.items + DATA_MEMBERS ≤ N }
    ensures members { out.new.items ≡ out.old.items ++ members_text Later (data_members digits access (voltages_data voltages.now) basis (command_parts command.now) bytes.now) }
    ensures short { length out.new.items ≤ length out.old.items + DATA_MEMBERS }
    ensures writable { AreWritable (data_members digits access (voltages_data voltages.now) basis (command_parts command.now) bytes.now) }
{
    append_data(out, digits, access, voltages, basis, command, bytes);
}

/// The same.
fn append_data<const N: usize>(
    out: &mut ArrayVec<u8, N>,
    digits: Digits,
    access: Access,
    voltages: &Voltages<'_>,
    basis: Basis,
    command: &Command,
    bytes: &[u8],
)
    requires few { length bytes.now ≤ 255 }
    requires room { length out.old.items + 3142 ≤ N }
    ensures { Appends (data_members digits access (voltages_data voltages.now) basis (command_parts command.now) bytes.now) 3142 out.old.items out.new.items }
{
    match command.entry.kind {
        Kind::Raw | Kind::Text => append_data_text(out, access, command, bytes),
        Kind::Number(format) => append_number(out, digits, command, format, bytes),
        Kind::Vout => {
            append_voltage(out, digits, voltages, basis, command, Sign::Unsigned, bytes);
        }
        Kind::VoutSigned => {
            append_voltage(out, digits, voltages, basis, command, Sign::Signed, bytes);
        }
        Kind::Status => append_status(out, access, command, bytes),
    }
}
