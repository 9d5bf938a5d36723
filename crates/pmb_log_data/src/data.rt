//! What is said of a command's data.
//!
//! Its rows: `tests/rows/log.txt`; `tests_json`, `src/log_lines/`.

ghost use Rattle.std.specs.Prelude.{◌≡◌, ◌+◌, ◌≤◌, length};
ghost use Rattle.pmb_command_data.specs.Text.{text_of};
ghost use Rattle.pmb_json_fields.specs.Value.{form_of};
ghost use Rattle.pmb_json_objects.specs.Seen.{SeenData};
ghost use Rattle.pmb_json_objects.specs.Sees.{Sees};
ghost use Rattle.pmb_keys.specs.CommandView.{command_parts};
ghost use Rattle.pmb_log_data.specs.Data.{command_says, data_says, kind_says, text_or, voltage_says};
ghost use Rattle.pmb_log_data.specs.Appends.{Appends};

use crate::bits::append_status;
use crate::meaning::{MEANING, append_meaning, payload};
use crate::seen::{device, mode, page};
use crate::text::{append_bytes, append_quoted};
use crate::voltage::{Reading, append_quantity, append_voltage};
use arrayvec::ArrayVec;
use pmb_command::Kind;
use pmb_command_data::text;
use pmb_json_fields::Access;
use pmb_json_objects::Seen;
use pmb_keys::Command;
use pmb_table::DeviceProfile;
use pmb_value::Sign;
use pmb_voltage::Voltages;

/// The most bytes that [`append_data`] appends: a text of 255 bytes, each escaped, and words.
pub const DATA: usize = 1532 + MEANING;

/// Appends what is read from a device, or written to it, with a command.
pub fn append_data<const N: usize>(
    out: &mut ArrayVec<u8, N>,
    seen: &Seen<'_>,
    access: Access,
    addr: u8,
    code: u8,
    bytes: &[u8],
)
    requires few { length bytes.now ≤ 255 }
    requires room { length out.old.items + DATA ≤ N }
    ensures says { (known : SeenData) → Sees seen.now known → Appends (data_says known access addr code bytes.now) DATA out.old.items out.new.items }
    ensures longer { length out.new.items ≤ length out.old.items + DATA }
{
    let Some(device) = device(seen, addr) else {
        append_bytes(out, bytes);
        return;
    };
    let Some(command) = device.command(code) else {
        append_bytes(out, bytes);
        return;
    };
    append_of_command(out, seen, access, addr, device, command, bytes);
}

/// Appends the data of a command, and what they mean.
fn append_of_command<const N: usize>(
    out: &mut ArrayVec<u8, N>,
    seen: &Seen<'_>,
    access: Access,
    addr: u8,
    device: &DeviceProfile,
    command: &Command,
    bytes: &[u8],
)
    requires few { length bytes.now ≤ 255 }
    requires room { length out.old.items + DATA ≤ N }
    ensures says { (known : SeenData) → Sees seen.now known
        → Appends (command_says known addr access device.now (command_parts command.now) bytes.now) DATA out.old.items out.new.items }
    ensures longer { length out.new.items ≤ length out.old.items + DATA }
{
    append_content(out, seen, access, addr, device, command, bytes);
    append_meaning(out, device, command, &payload(access, bytes));
}

/// Appends the data of a command as a text, where they are one, else by the command's kind.
fn append_content<const N: usize>(
    out: &mut ArrayVec<u8, N>,
    seen: &Seen<'_>,
    access: Access,
    addr: u8,
    device: &DeviceProfile,
    command: &Command,
    bytes: &[u8],
)
    requires few { length bytes.now ≤ 255 }
    requires room { length out.old.items + 1532 ≤ N }
    ensures says { (known : SeenData) → Sees seen.now known
        → Appends (text_or (text_of (command_parts command.now).entry (form_of access (command_parts command.now).entry.shape) bytes.now) (kind_says known addr device.now (command_parts command.now) (command_parts command.now).entry.kind bytes.now)) 1532 out.old.items out.new.items }
    ensures longer { length out.new.items ≤ length out.old.items + 1532 }
{
    match text(&command.entry, access.form(command.entry.shape), bytes) {
        Some(text) => append_quoted(out, text),
        None => append_by_kind(out, seen, addr, device, command, command.entry.kind, bytes),
    }
}

/// Appends the data of a command by its kind.
fn append_by_kind<const N: usize>(
    out: &mut ArrayVec<u8, N>,
    seen: &Seen<'_>,
    addr: u8,
    device: &DeviceProfile,
    command: &Command,
    kind: Kind,
    bytes: &[u8],
)
    requires few { length bytes.now ≤ 255 }
    requires room { length out.old.items + 773 ≤ N }
    ensures says { (known : SeenData) → Sees seen.now known
        → Appends (kind_says known addr device.now (command_parts command.now) kind bytes.now) 773 out.old.items out.new.items }
    ensures longer { length out.new.items ≤ length out.old.items + 773 }
{
    match kind {
        Kind::Raw | Kind::Text => append_bytes(out, bytes),
        Kind::Number(format) => append_quantity(out, seen.digits, command.unit(), format, bytes),
        Kind::Vout => append_output(out, seen, addr, device, command, Sign::Unsigned, bytes),
        Kind::VoutSigned => append_output(out, seen, addr, device, command, Sign::Signed, bytes),
        Kind::Status => append_status(out, command, bytes),
    }
}

/// Appends an output voltage of a device.
fn append_output<const N: usize>(
    out: &mut ArrayVec<u8, N>,
    seen: &Seen<'_>,
    addr: u8,
    device: &DeviceProfile,
    command: &Command,
    sign: Sign,
    bytes: &[u8],
)
    requires few { length bytes.now ≤ 255 }
    requires room { length out.old.items + 773 ≤ N }
    ensures says { (known : SeenData) → Sees seen.now known
        → Appends (voltage_says known addr device.now (command_parts command.now) sign bytes.now) 773 out.old.items out.new.items }
    ensures longer { length out.new.items ≤ length out.old.items + 773 }
{
    let reading = Reading {
        digits: seen.digits,
        code: command.entry.code,
        sign,
        voltages: Voltages {
            mode: mode(seen, addr),
            page: page(seen, addr),
            coefficients: device.vout_direct(),
            vid: device.vid(),
        },
        basis: seen.basis(addr),
    };
    append_voltage(out, &reading, command.unit(), bytes);
}
