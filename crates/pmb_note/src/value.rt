//! What the data of a command say by its kind.
//!
//! Its rows: `tests_lines`, `src/notes/rows.rt`; `tests/rows/captures.txt`.

ghost use Rattle.std.specs.Prelude.{◌≡◌, ◌+◌, ◌*◌, ◌≤◌, ◌<◌, Ok, length, option_map};
ghost use Rattle.pmb_command.specs.Entry.{entry_parts};
ghost use Rattle.pmb_command.specs.Bus.{IsEntry};
ghost use Rattle.pmb_note.specs.Note.{data_text, number_text, of_word, quantity_text, value_text, vout_text};
ghost use Rattle.pmb_note.specs.machine.Written.{Appends, is_signed};

use crate::status::append_status;
use crate::text::append;
use arrayvec::ArrayVec;
use pmb_command::{Entry, Kind};
use pmb_table::DeviceProfile;
use pmb_value::{NumberFormat, Quantity, Sign, vout_format};

/// Appends what a command that is written or read says: its name, and what its kind tells of the
/// data. Where it is an output voltage, `mode` is the VOUT_MODE to read it by, if that is known.
pub(crate) fn append_value<const N: usize>(
    out: &mut ArrayVec<u8, N>,
    mode: Option<u8>,
    device: &DeviceProfile,
    entry: &Entry,
    bytes: &[u8],
)
    requires named { length entry.now.name.bytes ≤ 32 }
    requires room { length out.old.items + 320 ≤ N }
    ensures { Appends (value_text mode device.now (entry_parts entry.now) bytes.now) 320 out.old.items out.new.items }
{
    append(out, entry.name.as_str());
    append_data(out, mode, device, entry.code, entry.kind, bytes);
}

// Appends what the kind of a command tells of its data.
fn append_data<const N: usize>(
    out: &mut ArrayVec<u8, N>,
    mode: Option<u8>,
    device: &DeviceProfile,
    code: u8,
    kind: Kind,
    bytes: &[u8],
)
    requires { length out.old.items + 288 ≤ N }
    ensures { Appends (data_text device.now.vout_direct mode code kind bytes.now) 288 out.old.items out.new.items }
{
    match kind {
        Kind::Raw | Kind::Text => {}
        Kind::Number(format) => append_quantity(out, format, bytes),
        Kind::Vout => append_voltage(out, mode, Sign::Unsigned, device, bytes),
        Kind::VoutSigned => append_voltage(out, mode, Sign::Signed, device, bytes),
        Kind::Status => append_status(out, code, bytes),
    }
}

// Appends the value of two bytes in a format; nothing for another number of bytes.
fn append_quantity<const N: usize>(out: &mut ArrayVec<u8, N>, format: NumberFormat, bytes: &[u8])
    requires { length out.old.items + 46 ≤ N }
    ensures { Appends (of_word (number_text format) bytes.now) 46 out.old.items out.new.items }
{
    match bytes {
        [low, high] => append_decoded(out, format, u16::from_le_bytes([*low, *high])),
        _ => {}
    }
}

// Appends the value of a word in a format, or that it has none.
#[tactic(auto, unfolding(crate::specs::Note::number_text))]
fn append_decoded<const N: usize>(out: &mut ArrayVec<u8, N>, format: NumberFormat, word: u16)
    requires { length out.old.items + 46 ≤ N }
    ensures { Appends (number_text format word) 46 out.old.items out.new.items }
{
    match format.value(word) {
        Ok(quantity) => append_value_text(out, &quantity),
        Err(_) => append(out, " raw"),
    }
}

// Appends a value.
fn append_value_text<const N: usize>(out: &mut ArrayVec<u8, N>, quantity: &Quantity)
    requires { length out.old.items + 46 ≤ N }
    ensures { Appends (quantity_text (Ok quantity.now)) 46 out.old.items out.new.items }
{
    append(out, " ");
    append(out, quantity.text().as_str());
}

// Appends an output voltage of two bytes, or that it can't be told; nothing for another number of
// bytes.
fn append_voltage<const N: usize>(
    out: &mut ArrayVec<u8, N>,
    mode: Option<u8>,
    sign: Sign,
    device: &DeviceProfile,
    bytes: &[u8],
)
    requires { length out.old.items + 46 ≤ N }
    ensures { Appends (of_word (vout_text mode (is_signed sign) device.now.vout_direct) bytes.now) 46 out.old.items out.new.items }
{
    match bytes {
        [low, high] => append_word(out, mode, sign, device, u16::from_le_bytes([*low, *high])),
        _ => {}
    }
}

// Appends an output voltage of a word, or that it can't be told.
fn append_word<const N: usize>(
    out: &mut ArrayVec<u8, N>,
    mode: Option<u8>,
    sign: Sign,
    device: &DeviceProfile,
    word: u16,
)
    requires { length out.old.items + 46 ≤ N }
    ensures { Appends (vout_text mode (is_signed sign) device.now.vout_direct word) 46 out.old.items out.new.items }
{
    let Some(mode) = mode else {
        append(out, " raw");
        return;
    };
    match vout_format(mode, sign == Sign::Signed, device.vout_direct()) {
        Ok(format) => append_decoded(out, NumberFormat::Word(format), word),
        Err(_) => append(out, " raw"),
    }
}
