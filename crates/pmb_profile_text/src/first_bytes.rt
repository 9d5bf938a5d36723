//! What commands hold at first.
//!
//! Its rows: `tests/rows/profile_text.txt`.

ghost use Rattle.std.specs.Prelude.{◌≡◌, ◌+◌, ◌≤◌, ◌++◌, Some, length};
ghost use Rattle.pmb_command.specs.Fitting.{register_form};
ghost use Rattle.pmb_command.specs.Parts.{CommandParts, command_with};
ghost use Rattle.pmb_profile_text.specs.Table.{first_word};
ghost use Rattle.pmb_profile_text.specs.Words.{bytes_word};

use crate::row::{Row, append, append_byte};
use pmb_command::Entry;
use pmb_registers::{first_bytes, register_form};
use pmb_table::DeviceProfile;

/// Appends what a command's register holds at first on a page, or a hyphen where it has none: at
/// most 510 bytes.
pub(crate) fn append_first(row: &mut Row, device: &DeviceProfile, page: u8, entry: &Entry)
    requires { length row.old.items + 510 ≤ 2048 }
    ensures text { (command : CommandParts) → command_with entry.now.code device.now.commands ≡ Some command → command.entry.shape ≡ entry.now.shape
        → row.new.items ≡ row.old.items ++ first_word device.now page command (register_form command.entry.shape) }
    ensures short { length row.new.items ≤ length row.old.items + 510 }
{
    match register_form(entry.shape) {
        Some(form) => append_bytes(row, first_bytes(device, page, entry.code, form).as_slice()),
        None => append(row, b"-"),
    }
}

/// Appends the digits of bytes, or that there are none.
fn append_bytes(row: &mut Row, bytes: &[u8])
    requires room { length row.old.items + 510 ≤ 2048 }
    requires few { length bytes.now ≤ 255 }
    ensures text { row.new.items ≡ row.old.items ++ bytes_word bytes.now }
    ensures short { length row.new.items ≤ length row.old.items + 510 }
{
    if bytes.is_empty() {
        append(row, b"empty");
        return;
    }
    for byte in bytes {
        append_byte(row, *byte);
    }
}
