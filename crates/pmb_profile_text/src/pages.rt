//! Whether a command holds other bytes at first on some page.
//!
//! Its rows: `tests/rows/profile_text.txt`.

ghost use Rattle.std.specs.Prelude.{◌≡◌, Some, bytes_eq, not};
ghost use Rattle.pmb_command.specs.Entry.{entry_parts};
ghost use Rattle.pmb_command.specs.Fitting.{register_form};
ghost use Rattle.pmb_command.specs.Parts.{CommandParts, command_with};
ghost use Rattle.pmb_profile_text.specs.Table.{begins_by_page, pages_differ};
ghost use Rattle.pmb_registers.specs.State.{first_bytes};

use pmb_command::{Entry, Form};
use pmb_registers::{first_bytes, register_form};
use pmb_table::DeviceProfile;

/// Whether a command of a device has a register for each page, and they don't all begin alike.
pub(crate) fn begins_by_page(device: &DeviceProfile, entry: &Entry) -> bool
    ensures { (command : CommandParts) → command_with entry.now.code device.now.commands ≡ Some command → command.entry ≡ entry_parts entry.now
        → result ≡ begins_by_page device.now command (register_form command.entry.shape) }
{
    match register_form(entry.shape) {
        Some(form) => entry.paged && pages_differ(device, entry.code, form),
        None => false,
    }
}

/// Whether the register of a code begins on some page otherwise than on page 0.
fn pages_differ(device: &DeviceProfile, code: u8, form: Form) -> bool
    ensures { (command : CommandParts) → command_with code device.now.commands ≡ Some command
        → result ≡ pages_differ device.now command form }
{
    for page in 0..device.pages() {
        if differs(device, page, code, form) {
            return true;
        }
    }
    false
}

/// Whether the register of a code begins on a page otherwise than on page 0.
fn differs(device: &DeviceProfile, page: u8, code: u8, form: Form) -> bool
    ensures { (command : CommandParts) → command_with code device.now.commands ≡ Some command
        → result ≡ not (bytes_eq (first_bytes device.now page command form) (first_bytes device.now 0 command form)) }
{
    let there = first_bytes(device, page, code, form);
    let first = first_bytes(device, 0, code, form);
    there.as_slice() != first.as_slice()
}
