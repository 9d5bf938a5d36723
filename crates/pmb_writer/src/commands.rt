//! The forms of a command under a profile.
//!
//! Its rows: `tests_packets`, `src/writer/faults.rt`.

ghost use Rattle.std.specs.Prelude.{◌≡◌, ◌↔◌, IsSome, IfSome};
ghost use Rattle.pmb_command.specs.Parts.{command_with};
ghost use Rattle.pmb_transaction.specs.Body.{forms};

use pmb_command::Shape;
use pmb_table::DeviceProfile;

/// The forms of the command with a code, where the device has one.
pub(crate) fn forms_of(device: &DeviceProfile, code: u8) -> Option<Shape>
    ensures known { IsSome result ↔ IsSome (command_with code device.now.commands) }
    ensures forms { IfSome result (λ shape. shape ≡ forms device.now code) }
{
    match device.entry(code) {
        Some(entry) => Some(entry.shape),
        None => None,
    }
}
