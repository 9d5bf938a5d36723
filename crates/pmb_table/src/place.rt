//! Where a fault of a profile lies.
//!
//! Its rows: `tests/rows/profiles.txt`.

ghost use Rattle.std.specs.Prelude.{◌≡◌, ◌≢◌};
ghost use Rattle.pmb_table.specs.Profile.{at_top, at_device, at_command};

use crate::fault::ProfileFault;
use pmb_keys::FaultKind;
use std::alloc::AllocError;

/// A fault outside of all devices.
pub(crate) fn outside(what: FaultKind) -> ProfileFault
    ensures { result ≡ at_top what }
{
    ProfileFault {
        what,
        device: None,
        command: None,
    }
}

/// The want of memory that an allocation met. It has no place.
pub(crate) fn no_memory(_error: AllocError) -> ProfileFault
    ensures { result ≡ at_top FaultKind.OutOfMemory }
{
    outside(FaultKind::OutOfMemory)
}

/// A fault in a device, outside of its commands.
pub(crate) fn in_device(device: u8, what: FaultKind) -> ProfileFault
    ensures { result ≡ at_device device what }
{
    ProfileFault {
        what,
        device: Some(device),
        command: None,
    }
}

/// A fault in a command of a device. Want of memory has no place.
pub(crate) fn in_command(device: u8, command: u16, what: FaultKind) -> ProfileFault
    ensures memory { what ≡ FaultKind.OutOfMemory → result ≡ at_top what }
    ensures placed { what ≢ FaultKind.OutOfMemory → result ≡ at_command device command what }
{
    match what {
        FaultKind::OutOfMemory => outside(what),
        _ => ProfileFault {
            what,
            device: Some(device),
            command: Some(command),
        },
    }
}
