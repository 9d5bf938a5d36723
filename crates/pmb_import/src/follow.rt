//! The bus that a recording follows from its start. A machine is made of no bus first, since one of a
//! bus is put together in parts.

ghost use Rattle.std.specs.Prelude.{◌≡◌, ◌≤◌, None, length, option_copied, take};
ghost use Rattle.pmb_recording.specs.Recording.{fresh};
ghost use Rattle.pmb_smbus.specs.Transfers as smbus;

use pmb_recording::Recording;
use pmb_smbus::Smbus;

/// The most bytes of a name that is kept.
const MOST_NAME: usize = 65540;

/// Follows the bus of this name, where one is named, from the start of a recording.
pub(crate) fn follow(recording: &mut Recording, bus: Option<&[u8]>)
    requires { recording.old ≡ fresh None }
    ensures { recording.new ≡ fresh (option_copied bus.entry) }
{
    if let Some(name) = bus {
        recording.follow(kept_name(name));
    }
}

/// The same of a source whose recording is not at hand.
pub(crate) fn follow_smbus(machine: &mut Smbus, bus: Option<&[u8]>)
    requires { machine.old ≡ smbus.start None }
    ensures { machine.new ≡ smbus.start (option_copied bus.entry) }
{
    if let Some(name) = bus {
        machine.follow(kept_name(name));
    }
}

/// The name of a bus, or so much of it that it is longer than a line still.
fn kept_name(name: &[u8]) -> &[u8]
    ensures name { result.now ≡ take MOST_NAME name.now }
    ensures short { length result.now ≤ MOST_NAME }
{
    if name.len() > MOST_NAME {
        return &name[..MOST_NAME];
    }
    name
}
