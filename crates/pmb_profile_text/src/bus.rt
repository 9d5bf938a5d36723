//! The text of a bus.
//!
//! Its rows: `tests_tasks`, `src/profiles.rt`; `tests/rows/profile_text.txt`.

ghost use Rattle.std.specs.Prelude.{◌≡◌, ◌≤◌, ◌<◌, [], OnOk, Some, length, slice_get};
ghost use Rattle.std.specs.Io.KnownBytes.{Appends};
ghost use Rattle.pmb_io.specs.Calls.{WriterTells};
ghost use Rattle.pmb_io.specs.Outgoing.{PutsText};
ghost use Rattle.pmb_command.specs.Parts.{DeviceParts};
ghost use Rattle.pmb_profile_text.specs.Table.{bus_head, bus_text, device_text, devices_text};

use crate::bus_head::bus_head;
use crate::device_text::put_device;
use pmb_io::laws::texts_add_up;
use pmb_io::{RunFault, Sink, Waiting, put, send};
use pmb_table::{BusProfile, Profile};

/// Writes the bus that a profile makes: how many devices it has, the addresses that it ignores, and of
/// each device its keys and a table of its commands, each with its forms, its kind and what it holds at
/// first.
///
/// # Errors
///
/// `Write` where the writer failed.
pub fn describe<W: Sink>(profile: &BusProfile, writer: &mut W) -> Result<(), RunFault>
    ensures written { OnOk result (Appends (W.told writer.old).held (W.told writer.new).held (bus_text profile.now.ignored profile.now.devices)) }
    ensures failed { WriterTells (W.told writer.old) (W.told writer.new) result }
{
    texts_add_up();
    let mut waiting = Waiting::new();
    put_bus(profile, &mut waiting, writer)?;
    send(&mut waiting, writer)
}

/// Puts out the text of a bus.
fn put_bus<W: Sink>(
    profile: &BusProfile,
    waiting: &mut Waiting,
    writer: &mut W,
) -> Result<(), RunFault>
    ensures puts { OnOk result (PutsText (W.told writer.old).held waiting.old.items (W.told writer.new).held waiting.new.items (bus_text profile.now.ignored profile.now.devices)) }
    ensures failed { WriterTells (W.told writer.old) (W.told writer.new) result }
{
    texts_add_up();
    put(waiting, bus_head(profile).as_slice(), writer)?;
    put_devices(profile.profile(), waiting, writer)
}

/// Puts out the texts of the devices.
fn put_devices<W: Sink>(
    profile: &Profile,
    waiting: &mut Waiting,
    writer: &mut W,
) -> Result<(), RunFault>
    ensures puts { OnOk result (PutsText (W.told writer.old).held waiting.old.items (W.told writer.new).held waiting.new.items (devices_text 0 profile.now)) }
    ensures failed { WriterTells (W.told writer.old) (W.told writer.new) result }
{
    texts_add_up();
    for i in 0..profile.len() {
        put_device_at(profile, i, waiting, writer)?;
    }
    Ok(())
}

/// Puts out the text of the device at an index.
fn put_device_at<W: Sink>(
    profile: &Profile,
    index: usize,
    waiting: &mut Waiting,
    writer: &mut W,
) -> Result<(), RunFault>
    requires { index < length profile.now }
    ensures puts { (device : DeviceParts) → slice_get profile.now index ≡ Some device
        → OnOk result (PutsText (W.told writer.old).held waiting.old.items (W.told writer.new).held waiting.new.items (device_text index device)) }
    ensures failed { WriterTells (W.told writer.old) (W.told writer.new) result }
{
    let Some(device) = profile.device_at(index) else {
        return Ok(());
    };
    put_device(index, device, waiting, writer)
}
