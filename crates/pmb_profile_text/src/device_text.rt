//! The text of a device.
//!
//! Its rows: `tests_tasks`, `src/profiles.rt`; `tests/rows/profile_text.txt`.

ghost use Rattle.std.specs.Prelude.{◌≡◌, ◌<◌, ◌≤◌, OnOk, Some, length, slice_get};
ghost use Rattle.std.specs.List.{flat_map, range_with_len};
ghost use Rattle.pmb_io.specs.Calls.{WriterTells};
ghost use Rattle.pmb_io.specs.Outgoing.{PutsText};
ghost use Rattle.pmb_command.specs.Bus.{IsEntry};
ghost use Rattle.pmb_command.specs.Entry.{entry_parts};
ghost use Rattle.pmb_command.specs.Parts.{CommandParts, command_with};
ghost use Rattle.pmb_profile_text.specs.Table.{command_rows, command_table, command_text, device_keys, device_text, mode_line, mode_lines, page_row};

use crate::command_row::{command_row, heading, page_row};
use crate::device_head::{device_end, device_head};
use crate::meaning::meaning_lines;
use crate::modes::{are_same, mode_line, one_mode};
use crate::pages::begins_by_page;
use pmb_command::Entry;
use pmb_io::laws::texts_add_up;
use pmb_io::{RunFault, Sink, Waiting, put};
use pmb_table::DeviceProfile;
use pmb_table::laws::accepted_device;

/// Puts out the text of a device.
pub(crate) fn put_device<W: Sink>(
    place: usize,
    device: &DeviceProfile,
    waiting: &mut Waiting,
    writer: &mut W,
) -> Result<(), RunFault>
    ensures puts { OnOk result (PutsText (W.told writer.old).held waiting.old.items (W.told writer.new).held waiting.new.items (device_text place device.now)) }
    ensures failed { WriterTells (W.told writer.old) (W.told writer.new) result }
{
    texts_add_up();
    put_keys(place, device, waiting, writer)?;
    put(waiting, heading().as_slice(), writer)?;
    put_commands(device, waiting, writer)
}

/// Puts out the keys of a device.
fn put_keys<W: Sink>(
    place: usize,
    device: &DeviceProfile,
    waiting: &mut Waiting,
    writer: &mut W,
) -> Result<(), RunFault>
    ensures puts { OnOk result (PutsText (W.told writer.old).held waiting.old.items (W.told writer.new).held waiting.new.items (device_keys place device.now)) }
    ensures failed { WriterTells (W.told writer.old) (W.told writer.new) result }
{
    texts_add_up();
    put(waiting, device_head(place, device).as_slice(), writer)?;
    put_modes(device, waiting, writer)?;
    put(waiting, device_end(device).as_slice(), writer)
}

/// Puts out the lines of VOUT_MODE.
fn put_modes<W: Sink>(
    device: &DeviceProfile,
    waiting: &mut Waiting,
    writer: &mut W,
) -> Result<(), RunFault>
    ensures puts { OnOk result (PutsText (W.told writer.old).held waiting.old.items (W.told writer.new).held waiting.new.items (mode_lines device.now)) }
    ensures failed { WriterTells (W.told writer.old) (W.told writer.new) result }
{
    if are_same(device.modes()) {
        return put(waiting, one_mode(device).as_slice(), writer);
    }
    put_each_mode(device, waiting, writer)
}

/// Puts out a line of VOUT_MODE for each page.
fn put_each_mode<W: Sink>(
    device: &DeviceProfile,
    waiting: &mut Waiting,
    writer: &mut W,
) -> Result<(), RunFault>
    ensures puts { OnOk result (PutsText (W.told writer.old).held waiting.old.items (W.told writer.new).held waiting.new.items (flat_map (mode_line device.now) (range_with_len 0 device.now.pages))) }
    ensures failed { WriterTells (W.told writer.old) (W.told writer.new) result }
{
    texts_add_up();
    for page in 0..device.pages() {
        put(waiting, mode_line(device, page).as_slice(), writer)?;
    }
    Ok(())
}

/// Puts out the texts of a device's commands.
fn put_commands<W: Sink>(
    device: &DeviceProfile,
    waiting: &mut Waiting,
    writer: &mut W,
) -> Result<(), RunFault>
    ensures puts { OnOk result (PutsText (W.told writer.old).held waiting.old.items (W.told writer.new).held waiting.new.items (command_table device.now device.now.commands)) }
    ensures failed { WriterTells (W.told writer.old) (W.told writer.new) result }
{
    texts_add_up();
    for i in 0..device.len() {
        put_command(device, i, waiting, writer)?;
    }
    Ok(())
}

/// Puts out the text of the command at an index.
fn put_command<W: Sink>(
    device: &DeviceProfile,
    index: usize,
    waiting: &mut Waiting,
    writer: &mut W,
) -> Result<(), RunFault>
    requires { index < length device.now.commands }
    ensures puts { (command : CommandParts) → slice_get device.now.commands index ≡ Some command
        → OnOk result (PutsText (W.told writer.old).held waiting.old.items (W.told writer.new).held waiting.new.items (command_text device.now command)) }
    ensures failed { WriterTells (W.told writer.old) (W.told writer.new) result }
{
    accepted_device(device);
    let Some(entry) = device.entry_at(index) else {
        return Ok(());
    };
    put_entry(device, entry, waiting, writer)
}

/// Puts out the rows of a command of a device, and what its data mean.
fn put_entry<W: Sink>(
    device: &DeviceProfile,
    entry: &Entry,
    waiting: &mut Waiting,
    writer: &mut W,
) -> Result<(), RunFault>
    requires { IsEntry (entry_parts entry.now) }
    ensures puts { (command : CommandParts) → command_with entry.now.code device.now.commands ≡ Some command → command.entry ≡ entry_parts entry.now
        → OnOk result (PutsText (W.told writer.old).held waiting.old.items (W.told writer.new).held waiting.new.items (command_text device.now command)) }
    ensures failed { WriterTells (W.told writer.old) (W.told writer.new) result }
{
    texts_add_up();
    put_rows(device, entry, waiting, writer)?;
    put(waiting, meaning_lines(device, entry).as_slice(), writer)
}

/// Puts out the rows of a command of a device: one for each page where it begins by page.
fn put_rows<W: Sink>(
    device: &DeviceProfile,
    entry: &Entry,
    waiting: &mut Waiting,
    writer: &mut W,
) -> Result<(), RunFault>
    requires { IsEntry (entry_parts entry.now) }
    ensures puts { (command : CommandParts) → command_with entry.now.code device.now.commands ≡ Some command → command.entry ≡ entry_parts entry.now
        → OnOk result (PutsText (W.told writer.old).held waiting.old.items (W.told writer.new).held waiting.new.items (command_rows device.now command)) }
    ensures failed { WriterTells (W.told writer.old) (W.told writer.new) result }
{
    if begins_by_page(device, entry) {
        return put_page_rows(device, entry, waiting, writer);
    }
    put(waiting, command_row(device, entry).as_slice(), writer)
}

/// Puts out a row of a command for each page.
fn put_page_rows<W: Sink>(
    device: &DeviceProfile,
    entry: &Entry,
    waiting: &mut Waiting,
    writer: &mut W,
) -> Result<(), RunFault>
    requires { IsEntry (entry_parts entry.now) }
    ensures puts { (command : CommandParts) → command_with entry.now.code device.now.commands ≡ Some command → command.entry ≡ entry_parts entry.now
        → OnOk result (PutsText (W.told writer.old).held waiting.old.items (W.told writer.new).held waiting.new.items (flat_map (page_row device.now command) (range_with_len 0 device.now.pages))) }
    ensures failed { WriterTells (W.told writer.old) (W.told writer.new) result }
{
    texts_add_up();
    for page in 0..device.pages() {
        put(waiting, page_row(device, entry, page).as_slice(), writer)?;
    }
    Ok(())
}
