//! The command of an item, and what is selected for it.

ghost use Rattle.std.specs.Prelude.{◌≡◌, List};
ghost use Rattle.pmb_bus.specs.declared.event.Event.{Event as BusEvent};
ghost use Rattle.pmb_command.specs.Parts.{DeviceParts};
ghost use Rattle.pmb_json_objects.specs.Seen.{SeenData};
ghost use Rattle.pmb_json_objects.specs.Sees.{Sees};
ghost use Rattle.pmb_keys.specs.CommandView.{command_parts};
ghost use Rattle.pmb_partial_packet.specs.PartialPacket.{sent, written_to};
ghost use Rattle.pmb_partial_packet.specs.Standing.{SaidStandsAt};
ghost use Rattle.pmb_transaction.specs.Capture.{Viable};
ghost use Rattle.pmb_items.specs.Command.{command_seen, known_command, no_command, other_command, selected, sent_command, written_command};

use crate::item::{ItemCommand, NONE, UNKNOWN};
use pmb_command_data::has_phases;
use pmb_json_objects::Seen;
use pmb_keys::Command;
use pmb_partial_packet::PartialPacket;
use pmb_table::DeviceProfile;

/// The command with a code, sent to an address.
pub(crate) fn command_seen(seen: &Seen<'_>, addr: u8, code: u8) -> ItemCommand
    ensures { (known : SeenData) → Sees seen.now known → result ≡ command_seen known addr code }
{
    let Some(device) = seen.profile.device(addr) else {
        return other_command(u16::from(code));
    };
    let Some(command) = device.command(code) else {
        return other_command(u16::from(code));
    };
    known_command(seen, addr, code, device, command)
}

/// A command of a device, with what is selected.
fn known_command(
    seen: &Seen<'_>,
    addr: u8,
    code: u8,
    device: &DeviceProfile,
    command: &Command,
) -> ItemCommand
    ensures { (known : SeenData) → Sees seen.now known → result ≡ known_command known addr code device.now (command_parts command.now) }
{
    ItemCommand {
        code: u16::from(code),
        page: selected(command.entry.paged, seen.late.page(addr)),
        phase: selected(has_phases(device, command), seen.late.phase(addr)),
    }
}

/// The command of bytes that were sent, where there is a code.
pub(crate) fn sent_command(seen: &Seen<'_>, addr: u8, sent: &[u8]) -> ItemCommand
    ensures { (known : SeenData) → Sees seen.now known → result ≡ sent_command known addr sent.now }
{
    match sent {
        [code, ..] => command_seen(seen, addr, *code),
        [] => no_command(),
    }
}

/// The command in the last leg that is written.
pub(crate) fn written_command(seen: &Seen<'_>, said: &PartialPacket) -> ItemCommand
    ensures { (known : SeenData) (profile : List DeviceParts) (front : List BusEvent) → Sees seen.now known → Viable profile front → SaidStandsAt said.now front
        → result ≡ written_command known (written_to front) (sent front) }
{
    let Some(addr) = said.written_to() else {
        return no_command();
    };
    let Some(sent) = said.sent() else {
        return no_command();
    };
    sent_command(seen, addr, sent)
}

/// The page or the phase that is selected, of a command that has one.
fn selected(applies: bool, number: Option<u8>) -> u16
    ensures { result ≡ selected applies number }
{
    if !applies {
        return NONE;
    }
    match number {
        Some(number) => u16::from(number),
        None => UNKNOWN,
    }
}

/// A code that the device has no command for.
fn other_command(code: u16) -> ItemCommand
    ensures { result ≡ other_command code }
{
    ItemCommand {
        code,
        page: NONE,
        phase: NONE,
    }
}

/// No code was sent.
pub(crate) fn no_command() -> ItemCommand
    ensures { result ≡ no_command }
{
    other_command(NONE)
}
