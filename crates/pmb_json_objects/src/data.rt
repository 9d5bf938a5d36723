//! What is said of a command's data.
//!
//! Its rows: `tests_json`, `src/object_lines/packets.rt`; `tests/rows/json_objects.txt`.

ghost use Rattle.std.specs.Prelude.{◌≡◌, ◌+◌, ◌≤◌, ◌++◌, length};
ghost use Rattle.pmb_json_text.specs.declared.item_order.ItemOrder.TheVariants.{Later};
ghost use Rattle.pmb_json_text.specs.Member.{members_text};
ghost use Rattle.pmb_keys.specs.CommandView.{command_parts};
ghost use Rattle.pmb_meaning.specs.Data.{exchange};
ghost use Rattle.pmb_json_objects.specs.Packets.{call_says, data_of, exchange_of, said_of};
ghost use Rattle.pmb_json_objects.specs.Seen.{SeenData};
ghost use Rattle.pmb_json_objects.specs.Sees.{Sees};

use crate::seen::Seen;
use arrayvec::ArrayVec;
use pmb_json_fields::{Access, DATA_MEMBERS, data_members};
use pmb_keys::Command;
use pmb_meaning::{Payload, SAYS_MEMBER, says_member};
use pmb_table::DeviceProfile;
use pmb_voltage::Voltages;

/// The most bytes of what is said of data: what they are, and what their fields say.
pub(crate) const SAID_MEMBERS: usize = DATA_MEMBERS + SAYS_MEMBER;

/// Appends what is said of the data of a command, where a device has that address, and the command.
pub(crate) fn append_data<const N: usize>(
    out: &mut ArrayVec<u8, N>,
    seen: &Seen<'_>,
    access: Access,
    addr: u8,
    code: u8,
    bytes: &[u8],
)
    requires few { length bytes.now ≤ 255 }
    requires room { length out.old.items + SAID_MEMBERS ≤ N }
    ensures members { (known : SeenData) → Sees seen.now known → out.new.items ≡ out.old.items ++ members_text Later (said_of known access addr code bytes.now) }
    ensures short { length out.new.items ≤ length out.old.items + SAID_MEMBERS }
{
    let Some(device) = seen.device(addr) else {
        return;
    };
    let Some(command) = device.command(code) else {
        return;
    };
    append_data_of(out, seen, access, addr, device, command, bytes);
}

/// Appends what the data of a command of a device are, and what their fields say.
fn append_data_of<const N: usize>(
    out: &mut ArrayVec<u8, N>,
    seen: &Seen<'_>,
    access: Access,
    addr: u8,
    device: &DeviceProfile,
    command: &Command,
    bytes: &[u8],
)
    requires few { length bytes.now ≤ 255 }
    requires room { length out.old.items + SAID_MEMBERS ≤ N }
    ensures members { (known : SeenData) → Sees seen.now known
        → out.new.items ≡ out.old.items ++ members_text Later (data_of known access addr bytes.now device.now (command_parts command.now)) }
    ensures short { length out.new.items ≤ length out.old.items + SAID_MEMBERS }
{
    let voltages = Voltages {
        mode: seen.mode(addr),
        page: seen.page(addr),
        coefficients: device.vout_direct(),
        vid: device.vid(),
    };
    let basis = seen.basis(addr);
    data_members(out, seen.digits, access, &voltages, basis, command, bytes);
    says_member(out, device, &command.entry, &payload(access, bytes));
}

/// Data that are read or written.
fn payload<'b>(access: Access, bytes: &'b [u8]) -> Payload<'b>
    ensures { exchange result ≡ exchange_of access bytes.now }
{
    match access {
        Access::Read => Payload::Read(bytes),
        Access::Write => Payload::Written(bytes),
    }
}

/// Appends what the fields of a process call say, where a device has that address, and the command.
pub(crate) fn append_call<const N: usize>(
    out: &mut ArrayVec<u8, N>,
    seen: &Seen<'_>,
    addr: u8,
    code: u8,
    sent: &[u8],
    reply: &[u8],
)
    requires room { length out.old.items + SAYS_MEMBER ≤ N }
    ensures members { (known : SeenData) → Sees seen.now known → out.new.items ≡ out.old.items ++ members_text Later (call_says known addr code sent.now reply.now) }
    ensures short { length out.new.items ≤ length out.old.items + SAYS_MEMBER }
{
    let Some(device) = seen.device(addr) else {
        return;
    };
    let Some(command) = device.command(code) else {
        return;
    };
    says_member(
        out,
        device,
        &command.entry,
        &Payload::Called { sent, reply },
    );
}
