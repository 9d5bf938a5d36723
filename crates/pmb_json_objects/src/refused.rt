//! The object of a leg that was refused.
//!
//! Its rows: `tests_json`, `src/object_lines/packets.rt`; `tests/rows/json_objects.txt`.

ghost use Rattle.std.specs.Prelude.{◌≡◌, ◌+◌, ◌<◌, ◌≤◌, ◌++◌, ◌∷◌, [], if◌then◌else◌, MatchOption, Some, codes, length};
ghost use Rattle.pmb_bus.specs.Address.{write_address as write_address_of};
ghost use Rattle.pmb_bus.specs.Pec.{pec};
ghost use Rattle.pmb_command.specs.Parts.{device_with};
ghost use Rattle.pmb_json_text.specs.declared.item_order.ItemOrder.TheVariants.{Later};
ghost use Rattle.pmb_json_text.specs.Member.{members_text, object_line};
ghost use Rattle.pmb_transaction.specs.Body.{forms};
ghost use Rattle.pmb_json_objects.specs.Head.{head_of};
ghost use Rattle.pmb_json_objects.specs.Packets.{is_whole_in, is_whole_write, may_check, refused_check, refused_name, refused_object, right_members};
ghost use Rattle.pmb_json_objects.specs.Seen.{SeenData};
ghost use Rattle.pmb_json_objects.specs.Sees.{Sees};

use crate::OBJECT;
use crate::head::Head;
use crate::members::{
    BYTE_MEMBER, append_byte, append_device, append_part, append_sent_command, begin_object,
};
use crate::seen::Seen;
use arrayvec::ArrayVec;
use pmb_bus::{pec_next, write_address};
use pmb_command::{Form, PecMode};
use pmb_json_text::{ItemOrder, TEXT_MEMBER, end, hex_member, text_member};
use pmb_table::DeviceProfile;
use pmb_table::laws::accepted_bus;

/// The most bytes of what is said of a refused error code.
const CHECK_MEMBERS: usize = TEXT_MEMBER + 6 * 5 + BYTE_MEMBER;

/// Appends the line of the leg that was refused, as the last of so many parts.
pub fn refused_line<const N: usize>(
    out: &mut ArrayVec<u8, N>,
    seen: &Seen<'_>,
    head: Head<'_>,
    parts: u64,
    addr: u8,
    sent: &[u8],
    at_read: bool,
)
    requires room { length out.old.items + OBJECT ≤ N }
    requires sent { length sent.now ≤ 258 }
    ensures line { (known : SeenData) → Sees seen.now known → out.new.items ≡ out.old.items ++ object_line (refused_object known (head_of head.entry) parts addr sent.now at_read).members }
    ensures short { length out.new.items ≤ length out.old.items + OBJECT }
{
    begin_object(out, head, b"refused");
    append_part(out, parts, parts);
    append_device(out, seen.profile, addr);
    text_member(
        out,
        ItemOrder::Later,
        "refused",
        refused_name(sent, at_read),
    );
    append_sent_command(out, seen, addr, sent);
    hex_member(out, ItemOrder::Later, "sent", sent);
    append_check(out, seen, addr, sent, at_read);
    end(out);
}

/// What was refused: the address, a code, a later byte, or to be read.
fn refused_name(sent: &[u8], at_read: bool) -> &'static [u8]
    ensures name { result.now ≡ refused_name sent.now at_read }
    ensures short { length result.now ≤ 12 }
{
    if at_read {
        return b"read address";
    }
    match sent {
        [] => b"address",
        [_] => b"code",
        [_, _, ..] => b"byte",
    }
}

/// Appends whether a byte that was refused is the error code of a write, and the one that was due.
fn append_check<const N: usize>(
    out: &mut ArrayVec<u8, N>,
    seen: &Seen<'_>,
    addr: u8,
    sent: &[u8],
    at_read: bool,
)
    requires room { length out.old.items + CHECK_MEMBERS ≤ N }
    ensures members { (known : SeenData) → Sees seen.now known → out.new.items ≡ out.old.items ++ members_text Later (refused_check addr (device_with addr known.profile) sent.now at_read) }
    ensures short { length out.new.items ≤ length out.old.items + CHECK_MEMBERS }
{
    accepted_bus(seen.profile);
    if at_read {
        return;
    }
    let Some(device) = seen.device(addr) else {
        return;
    };
    let Some((last, front)) = split(sent) else {
        return;
    };
    if is_whole_write(device, front) {
        append_right(out, device.address(), front, last);
    }
}

/// The last byte, and those before it.
fn split(sent: &[u8]) -> Option<(u8, &[u8])>
    ensures { MatchOption result (sent.now ≡ []) (λ p. sent.now ≡ p.1.now ++ p.0 ∷ []) }
{
    match sent.split_last() {
        Some((last, front)) => Some((*last, front)),
        None => None,
    }
}

/// The form in which a device is written a command.
fn write_form(device: &DeviceProfile, code: u8) -> Option<Form>
    ensures { result ≡ (forms device.now code).write }
{
    match device.entry(code) {
        Some(entry) => entry.shape.write,
        None => None,
    }
}

/// Whether bytes are all the data of a form.
fn is_whole_in(form: Option<Form>, bytes: &[u8]) -> bool
    ensures { result ≡ is_whole_in form bytes.now }
{
    match form {
        Some(form) => form.wire_length(bytes) == bytes.len(),
        None => false,
    }
}

/// Whether bytes are a whole write to a device but for its error code.
fn is_whole_write(device: &DeviceProfile, front: &[u8]) -> bool
    ensures { result ≡ is_whole_write (Some device.now) front.now }
{
    let Some((code, bytes)) = front.split_first() else {
        return false;
    };
    device.pec().may_carry() && is_whole_in(write_form(device, *code), bytes)
}

/// Appends whether an error code is the right one, and the one that is.
fn append_right<const N: usize>(out: &mut ArrayVec<u8, N>, addr: u8, front: &[u8], last: u8)
    requires room { length out.old.items + CHECK_MEMBERS ≤ N }
    ensures members { addr < 128 → out.new.items ≡ out.old.items ++ members_text Later (right_members last (pec (write_address_of addr ∷ front.now))) }
    ensures short { length out.new.items ≤ length out.old.items + CHECK_MEMBERS }
{
    let right = write_code(addr, front);
    text_member(out, ItemOrder::Later, "pec", verdict(last == right));
    append_byte(out, "right_pec", right);
}

fn verdict(right: bool) -> &'static [u8]
    ensures text { result.now ≡ (if right then codes "right" else codes "wrong") }
    ensures short { length result.now ≤ 5 }
{
    if right { b"right" } else { b"wrong" }
}

/// The packet error code of a write of these bytes to an address.
fn write_code(addr: u8, bytes: &[u8]) -> u8
    ensures { addr < 128 → result ≡ pec (write_address_of addr ∷ bytes.now) }
{
    let mut code = pec_next(0, write_address(addr));
    for byte in bytes {
        code = pec_next(code, *byte);
    }
    code
}
