//! The members that objects share.
//!
//! Its rows: `tests_json`, `src/object_lines/packets.rt`; `tests/rows/json_objects.txt`.

ghost use Rattle.std.specs.Prelude.{◌≡◌, ◌+◌, ◌*◌, ◌≤◌, ◌++◌, ◌∷◌, [], IsTrue, Some, codes, length, option_map};
ghost use Rattle.std.specs.Option.{ForSome};
ghost use Rattle.pmb_keys.specs.CommandView.{command_parts};
ghost use Rattle.pmb_json_text.specs.declared.item_order.ItemOrder.TheVariants.{First, Later};
ghost use Rattle.pmb_json_text.specs.Member.{digits, is_key, members_text, named};
ghost use Rattle.pmb_json_objects.specs.Members.{command_members, device_members, entry_members, head_members, is_marked, name_at, name_members, page_members, page_mode_member, part_members, phase_member, selected_value, sent_command, time_members};
ghost use Rattle.pmb_json_objects.specs.Head.{head_of};
ghost use Rattle.pmb_json_objects.specs.Seen.{SeenData, page_at, page_basis_at, phase_at};
ghost use Rattle.pmb_json_objects.specs.Sees.{Sees};

use crate::head::{Head, TIME};
use crate::seen::Seen;
use arrayvec::ArrayVec;
use pmb_command_data::has_phases;
use pmb_json_fields::Basis;
use pmb_json_text::{
    ItemOrder, NULL_MEMBER, NUMBER_MEMBER, TEXT_MEMBER, begin, hex_member, null_member,
    number_member, text_member,
};
use pmb_keys::Command;
use pmb_table::laws::accepted_device;
use pmb_table::{DeviceProfile, Profile};

/// The most bytes of a time.
const TIME_MEMBER: usize = TEXT_MEMBER + 6 * TIME;

/// The most bytes of an object's begin, up to its kind.
pub(crate) const HEAD: usize = 1 + 3 * NUMBER_MEMBER + TIME_MEMBER + TEXT_MEMBER + 6 * 9;

/// The most bytes of a member whose value is the digits of one byte.
pub(crate) const BYTE_MEMBER: usize = TEXT_MEMBER + 2;

/// The most bytes of a device and its name.
pub(crate) const DEVICE_MEMBERS: usize = BYTE_MEMBER + NAME_MEMBER;

/// The most bytes of a device's name.
const NAME_MEMBER: usize = TEXT_MEMBER + 6 * 32;

/// The most bytes of a page or a phase.
const SELECTED_MEMBER: usize = NUMBER_MEMBER;

/// The most bytes of the word that a page is assumed.
const PAGE_MODE_MEMBER: usize = TEXT_MEMBER + 6 * 7;

/// The most bytes of a page, and of that word.
const PAGE_MEMBERS: usize = SELECTED_MEMBER + PAGE_MODE_MEMBER;

/// The most bytes of a command's name, its page and its phase.
const ENTRY_MEMBERS: usize = TEXT_MEMBER + 6 * 32 + PAGE_MEMBERS + SELECTED_MEMBER;

/// The most bytes of a code, its command, the page and the phase.
pub(crate) const COMMAND_MEMBERS: usize = BYTE_MEMBER + ENTRY_MEMBERS;

/// Begins an object: where its first event stands, the time of its packet, and its kind.
pub(crate) fn begin_object<const N: usize>(out: &mut ArrayVec<u8, N>, head: Head<'_>, kind: &[u8])
    requires room { length out.old.items + HEAD ≤ N }
    requires kind { length kind.now ≤ 9 }
    ensures begun { out.new.items ≡ out.old.items ++ (codes "{" ++ members_text First (head_members (head_of head.entry) kind.now)) }
    ensures short { length out.new.items ≤ length out.old.items + HEAD }
{
    begin(out);
    number_member(out, ItemOrder::First, "at", head.at);
    number_member(out, ItemOrder::Later, "line", head.place.line);
    number_member(out, ItemOrder::Later, "column", head.place.column);
    append_time(out, head.time);
    text_member(out, ItemOrder::Later, "kind", kind);
}

/// Appends the time of a packet, where one is known.
fn append_time<const N: usize>(out: &mut ArrayVec<u8, N>, time: Option<&[u8]>)
    requires room { length out.old.items + TIME_MEMBER ≤ N }
    requires short { ForSome time (λ t. length t.now ≤ 40) }
    ensures members { out.new.items ≡ out.old.items ++ members_text Later (time_members (option_map (λ t. t.now) time.entry)) }
    ensures short { length out.new.items ≤ length out.old.items + TIME_MEMBER }
{
    if let Some(time) = time {
        text_member(out, ItemOrder::Later, "time", time);
    }
}

/// Appends the member of a byte, by its digits.
#[inline(always)]
pub(crate) fn append_byte<const N: usize>(out: &mut ArrayVec<u8, N>, key: &str, byte: u8)
    requires key { IsTrue (is_key key.now) }
    requires room { length out.old.items + BYTE_MEMBER ≤ N }
    ensures member { out.new.items ≡ out.old.items ++ members_text Later (named key.now (digits (byte ∷ [])) ∷ []) }
    ensures short { length out.new.items ≤ length out.old.items + BYTE_MEMBER }
{
    hex_member(out, ItemOrder::Later, key, &[byte]);
}

/// Appends a device, and its name, where the profile gives one.
pub(crate) fn append_device<const N: usize>(out: &mut ArrayVec<u8, N>, profile: &Profile, addr: u8)
    requires room { length out.old.items + DEVICE_MEMBERS ≤ N }
    ensures members { out.new.items ≡ out.old.items ++ members_text Later (device_members profile.now addr) }
    ensures short { length out.new.items ≤ length out.old.items + DEVICE_MEMBERS }
{
    append_byte(out, "device", addr);
    append_name(out, name_at(profile, addr));
}

/// Appends the name of a device, where there is one.
fn append_name<const N: usize>(out: &mut ArrayVec<u8, N>, name: Option<&[u8]>)
    requires room { length out.old.items + NAME_MEMBER ≤ N }
    requires short { ForSome name (λ n. length n.now ≤ 32) }
    ensures members { out.new.items ≡ out.old.items ++ members_text Later (name_members (option_map (λ n. n.now) name.entry)) }
    ensures short { length out.new.items ≤ length out.old.items + NAME_MEMBER }
{
    if let Some(name) = name {
        text_member(out, ItemOrder::Later, "name", name);
    }
}

/// The name of the device with an address, where the profile gives one.
fn name_at(profile: &Profile, addr: u8) -> Option<&[u8]>
    ensures name { option_map (λ n. n.now) result ≡ name_at profile.now addr }
    ensures short { ForSome result (λ n. length n.now ≤ 32) }
{
    match profile.device(addr) {
        Some(device) => name_of(device),
        None => None,
    }
}

/// The name of a device, where the profile gives one.
fn name_of(device: &DeviceProfile) -> Option<&[u8]>
    ensures name { option_map (λ n. n.now) result ≡ device.now.name }
    ensures short { ForSome result (λ n. length n.now ≤ 32) }
{
    accepted_device(device);
    match device.name() {
        Some(name) => Some(name.as_bytes()),
        None => None,
    }
}

/// Appends the page or the phase that is selected.
fn append_selected<const N: usize>(out: &mut ArrayVec<u8, N>, key: &str, selected: Option<u8>)
    requires key { IsTrue (is_key key.now) }
    requires room { length out.old.items + SELECTED_MEMBER ≤ N }
    ensures member { out.new.items ≡ out.old.items ++ members_text Later (named key.now (selected_value selected) ∷ []) }
    ensures short { length out.new.items ≤ length out.old.items + SELECTED_MEMBER }
{
    match selected {
        None => null_member(out, ItemOrder::Later, key),
        Some(0xff) => text_member(out, ItemOrder::Later, key, b"all"),
        Some(number) => number_member(out, ItemOrder::Later, key, u64::from(number)),
    }
}

/// Whether a page is marked as assumed: it is known, and the device has several.
fn is_marked(page: Option<u8>, basis: Basis, pages: u8) -> bool
    ensures { result ≡ is_marked page basis pages }
{
    match (page, basis) {
        (Some(_), Basis::Assumed) => pages > 1,
        (Some(_), Basis::Told) | (None, _) => false,
    }
}

/// Appends that a page is assumed, where it is marked so.
fn append_page_mode<const N: usize>(
    out: &mut ArrayVec<u8, N>,
    page: Option<u8>,
    basis: Basis,
    pages: u8,
)
    requires room { length out.old.items + PAGE_MODE_MEMBER ≤ N }
    ensures members { out.new.items ≡ out.old.items ++ members_text Later (page_mode_member page basis pages) }
    ensures short { length out.new.items ≤ length out.old.items + PAGE_MODE_MEMBER }
{
    if is_marked(page, basis, pages) {
        text_member(out, ItemOrder::Later, "page_mode", b"assumed");
    }
}

/// Appends the page of a paged command, and whether it is assumed.
fn append_page<const N: usize>(
    out: &mut ArrayVec<u8, N>,
    seen: &Seen<'_>,
    addr: u8,
    device: &DeviceProfile,
    paged: bool,
)
    requires room { length out.old.items + PAGE_MEMBERS ≤ N }
    ensures members { (known : SeenData) → Sees seen.now known
        → out.new.items ≡ out.old.items ++ members_text Later (page_members paged (page_at known addr) (page_basis_at known addr) device.now.pages) }
    ensures short { length out.new.items ≤ length out.old.items + PAGE_MEMBERS }
{
    if paged {
        let page = seen.page(addr);
        append_selected(out, "page", page);
        append_page_mode(out, page, seen.page_basis(addr), device.pages());
    }
}

/// Appends the phase of a command that has phases.
fn append_phase<const N: usize>(out: &mut ArrayVec<u8, N>, seen: &Seen<'_>, addr: u8, phased: bool)
    requires room { length out.old.items + SELECTED_MEMBER ≤ N }
    ensures members { (known : SeenData) → Sees seen.now known → out.new.items ≡ out.old.items ++ members_text Later (phase_member phased (phase_at known addr)) }
    ensures short { length out.new.items ≤ length out.old.items + SELECTED_MEMBER }
{
    if phased {
        append_selected(out, "phase", seen.phase(addr));
    }
}

/// Appends the name of a device's command, its page and its phase.
fn append_entry<const N: usize>(
    out: &mut ArrayVec<u8, N>,
    seen: &Seen<'_>,
    addr: u8,
    device: &DeviceProfile,
    command: &Command,
)
    requires room { length out.old.items + ENTRY_MEMBERS ≤ N }
    ensures members { (known : SeenData) → Sees seen.now known → out.new.items ≡ out.old.items ++ members_text Later (entry_members (page_at known addr) (page_basis_at known addr) (phase_at known addr) device.now (command_parts command.now)) }
    ensures short { length out.new.items ≤ length out.old.items + ENTRY_MEMBERS }
{
    text_member(
        out,
        ItemOrder::Later,
        "command",
        command.entry.name.as_bytes(),
    );
    append_page(out, seen, addr, device, command.entry.paged);
    append_phase(out, seen, addr, has_phases(device, command));
}

/// Appends a command's code, and, where the device has that command, its name, page and phase.
pub(crate) fn append_command<const N: usize>(
    out: &mut ArrayVec<u8, N>,
    seen: &Seen<'_>,
    addr: u8,
    code: u8,
)
    requires room { length out.old.items + COMMAND_MEMBERS ≤ N }
    ensures members { (known : SeenData) → Sees seen.now known → out.new.items ≡ out.old.items ++ members_text Later (command_members known addr code) }
    ensures short { length out.new.items ≤ length out.old.items + COMMAND_MEMBERS }
{
    append_byte(out, "code", code);
    let Some(device) = seen.device(addr) else {
        return;
    };
    let Some(command) = device.command(code) else {
        return;
    };
    append_entry(out, seen, addr, device, command);
}

/// Appends the command whose code comes first among bytes that were sent.
pub(crate) fn append_sent_command<const N: usize>(
    out: &mut ArrayVec<u8, N>,
    seen: &Seen<'_>,
    addr: u8,
    sent: &[u8],
)
    requires room { length out.old.items + COMMAND_MEMBERS ≤ N }
    ensures members { (known : SeenData) → Sees seen.now known → out.new.items ≡ out.old.items ++ members_text Later (sent_command known addr sent.now) }
    ensures short { length out.new.items ≤ length out.old.items + COMMAND_MEMBERS }
{
    if let [code, ..] = sent {
        append_command(out, seen, addr, *code);
    }
}

/// The most bytes of which part an object is.
pub(crate) const PART_MEMBERS: usize = 2 * NUMBER_MEMBER;

/// Appends which part an object is, of how many; nothing where it is the only one.
pub(crate) fn append_part<const N: usize>(out: &mut ArrayVec<u8, N>, part: u64, parts: u64)
    requires room { length out.old.items + PART_MEMBERS ≤ N }
    ensures members { out.new.items ≡ out.old.items ++ members_text Later (part_members part parts) }
    ensures short { length out.new.items ≤ length out.old.items + PART_MEMBERS }
{
    if parts > 1 {
        number_member(out, ItemOrder::Later, "part", part);
        number_member(out, ItemOrder::Later, "parts", parts);
    }
}
