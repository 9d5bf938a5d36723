//! The objects: one for each device for which something was counted, and that of the whole.
//!
//! Its rows: `tests/rows/stats.txt`.

ghost use Rattle.std.specs.Prelude.{◌≡◌, ◌+◌, ◌<◌, ◌≤◌, ◌++◌, List, OnOk, codes, length, option_map};
ghost use Rattle.std.specs.List.{range_with_len};
ghost use Rattle.std.specs.Option.{ForSome};
ghost use Rattle.pmb_facts.specs.Fact.{FactData};
ghost use Rattle.pmb_io.specs.Calls.{WriterTells};
ghost use Rattle.pmb_io.specs.Outgoing.{PutsText};
ghost use Rattle.pmb_json_objects.specs.Members.{device_members, kind_member, name_at as name_at_address};
ghost use Rattle.pmb_json_text.specs.declared.item_order.ItemOrder.TheVariants.{First, Later};
ghost use Rattle.pmb_json_text.specs.Member.{members_text, object_line};
ghost use Rattle.pmb_keeper.specs.Setting.{Setting};
ghost use Rattle.pmb_observed.specs.Observing.{observations};
ghost use Rattle.pmb_stats.specs.Standing.{StatsStand};
ghost use Rattle.pmb_stats_counts.specs.Counts.{of_device};
ghost use Rattle.pmb_stats_counts.specs.Standing.{HasCounted};
ghost use Rattle.pmb_stats_objects.specs.Counts.{counts_members};
ghost use Rattle.pmb_stats_objects.specs.Members.{list_member};
ghost use Rattle.pmb_stats_objects.specs.Objects.{end_object, objects_text};
ghost use Rattle.pmb_stats_objects.specs.Pages.{page_items};
ghost use Rattle.pmb_stats_objects.specs.machine.Standing.{device_line, device_lines};

use crate::counts::{COUNTS, append_counts};
use crate::member::{TIME_MEMBER, append_count, append_text};
use crate::pages::DevicePages;
use arrayvec::ArrayVec;
use pmb_decimal::Digits;
use pmb_io::laws::texts_add_up;
use pmb_io::{RunFault, Sink, Waiting, make_room, put};
use pmb_json_objects::is_wanted;
use pmb_json_text::{
    ItemOrder, NUMBER_MEMBER, TEXT_MEMBER, begin, end, hex_member, number_member, text_member,
};
use pmb_stats::Statistics;
use pmb_stats_counts::SortCounts;
use pmb_stats_counts::laws::devices_that_came_have_counts;
use pmb_table::laws::accepted_device;
use pmb_table::{DeviceProfile, Profile};

/// The most bytes of an object's kind.
const KIND: usize = 1 + TEXT_MEMBER + 6 * 6;

/// The most bytes of a device's object up to its pages.
const DEVICE: usize = KIND + (TEXT_MEMBER + 2) + TIME_MEMBER + COUNTS;

/// The most bytes of the object of the whole.
const WHOLE: usize = KIND + 2 * NUMBER_MEMBER + COUNTS + 2 * TIME_MEMBER + 2;

/// Puts out the objects of a capture, each a line of JSON: from the lowest address up those of the
/// devices for which something was counted, and last that of the whole. Of devices, those in `devices`
/// are wanted; all are where there is none of these. A number has at most that many digits after the
/// point.
///
/// # Errors
///
/// `Write` where the writer failed.
pub fn put_objects<W: Sink>(
    stats: &Statistics<'_>,
    digits: Digits,
    devices: &[u8],
    waiting: &mut Waiting,
    writer: &mut W,
) -> Result<(), RunFault>
    ensures puts { (setting : Setting) (facts : List FactData) → StatsStand stats.now setting facts
        → OnOk result (PutsText (W.told writer.old).held waiting.old.items (W.told writer.new).held waiting.new.items (objects_text digits setting facts devices.now)) }
    ensures failed { WriterTells (W.told writer.old) (W.told writer.new) result }
{
    texts_add_up();
    put_devices(stats, digits, devices, waiting, writer)?;
    make_room(waiting, WHOLE, writer)?;
    append_whole(waiting, stats);
    Ok(())
}

/// Puts out the objects of the devices.
fn put_devices<W: Sink>(
    stats: &Statistics<'_>,
    digits: Digits,
    devices: &[u8],
    waiting: &mut Waiting,
    writer: &mut W,
) -> Result<(), RunFault>
    ensures puts { (setting : Setting) (facts : List FactData) → StatsStand stats.now setting facts
        → OnOk result (PutsText (W.told writer.old).held waiting.old.items (W.told writer.new).held waiting.new.items
        (device_lines digits setting facts devices.now (range_with_len 0 128))) }
    ensures failed { WriterTells (W.told writer.old) (W.told writer.new) result }
{
    texts_add_up();
    for addr in 0..128u8 {
        put_device(stats, digits, devices, addr, waiting, writer)?;
    }
    Ok(())
}

/// Puts out the object of a device, if something was counted for it and it is wanted.
fn put_device<W: Sink>(
    stats: &Statistics<'_>,
    digits: Digits,
    devices: &[u8],
    addr: u8,
    waiting: &mut Waiting,
    writer: &mut W,
) -> Result<(), RunFault>
    requires { addr < 128 }
    ensures puts { (setting : Setting) (facts : List FactData) → StatsStand stats.now setting facts
        → OnOk result (PutsText (W.told writer.old).held waiting.old.items (W.told writer.new).held waiting.new.items
        (device_line digits setting facts devices.now addr)) }
    ensures failed { WriterTells (W.told writer.old) (W.told writer.new) result }
{
    texts_add_up();
    devices_that_came_have_counts();
    let counts = stats.counts(addr);
    if counts.is_empty() {
        return Ok(());
    }
    if !is_wanted(devices, Some(addr)) {
        return Ok(());
    }
    make_room(waiting, DEVICE, writer)?;
    begin_device(waiting, stats.profile(), addr, counts);
    put_pages(stats, digits, addr, waiting, writer)?;
    put(waiting, b"}\n", writer)
}

/// Puts out the list of a device's pages, if any has anything.
fn put_pages<W: Sink>(
    stats: &Statistics<'_>,
    digits: Digits,
    addr: u8,
    waiting: &mut Waiting,
    writer: &mut W,
) -> Result<(), RunFault>
    ensures puts { (setting : Setting) (facts : List FactData) → StatsStand stats.now setting facts
        → OnOk result (PutsText (W.told writer.old).held waiting.old.items (W.told writer.new).held waiting.new.items
        (members_text Later (list_member (codes "pages") (page_items digits setting.profile (observations setting facts) addr)))) }
    ensures failed { WriterTells (W.told writer.old) (W.told writer.new) result }
{
    texts_add_up();
    let Some(profile) = stats.profile().device(addr) else {
        return Ok(());
    };
    let pages = DevicePages {
        stats,
        profile,
        addr,
        digits,
    };
    pages.put_pages(waiting, writer)
}

/// Begins the object of a device: its address, its name if the profile gives one, and its counts.
fn begin_device<const N: usize>(
    out: &mut ArrayVec<u8, N>,
    profile: &Profile,
    addr: u8,
    counts: &SortCounts,
)
    requires room { length out.old.items + DEVICE ≤ N }
    ensures begun { (facts : List FactData) → HasCounted counts.now facts
        → out.new.items ≡ out.old.items ++ (codes "{" ++ members_text First (kind_member (codes "device") ++ device_members profile.now addr ++ counts_members facts)) }
    ensures short { length out.new.items ≤ length out.old.items + DEVICE }
{
    begin_object(out, b"device");
    hex_member(out, ItemOrder::Later, "device", &[addr]);
    append_text(out, "name", name_at(profile, addr));
    append_counts(out, counts);
}

/// The name of the device with an address, if the profile gives one.
fn name_at(profile: &Profile, addr: u8) -> Option<&[u8]>
    ensures name { option_map (λ name. name.now) result ≡ name_at_address profile.now addr }
    ensures short { ForSome result (λ name. length name.now ≤ 32) }
{
    match profile.device(addr) {
        Some(device) => name_of(device),
        None => None,
    }
}

/// The name of a device, if the profile gives one.
fn name_of(device: &DeviceProfile) -> Option<&[u8]>
    ensures name { option_map (λ name. name.now) result ≡ device.now.name }
    ensures short { ForSome result (λ name. length name.now ≤ 32) }
{
    accepted_device(device);
    match device.name() {
        Some(name) => Some(name.as_bytes()),
        None => None,
    }
}

/// Appends the object of the whole, and LF.
fn append_whole<const N: usize>(out: &mut ArrayVec<u8, N>, stats: &Statistics<'_>)
    requires room { length out.old.items + WHOLE ≤ N }
    ensures line { (setting : Setting) (facts : List FactData) → StatsStand stats.now setting facts
        → out.new.items ≡ out.old.items ++ object_line (end_object facts).members }
    ensures short { length out.new.items ≤ length out.old.items + WHOLE }
{
    let totals = stats.totals();
    begin_object(out, b"end");
    number_member(out, ItemOrder::Later, "packets", totals.packets());
    append_counts(out, totals);
    append_count(out, ItemOrder::Later, "bad_tokens", totals.bad_tokens());
    append_text(out, "first", stats.first());
    append_text(out, "last", stats.last());
    end(out);
}

/// Begins an object by its kind.
fn begin_object<const N: usize>(out: &mut ArrayVec<u8, N>, kind: &[u8])
    requires room { length out.old.items + KIND ≤ N }
    requires kind { length kind.now ≤ 6 }
    ensures begun { out.new.items ≡ out.old.items ++ (codes "{" ++ members_text First (kind_member kind.now)) }
    ensures short { length out.new.items ≤ length out.old.items + KIND }
{
    begin(out);
    text_member(out, ItemOrder::First, "kind", kind);
}
