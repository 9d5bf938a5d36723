//! The last objects: how often each device came, and the totals.
//!
//! Its rows: `tests_json`, `src/object_lines/counts.rt`; `tests/rows/json_objects.txt`.

ghost use Rattle.std.specs.Prelude.{◌≡◌, ◌+◌, ◌≤◌, ◌++◌, codes, length, ℕ};
ghost use Rattle.pmb_io.specs.Count.{capped};
ghost use Rattle.pmb_json_text.specs.declared.item_order.ItemOrder.TheVariants.{First, Later};
ghost use Rattle.pmb_json_text.specs.Member.{members_text, object_line};
ghost use Rattle.pmb_json_objects.specs.Counts.{CountsData, DeviceData, counts_object, end_object, others_members};
ghost use Rattle.pmb_json_objects.specs.Members.{kind_member};
ghost use Rattle.pmb_json_objects.specs.machine.Counting.{CountsAre, device_counts};

use crate::OBJECT;
use crate::counts::{Counts, DeviceCounts};
use crate::members::append_device;
use arrayvec::ArrayVec;
use pmb_json_text::{
    ItemOrder, NUMBER_MEMBER, TEXT_MEMBER, begin, end, number_member, text_member,
};
use pmb_table::Profile;

/// The most bytes of such an object's begin.
const LAST_HEAD: usize = 1 + TEXT_MEMBER + 6 * 6;

/// Appends the line of how often a device came, and of its others if the profile tells which addresses
/// speak no PMBus.
pub fn device_line<const N: usize>(
    out: &mut ArrayVec<u8, N>,
    profile: &Profile,
    gives_others: bool,
    addr: u8,
    counts: &DeviceCounts,
)
    requires room { length out.old.items + OBJECT ≤ N }
    ensures line { (known : DeviceData) → counts.now ≡ device_counts known → out.new.items ≡ out.old.items ++ object_line (counts_object profile.now gives_others addr known).members }
    ensures short { length out.new.items ≤ length out.old.items + OBJECT }
{
    begin_last(out, b"device");
    append_device(out, profile, addr);
    number_member(out, ItemOrder::Later, "writes", counts.writes);
    number_member(out, ItemOrder::Later, "reads", counts.reads);
    number_member(out, ItemOrder::Later, "calls", counts.calls);
    number_member(out, ItemOrder::Later, "refused", counts.refused);
    number_member(out, ItemOrder::Later, "refusals", counts.refusals);
    append_others(out, gives_others, counts.others);
    end(out);
}

/// Appends the last line, that of the totals, with the others if the profile tells which addresses speak
/// no PMBus.
pub fn end_line<const N: usize>(out: &mut ArrayVec<u8, N>, gives_others: bool, counts: &Counts)
    requires room { length out.old.items + OBJECT ≤ N }
    ensures line { (known : CountsData) → CountsAre counts.now known
        → out.new.items ≡ out.old.items ++ object_line (end_object gives_others known).members }
    ensures short { length out.new.items ≤ length out.old.items + OBJECT }
{
    begin_last(out, b"end");
    number_member(out, ItemOrder::Later, "packets", counts.packets());
    number_member(out, ItemOrder::Later, "refusals", counts.refusals());
    number_member(out, ItemOrder::Later, "bad_tokens", counts.bad_tokens());
    append_others(out, gives_others, counts.others());
    end(out);
}

/// Appends how many others there were, if that is told.
fn append_others<const N: usize>(out: &mut ArrayVec<u8, N>, gives_others: bool, others: u64)
    requires room { length out.old.items + NUMBER_MEMBER ≤ N }
    ensures members { (known : ℕ) → others ≡ capped known → out.new.items ≡ out.old.items ++ members_text Later (others_members gives_others known) }
    ensures short { length out.new.items ≤ length out.old.items + NUMBER_MEMBER }
{
    if gives_others {
        number_member(out, ItemOrder::Later, "others", others);
    }
}

/// Begins an object that stands nowhere in the capture.
fn begin_last<const N: usize>(out: &mut ArrayVec<u8, N>, kind: &[u8])
    requires room { length out.old.items + LAST_HEAD ≤ N }
    requires kind { length kind.now ≤ 6 }
    ensures begun { out.new.items ≡ out.old.items ++ (codes "{" ++ members_text First (kind_member kind.now)) }
    ensures short { length out.new.items ≤ length out.old.items + LAST_HEAD }
{
    begin(out);
    text_member(out, ItemOrder::First, "kind", kind);
}
