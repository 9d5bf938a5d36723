//! What items of a page begin with: the command, and its phase.
//!
//! Its rows: `tests/rows/stats.txt`.

ghost use Rattle.std.specs.Prelude.{◌≡◌, ◌+◌, ◌≤◌, ◌++◌, codes, length};
ghost use Rattle.pmb_command.specs.Entry.{entry_parts};
ghost use Rattle.pmb_json_text.specs.declared.item_order.ItemOrder.TheVariants.{First, Later};
ghost use Rattle.pmb_json_text.specs.Member.{members_text};
ghost use Rattle.pmb_json_text.specs.Spelling.{comma};
ghost use Rattle.pmb_stats_objects.specs.Pages.{command_members, phase_member};

use crate::member::append_comma;
use arrayvec::ArrayVec;
use pmb_command::Entry;
use pmb_json_text::{
    ItemOrder, NUMBER_MEMBER, TEXT_MEMBER, begin, hex_member, null_member, number_member,
    text_member,
};
use pmb_observed::PhaseKey;

/// The most bytes of an item's begin, up to its phase.
pub(crate) const COMMAND: usize = 2 + (TEXT_MEMBER + 2) + (TEXT_MEMBER + 6 * 32) + NUMBER_MEMBER;

/// Begins an item, by its command's code and name, and the phase if the command has phases.
pub(crate) fn begin_item<const N: usize>(
    out: &mut ArrayVec<u8, N>,
    place: ItemOrder,
    entry: &Entry,
    phase: PhaseKey,
)
    requires room { length out.old.items + COMMAND ≤ N }
    ensures begun { out.new.items ≡ out.old.items ++ (comma place ++ (codes "{" ++ members_text First (command_members (entry_parts entry.now) phase))) }
    ensures short { length out.new.items ≤ length out.old.items + COMMAND }
{
    append_comma(out, place);
    begin(out);
    hex_member(out, ItemOrder::First, "code", &[entry.code]);
    text_member(out, ItemOrder::Later, "command", entry.name.as_bytes());
    append_phase(out, phase);
}

/// Appends which phase it is to an object that has members.
fn append_phase<const N: usize>(out: &mut ArrayVec<u8, N>, phase: PhaseKey)
    requires room { length out.old.items + NUMBER_MEMBER ≤ N }
    ensures member { out.new.items ≡ out.old.items ++ members_text Later (phase_member phase) }
    ensures short { length out.new.items ≤ length out.old.items + NUMBER_MEMBER }
{
    match phase {
        PhaseKey::OnPhase(phase) => {
            number_member(out, ItemOrder::Later, "phase", u64::from(phase))
        }
        PhaseKey::AllPhases => text_member(out, ItemOrder::Later, "phase", b"all"),
        PhaseKey::UnknownPhase => null_member(out, ItemOrder::Later, "phase"),
        PhaseKey::Unphased => {}
    }
}
