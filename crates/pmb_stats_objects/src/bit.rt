//! A bit of a status register that was read set.
//!
//! Its rows: `tests/rows/stats.txt`, bits.

ghost use Rattle.std.specs.Prelude.{◌≡◌, ◌+◌, ◌*◌, ◌<◌, ◌≤◌, ◌++◌, ◌∷◌, [], IfSome, List, codes, decimal, length, option_map};
ghost use Rattle.pmb_command_data.specs.Bits.{bit_text_in};
ghost use Rattle.pmb_json_text.specs.declared.item_order.ItemOrder.TheVariants.{Later};
ghost use Rattle.pmb_json_text.specs.Json.{string};
ghost use Rattle.pmb_json_text.specs.Member.{items_text, members_text, named};
ghost use Rattle.pmb_keys.specs.CommandView.{command_parts};
ghost use Rattle.pmb_note.specs.Note.{named_bit};
ghost use Rattle.pmb_observed.specs.declared.spot.PageKey.{PageKey};
ghost use Rattle.pmb_stats_bits.specs.Bits.{RegisterRead};
ghost use Rattle.pmb_stats_bits.specs.Standing.{BitStandsAt};
ghost use Rattle.pmb_stats_objects.specs.Pages.{bit_item};

use crate::command::{COMMAND, begin_item};
use crate::member::{TIME_MEMBER, append, append_text};
use arrayvec::ArrayVec;
use itoa::Buffer;
use pmb_command_data::bit_name;
use pmb_json_text::{ItemOrder, NUMBER_MEMBER, TEXT_MEMBER, number_member, text_member};
use pmb_keys::Command;
use pmb_observed::PhaseKey;
use pmb_stats_bits::BitHistory;

/// The most bytes of a bit's name.
const NAME: usize = 32;

/// The most bytes of the member of its name.
const NAME_MEMBER: usize = TEXT_MEMBER + 6 * NAME;

/// The most bytes of a bit.
pub(crate) const BIT: usize = COMMAND + NAME_MEMBER + NUMBER_MEMBER + 3 * TIME_MEMBER + 1;

/// Appends a bit of a command, counted from 0 at the lowest, as an item of a list.
pub(crate) fn append_bit<const N: usize>(
    out: &mut ArrayVec<u8, N>,
    place: ItemOrder,
    command: &Command,
    phase: PhaseKey,
    bit: u8,
    history: &BitHistory,
)
    requires few { bit < 16 }
    requires room { length out.old.items + BIT ≤ N }
    ensures item { (page : PageKey) (reads : List RegisterRead) → BitStandsAt history.now reads bit
        → out.new.items ≡ out.old.items ++ items_text place (bit_item (record { page = page; phase = phase; command = command_parts command.now; bit = bit; reads = reads }) ∷ []) }
    ensures short { length out.new.items ≤ length out.old.items + BIT }
{
    begin_item(out, place, &command.entry, phase);
    append_name(out, command, bit);
    number_member(out, ItemOrder::Later, "count", history.count());
    append_text(out, "first", history.first());
    append_text(out, "last", history.last());
    append_text(out, "gone", history.gone());
    append(out, b"}");
}

/// Appends the name of a bit, or its number if it has none.
fn append_name<const N: usize>(out: &mut ArrayVec<u8, N>, command: &Command, bit: u8)
    requires few { bit < 16 }
    requires room { length out.old.items + NAME_MEMBER ≤ N }
    ensures member { out.new.items ≡ out.old.items ++ members_text Later (named (codes "bit") (string (named_bit (bit_text_in (command_parts command.now).bits command.now.entry.code bit) bit)) ∷ []) }
    ensures short { length out.new.items ≤ length out.old.items + NAME_MEMBER }
{
    match name_of_bit(command, bit) {
        Some(name) => text_member(out, ItemOrder::Later, "bit", name.as_bytes()),
        None => text_member(out, ItemOrder::Later, "bit", number_of_bit(bit).as_slice()),
    }
}

/// What stands for a bit that has no name.
fn number_of_bit(bit: u8) -> ArrayVec<u8, NAME>
    requires few { bit < 16 }
    ensures { result.items ≡ codes "bit" ++ decimal bit }
{
    let mut text = ArrayVec::new();
    append(&mut text, b"bit");
    append(&mut text, Buffer::new().format(bit).as_bytes());
    text
}

/// The name of a bit, the profile's or the standard's, if it has one.
fn name_of_bit(command: &Command, bit: u8) -> Option<&str>
    ensures name { option_map (λ name. name.now) result ≡ bit_text_in (command_parts command.now).bits command.now.entry.code bit }
    ensures short { IfSome result (λ name. length name.now ≤ 32) }
{
    bit_name(command.bits(), command.entry.code, bit)
}
