//! The numbers of a command.
//!
//! Its rows: `tests/rows/stats.txt`, numbers.

ghost use Rattle.std.specs.Prelude.{◌≡◌, ◌+◌, ◌*◌, ◌≤◌, ◌++◌, ◌∷◌, [], List, codes, length};
ghost use Rattle.pmb_json_text.specs.declared.item_order.ItemOrder.TheVariants.{Later};
ghost use Rattle.pmb_json_text.specs.Member.{items_text, members_text};
ghost use Rattle.pmb_keys.specs.CommandView.{command_parts};
ghost use Rattle.pmb_mean.specs.Numbers.{NumberData, kept, mean};
ghost use Rattle.pmb_mean.specs.machine.History.{HistoryStandsAt};
ghost use Rattle.pmb_observed.specs.declared.spot.PageKey.{PageKey};
ghost use Rattle.pmb_stats_objects.specs.Members.{fraction_member, text_member};
ghost use Rattle.pmb_stats_objects.specs.Pages.{numbers_item};
ghost use Rattle.pmb_stats_objects.specs.machine.Written.{Appends};

use crate::command::{COMMAND, begin_item};
use crate::member::{
    FRACTION, FRACTION_MEMBER, TIME_MEMBER, append, append_count, append_fraction, append_number,
    append_text,
};
use arrayvec::ArrayVec;
use pmb_decimal::Digits;
use pmb_json_text::{ItemOrder, NUMBER_MEMBER, number_member};
use pmb_keys::Command;
use pmb_mean::NumberHistory;
use pmb_observed::PhaseKey;

/// The most bytes of the numbers of a command.
pub(crate) const NUMBERS: usize = COMMAND
    + 2 * NUMBER_MEMBER
    + 4 * FRACTION_MEMBER
    + TIME_MEMBER
    + 1;

/// Appends the numbers of a command as an item of a list. Each number has at most that many digits
/// after the point.
pub(crate) fn append_numbers<const N: usize>(
    out: &mut ArrayVec<u8, N>,
    place: ItemOrder,
    digits: Digits,
    command: &Command,
    phase: PhaseKey,
    history: &NumberHistory,
)
    requires room { length out.old.items + NUMBERS ≤ N }
    ensures item { (page : PageKey) (numbers : List NumberData) → HistoryStandsAt history.now numbers
        → out.new.items ≡ out.old.items ++ items_text place (numbers_item digits (record { page = page; phase = phase; command = command_parts command.now; numbers = kept numbers }) ∷ []) }
    ensures short { length out.new.items ≤ length out.old.items + NUMBERS }
{
    begin_item(out, place, &command.entry, phase);
    number_member(out, ItemOrder::Later, "count", history.count());
    append_count(out, ItemOrder::Later, "assumed", history.assumed());
    append_fraction(out, digits, "least", history.least());
    append_mean(out, digits, history);
    append_fraction(out, digits, "greatest", history.greatest());
    append_fraction(out, digits, "last", history.last());
    append_unit(out, command);
    append(out, b"}");
}

/// Appends the mean, if there is one.
fn append_mean<const N: usize>(out: &mut ArrayVec<u8, N>, digits: Digits, history: &NumberHistory)
    requires room { length out.old.items + FRACTION_MEMBER ≤ N }
    ensures member { (numbers : List NumberData) → HistoryStandsAt history.now numbers
        → out.new.items ≡ out.old.items ++ members_text Later (fraction_member digits (codes "mean") (mean (kept numbers))) }
    ensures short { length out.new.items ≤ length out.old.items + FRACTION_MEMBER }
{
    if history.has_mean() {
        let mut text = ArrayVec::<u8, FRACTION>::new();
        history.append_mean(digits, &mut text);
        append_number(out, "mean", text.as_slice());
    }
}

/// Appends the unit, if the command has one.
fn append_unit<const N: usize>(out: &mut ArrayVec<u8, N>, command: &Command)
    requires room { length out.old.items + TIME_MEMBER ≤ N }
    ensures { Appends (text_member (codes "unit") (command_parts command.now).unit) 262 Later out.old.items Later out.new.items }
{
    match command.unit() {
        Some(unit) => append_text(out, "unit", Some(unit.as_bytes())),
        None => {}
    }
}
