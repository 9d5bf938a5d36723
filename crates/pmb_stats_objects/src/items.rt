//! The items of a list, each of which goes out by itself: a page has more bits than wait at most.
//!
//! Its rows: `tests/rows/stats.txt`.

ghost use Rattle.std.specs.Prelude.{◌≡◌, ◌≤◌, ◌<◌, List, OnOk, length, map};
ghost use Rattle.pmb_command.specs.Parts.{CommandParts};
ghost use Rattle.pmb_io.specs.Calls.{WriterTells};
ghost use Rattle.pmb_keys.specs.CommandView.{command_parts};
ghost use Rattle.pmb_mean.specs.Numbers.{NumberData, kept};
ghost use Rattle.pmb_mean.specs.machine.History.{HistoryStandsAt};
ghost use Rattle.pmb_observed.specs.declared.spot.PageKey.{PageKey};
ghost use Rattle.pmb_observed.specs.declared.spot.PhaseKey.{PhaseKey};
ghost use Rattle.pmb_observed.specs.Told.{bit_told, bits_told, numbers_told};
ghost use Rattle.pmb_stats_bits.specs.Bits.{RegisterRead};
ghost use Rattle.pmb_stats_bits.specs.Standing.{BitStandsAt, RegisterStandsAt};
ghost use Rattle.pmb_stats_objects.specs.Pages.{bit_item, numbers_item};
ghost use Rattle.pmb_stats_objects.specs.machine.Written.{PutsItems, has_any};

use crate::bit::{BIT, append_bit};
use crate::numbers::{NUMBERS, append_numbers};
use pmb_decimal::Digits;
use pmb_io::laws::texts_add_up;
use pmb_io::{RunFault, Sink, Waiting, make_room};
use pmb_json_text::ItemOrder;
use pmb_keys::Command;
use pmb_mean::NumberHistory;
use pmb_observed::PhaseKey;
use pmb_stats_bits::BitHistory;

/// Whether some read of a register found a bit set, by the histories of its bits.
pub(crate) fn has_bit(bits: &[BitHistory]) -> bool
    ensures { (page : PageKey) (phase : PhaseKey) (command : CommandParts) (reads : List RegisterRead) → RegisterStandsAt bits.now reads → length bits.now ≡ 16
        → result ≡ has_any (bits_told page phase command reads 16) }
{
    for history in bits {
        if history.count() > 0 {
            return true;
        }
    }
    false
}

/// Puts out the bits of a register that were read set, of its lowest, that many, from the highest
/// down.
pub(crate) fn put_bits<W: Sink>(
    command: &Command,
    phase: PhaseKey,
    bits: &[BitHistory],
    count: u8,
    place: &mut ItemOrder,
    waiting: &mut Waiting,
    writer: &mut W,
) -> Result<(), RunFault>
    requires { count ≤ 16 }
    ensures puts { (page : PageKey) (reads : List RegisterRead) → RegisterStandsAt bits.now reads → length bits.now ≡ 16
        → OnOk result (PutsItems (map bit_item (bits_told page phase (command_parts command.now) reads count))
        (W.told writer.old).held waiting.old.items place.old (W.told writer.new).held waiting.new.items place.new) }
    ensures failed { WriterTells (W.told writer.old) (W.told writer.new) result }
{
    texts_add_up();
    if count == 0 {
        return Ok(());
    }
    let bit = count - 1;
    let Some(history) = bits.get(usize::from(bit)) else {
        return Ok(());
    };
    put_bit(command, phase, bit, history, place, waiting, writer)?;
    put_bits(command, phase, bits, bit, place, waiting, writer)
}

/// Puts out a bit, if it was read set.
fn put_bit<W: Sink>(
    command: &Command,
    phase: PhaseKey,
    bit: u8,
    history: &BitHistory,
    place: &mut ItemOrder,
    waiting: &mut Waiting,
    writer: &mut W,
) -> Result<(), RunFault>
    requires { bit < 16 }
    ensures puts { (page : PageKey) (reads : List RegisterRead) → BitStandsAt history.now reads bit
        → OnOk result (PutsItems (map bit_item (bit_told page phase (command_parts command.now) reads bit))
        (W.told writer.old).held waiting.old.items place.old (W.told writer.new).held waiting.new.items place.new) }
    ensures failed { WriterTells (W.told writer.old) (W.told writer.new) result }
{
    texts_add_up();
    if history.count() == 0 {
        return Ok(());
    }
    make_room(waiting, BIT, writer)?;
    append_bit(waiting, *place, command, phase, bit, history);
    *place = ItemOrder::Later;
    Ok(())
}

/// Whether any number came.
pub(crate) fn has_number(history: &NumberHistory) -> bool
    ensures { (page : PageKey) (phase : PhaseKey) (command : CommandParts) (numbers : List NumberData) → HistoryStandsAt history.now numbers
        → result ≡ has_any (numbers_told page phase command (kept numbers)) }
{
    history.count() > 0
}

/// Puts out the numbers of a command, if it has any.
pub(crate) fn put_command_numbers<W: Sink>(
    command: &Command,
    phase: PhaseKey,
    digits: Digits,
    history: &NumberHistory,
    place: &mut ItemOrder,
    waiting: &mut Waiting,
    writer: &mut W,
) -> Result<(), RunFault>
    ensures puts { (page : PageKey) (numbers : List NumberData) → HistoryStandsAt history.now numbers
        → OnOk result (PutsItems (map (numbers_item digits) (numbers_told page phase (command_parts command.now) (kept numbers)))
        (W.told writer.old).held waiting.old.items place.old (W.told writer.new).held waiting.new.items place.new) }
    ensures failed { WriterTells (W.told writer.old) (W.told writer.new) result }
{
    texts_add_up();
    if history.count() == 0 {
        return Ok(());
    }
    make_room(waiting, NUMBERS, writer)?;
    append_numbers(waiting, *place, digits, command, phase, history);
    *place = ItemOrder::Later;
    Ok(())
}
