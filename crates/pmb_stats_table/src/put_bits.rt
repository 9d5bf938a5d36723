//! The bits of a device, under their heading, put out line by line.
//!
//! Its rows: `tests/rows/stats.txt`, bits.

ghost use Rattle.std.specs.Prelude.{◌≡◌, ◌+◌, ◌<◌, ◌≤◌, ◌∷◌, [], IfOk, OnOk, List, length};
ghost use Rattle.pmb_facts.specs.Fact.{FactData};
ghost use Rattle.pmb_io.specs.Calls.{WriterTells};
ghost use Rattle.pmb_io.specs.Outgoing.{PutsText};
ghost use Rattle.pmb_keeper.specs.Setting.{Setting};
ghost use Rattle.pmb_keys.specs.CommandView.{command_parts};
ghost use Rattle.pmb_log_data.specs.Appends.{Appends};
ghost use Rattle.pmb_observed.specs.Observing.{observations};
ghost use Rattle.pmb_observed.specs.Told.{bit_told, bits_told, code_bits, page_bits, spot_bits_at};
ghost use Rattle.pmb_stats.specs.Standing.{StatsStand};
ghost use Rattle.pmb_stats_bits.specs.Bits.{RegisterRead};
ghost use Rattle.pmb_stats_bits.specs.Standing.{BitStandsAt, RegisterStandsAt};
ghost use Rattle.pmb_stats_table.specs.Row.{headed};
ghost use Rattle.pmb_stats_table.specs.Rows.{bit_heading, bit_row};
ghost use Rattle.pmb_stats_table.specs.Table.{bit_lines};
ghost use Rattle.pmb_stats_table.specs.Widths.{IsNarrow};
ghost use Rattle.pmb_stats_table.specs.machine.Lines.{PutsBits};

use crate::bits::{append_bit_heading, append_bit_row};
use crate::pages::{CODES, command_at, page_count, page_of};
use crate::row::LINE;
use crate::widths::Widths;
use arrayvec::ArrayVec;
use pmb_io::{RunFault, Sink, Waiting, make_room};
use pmb_json_text::ItemOrder;
use pmb_keys::Command;
use pmb_observed::{PageKey, Spot, phase_at, phase_count, phases_of};
use pmb_stats::Statistics;
use pmb_stats_bits::BitHistory;

/// Puts out the lines of the bits of a device that were read set, over all its pages, under their
/// heading.
pub(crate) fn put_bits<W: Sink>(
    stats: &Statistics<'_>,
    widths: Widths,
    addr: u8,
    waiting: &mut Waiting,
    writer: &mut W,
) -> Result<(), RunFault>
    requires narrow { IsNarrow widths }
    ensures puts { (setting : Setting) (facts : List FactData) → StatsStand stats.now setting facts
        → OnOk result (PutsText (W.told writer.old).held waiting.old.items (W.told writer.new).held waiting.new.items (bit_lines setting facts widths addr)) }
    ensures failed { WriterTells (W.told writer.old) (W.told writer.new) result }
{
    let profile = stats.profile();
    let mut place = ItemOrder::First;
    for index in 0..page_count(profile, addr) {
        let page = page_of(profile, addr, index);
        place = put_page_bits(stats, widths, addr, page, place, waiting, writer)?;
    }
    Ok(())
}

/// Puts out those of a page, by command code, and returns the place of what follows.
fn put_page_bits<W: Sink>(
    stats: &Statistics<'_>,
    widths: Widths,
    addr: u8,
    page: PageKey,
    place: ItemOrder,
    waiting: &mut Waiting,
    writer: &mut W,
) -> Result<ItemOrder, RunFault>
    requires narrow { IsNarrow widths }
    ensures lines { (setting : Setting) (facts : List FactData) → StatsStand stats.now setting facts
        → IfOk result (PutsBits widths place (page_bits setting.profile (observations setting facts) addr page) (W.told writer.old).held waiting.old.items (W.told writer.new).held waiting.new.items) }
    ensures failed { WriterTells (W.told writer.old) (W.told writer.new) result }
{
    let mut place = place;
    for code in 0..CODES {
        place = put_code_bits(
            stats, widths, addr, page, code as u8, place, waiting, writer,
        )?;
    }
    Ok(place)
}

/// Puts out those of the command with a code, phase by phase.
fn put_code_bits<W: Sink>(
    stats: &Statistics<'_>,
    widths: Widths,
    addr: u8,
    page: PageKey,
    code: u8,
    place: ItemOrder,
    waiting: &mut Waiting,
    writer: &mut W,
) -> Result<ItemOrder, RunFault>
    requires narrow { IsNarrow widths }
    ensures lines { (setting : Setting) (facts : List FactData) → StatsStand stats.now setting facts
        → IfOk result (PutsBits widths place (code_bits setting.profile (observations setting facts) addr page code) (W.told writer.old).held waiting.old.items (W.told writer.new).held waiting.new.items) }
    ensures failed { WriterTells (W.told writer.old) (W.told writer.new) result }
{
    let Some(device) = stats.profile().device(addr) else {
        return Ok(place);
    };
    let Some(command) = device.command(code) else {
        return Ok(place);
    };
    let phases = phases_of(device, command);
    let mut place = place;
    for index in 0..phase_count(phases) {
        let phase = phase_at(phases, index);
        let spot = Spot {
            addr,
            code,
            page,
            phase,
        };
        place = put_spot_bits(stats, widths, spot, place, waiting, writer)?;
    }
    Ok(place)
}

/// Puts out those of the status register at a spot, if there is one.
fn put_spot_bits<W: Sink>(
    stats: &Statistics<'_>,
    widths: Widths,
    spot: Spot,
    place: ItemOrder,
    waiting: &mut Waiting,
    writer: &mut W,
) -> Result<ItemOrder, RunFault>
    requires narrow { IsNarrow widths }
    ensures lines { (setting : Setting) (facts : List FactData) → StatsStand stats.now setting facts
        → IfOk result (PutsBits widths place (spot_bits_at setting.profile (observations setting facts) spot) (W.told writer.old).held waiting.old.items (W.told writer.new).held waiting.new.items) }
    ensures failed { WriterTells (W.told writer.old) (W.told writer.new) result }
{
    let Some(bits) = stats.register(spot) else {
        return Ok(place);
    };
    let Some(command) = command_at(stats.profile(), spot) else {
        return Ok(place);
    };
    put_register(widths, spot, command, bits, 16, place, waiting, writer)
}

/// Puts out the lowest bits of a register, so many, from the highest down.
fn put_register<W: Sink>(
    widths: Widths,
    spot: Spot,
    command: &Command,
    bits: &[BitHistory],
    count: u8,
    place: ItemOrder,
    waiting: &mut Waiting,
    writer: &mut W,
) -> Result<ItemOrder, RunFault>
    requires narrow { IsNarrow widths }
    requires few { count ≤ 16 }
    ensures lines { (reads : List RegisterRead) → RegisterStandsAt bits.now reads → count ≤ length bits.now
        → IfOk result (PutsBits widths place (bits_told spot.page spot.phase (command_parts command.now) reads count) (W.told writer.old).held waiting.old.items (W.told writer.new).held waiting.new.items) }
    ensures failed { WriterTells (W.told writer.old) (W.told writer.new) result }
{
    if count == 0 {
        return Ok(place);
    }
    let bit = count - 1;
    let Some(history) = bits.get(usize::from(bit)) else {
        return Ok(place);
    };
    let next = put_bit(widths, spot, command, bit, history, place, waiting, writer)?;
    put_register(widths, spot, command, bits, bit, next, waiting, writer)
}

/// Puts out the line of a bit, if some read found it set.
fn put_bit<W: Sink>(
    widths: Widths,
    spot: Spot,
    command: &Command,
    bit: u8,
    history: &BitHistory,
    place: ItemOrder,
    waiting: &mut Waiting,
    writer: &mut W,
) -> Result<ItemOrder, RunFault>
    requires narrow { IsNarrow widths }
    requires few { bit < 16 }
    ensures lines { (reads : List RegisterRead) → BitStandsAt history.now reads bit
        → IfOk result (PutsBits widths place (bit_told spot.page spot.phase (command_parts command.now) reads bit) (W.told writer.old).held waiting.old.items (W.told writer.new).held waiting.new.items) }
    ensures failed { WriterTells (W.told writer.old) (W.told writer.new) result }
{
    if history.count() == 0 {
        return Ok(place);
    }
    make_room(waiting, 2 * LINE, writer)?;
    append_headed(waiting, widths, spot, command, bit, history, place);
    Ok(ItemOrder::Later)
}

/// Appends the line of a bit, and the heading before it if it is the first.
fn append_headed<const N: usize>(
    out: &mut ArrayVec<u8, N>,
    widths: Widths,
    spot: Spot,
    command: &Command,
    bit: u8,
    history: &BitHistory,
    place: ItemOrder,
)
    requires narrow { IsNarrow widths }
    requires few { bit < 16 }
    requires room { length out.old.items + 1024 ≤ N }
    ensures lines { (reads : List RegisterRead) → BitStandsAt history.now reads bit
        → Appends (headed (bit_heading widths) (bit_row widths) place (record { page = spot.page; phase = spot.phase; command = command_parts command.now; bit = bit; reads = reads } ∷ [])) 1024 out.old.items out.new.items }
    ensures longer { length out.new.items ≤ length out.old.items + 1024 }
{
    match place {
        ItemOrder::First => append_bit_heading(out, widths),
        ItemOrder::Later => {}
    }
    append_bit_row(out, widths, spot, command, bit, history);
}
