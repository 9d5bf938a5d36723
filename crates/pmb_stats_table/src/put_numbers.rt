//! The numbers of a device, under their heading, put out line by line.
//!
//! Its rows: `tests/rows/stats.txt`, numbers.

ghost use Rattle.std.specs.Prelude.{◌≡◌, ◌+◌, ◌<◌, ◌≤◌, ◌∷◌, [], IfOk, OnOk, List, length};
ghost use Rattle.pmb_facts.specs.Fact.{FactData};
ghost use Rattle.pmb_io.specs.Calls.{WriterTells};
ghost use Rattle.pmb_io.specs.Outgoing.{PutsText};
ghost use Rattle.pmb_keeper.specs.Setting.{Setting};
ghost use Rattle.pmb_keys.specs.CommandView.{command_parts};
ghost use Rattle.pmb_log_data.specs.Appends.{Appends};
ghost use Rattle.pmb_mean.specs.Numbers.{NumberData, kept};
ghost use Rattle.pmb_mean.specs.machine.History.{HistoryStandsAt};
ghost use Rattle.pmb_observed.specs.Observing.{observations};
ghost use Rattle.pmb_observed.specs.Told.{code_numbers, numbers_told, page_numbers, spot_numbers_at};
ghost use Rattle.pmb_stats.specs.Standing.{StatsStand};
ghost use Rattle.pmb_stats_table.specs.Row.{headed};
ghost use Rattle.pmb_stats_table.specs.Rows.{number_heading, number_row};
ghost use Rattle.pmb_stats_table.specs.Table.{number_lines};
ghost use Rattle.pmb_stats_table.specs.Widths.{IsNarrow};
ghost use Rattle.pmb_stats_table.specs.machine.Lines.{PutsNumbers};

use crate::numbers::{append_number_heading, append_number_row};
use crate::pages::{CODES, command_at, page_count, page_of};
use crate::row::LINE;
use crate::widths::Widths;
use arrayvec::ArrayVec;
use pmb_decimal::Digits;
use pmb_io::{RunFault, Sink, Waiting, make_room};
use pmb_json_text::ItemOrder;
use pmb_keys::Command;
use pmb_mean::NumberHistory;
use pmb_observed::{PageKey, Spot, phase_at, phase_count, phases_of};
use pmb_stats::Statistics;

/// Puts out the lines of the numbers of a device, over all its pages, under their heading.
pub(crate) fn put_numbers<W: Sink>(
    stats: &Statistics<'_>,
    widths: Widths,
    digits: Digits,
    addr: u8,
    waiting: &mut Waiting,
    writer: &mut W,
) -> Result<(), RunFault>
    requires narrow { IsNarrow widths }
    ensures puts { (setting : Setting) (facts : List FactData) → StatsStand stats.now setting facts
        → OnOk result (PutsText (W.told writer.old).held waiting.old.items (W.told writer.new).held waiting.new.items (number_lines setting facts widths digits addr)) }
    ensures failed { WriterTells (W.told writer.old) (W.told writer.new) result }
{
    let profile = stats.profile();
    let mut place = ItemOrder::First;
    for index in 0..page_count(profile, addr) {
        let page = page_of(profile, addr, index);
        place = put_page_numbers(stats, widths, digits, addr, page, place, waiting, writer)?;
    }
    Ok(())
}

/// Puts out those of a page, by command code, and returns the place of what follows.
fn put_page_numbers<W: Sink>(
    stats: &Statistics<'_>,
    widths: Widths,
    digits: Digits,
    addr: u8,
    page: PageKey,
    place: ItemOrder,
    waiting: &mut Waiting,
    writer: &mut W,
) -> Result<ItemOrder, RunFault>
    requires narrow { IsNarrow widths }
    ensures lines { (setting : Setting) (facts : List FactData) → StatsStand stats.now setting facts
        → IfOk result (PutsNumbers widths digits place (page_numbers setting.profile (observations setting facts) addr page) (W.told writer.old).held waiting.old.items (W.told writer.new).held waiting.new.items) }
    ensures failed { WriterTells (W.told writer.old) (W.told writer.new) result }
{
    let mut place = place;
    for code in 0..CODES {
        place = put_code_numbers(
            stats, widths, digits, addr, page, code as u8, place, waiting, writer,
        )?;
    }
    Ok(place)
}

/// Puts out those of the command with a code, phase by phase.
fn put_code_numbers<W: Sink>(
    stats: &Statistics<'_>,
    widths: Widths,
    digits: Digits,
    addr: u8,
    page: PageKey,
    code: u8,
    place: ItemOrder,
    waiting: &mut Waiting,
    writer: &mut W,
) -> Result<ItemOrder, RunFault>
    requires narrow { IsNarrow widths }
    ensures lines { (setting : Setting) (facts : List FactData) → StatsStand stats.now setting facts
        → IfOk result (PutsNumbers widths digits place (code_numbers setting.profile (observations setting facts) addr page code) (W.told writer.old).held waiting.old.items (W.told writer.new).held waiting.new.items) }
    ensures failed { WriterTells (W.told writer.old) (W.told writer.new) result }
{
    let Some(device) = stats.profile().device(addr) else {
        return Ok(place);
    };
    let Some(command) = device.command(code) else {
        return Ok(place);
    };
    let phases = phases_of(device, command);
    let mut place = place;
    for index in 0..phase_count(phases) {
        let phase = phase_at(phases, index);
        let spot = Spot {
            addr,
            code,
            page,
            phase,
        };
        place = put_spot_numbers(stats, widths, digits, spot, place, waiting, writer)?;
    }
    Ok(place)
}

/// Puts out those of the command at a spot, if it has numbers.
fn put_spot_numbers<W: Sink>(
    stats: &Statistics<'_>,
    widths: Widths,
    digits: Digits,
    spot: Spot,
    place: ItemOrder,
    waiting: &mut Waiting,
    writer: &mut W,
) -> Result<ItemOrder, RunFault>
    requires narrow { IsNarrow widths }
    ensures lines { (setting : Setting) (facts : List FactData) → StatsStand stats.now setting facts
        → IfOk result (PutsNumbers widths digits place (spot_numbers_at setting.profile (observations setting facts) spot) (W.told writer.old).held waiting.old.items (W.told writer.new).held waiting.new.items) }
    ensures failed { WriterTells (W.told writer.old) (W.told writer.new) result }
{
    let Some(history) = stats.numbers(spot) else {
        return Ok(place);
    };
    let Some(command) = command_at(stats.profile(), spot) else {
        return Ok(place);
    };
    put_command(
        widths, digits, spot, command, history, place, waiting, writer,
    )
}

/// Puts out the line of a command, if any values came.
fn put_command<W: Sink>(
    widths: Widths,
    digits: Digits,
    spot: Spot,
    command: &Command,
    history: &NumberHistory,
    place: ItemOrder,
    waiting: &mut Waiting,
    writer: &mut W,
) -> Result<ItemOrder, RunFault>
    requires narrow { IsNarrow widths }
    ensures lines { (numbers : List NumberData) → HistoryStandsAt history.now numbers
        → IfOk result (PutsNumbers widths digits place (numbers_told spot.page spot.phase (command_parts command.now) (kept numbers)) (W.told writer.old).held waiting.old.items (W.told writer.new).held waiting.new.items) }
    ensures failed { WriterTells (W.told writer.old) (W.told writer.new) result }
{
    if history.count() == 0 {
        return Ok(place);
    }
    make_room(waiting, 2 * LINE, writer)?;
    append_headed(waiting, widths, digits, spot, command, history, place);
    Ok(ItemOrder::Later)
}

/// Appends the line of a command, and the heading before it if it is the first.
fn append_headed<const N: usize>(
    out: &mut ArrayVec<u8, N>,
    widths: Widths,
    digits: Digits,
    spot: Spot,
    command: &Command,
    history: &NumberHistory,
    place: ItemOrder,
)
    requires narrow { IsNarrow widths }
    requires room { length out.old.items + 1024 ≤ N }
    ensures lines { (numbers : List NumberData) → HistoryStandsAt history.now numbers
        → Appends (headed (number_heading widths) (number_row widths digits) place (record { page = spot.page; phase = spot.phase; command = command_parts command.now; numbers = kept numbers } ∷ [])) 1024 out.old.items out.new.items }
    ensures longer { length out.new.items ≤ length out.old.items + 1024 }
{
    match place {
        ItemOrder::First => append_number_heading(out, widths),
        ItemOrder::Later => {}
    }
    append_number_row(out, widths, digits, spot, command, history);
}
