//! The table.
//!
//! Its rows: `tests/rows/stats.txt`.

ghost use Rattle.std.specs.Prelude.{◌≡◌, ◌&&◌, ◌<◌, OnOk, List, Some};
ghost use Rattle.pmb_facts.specs.Fact.{FactData};
ghost use Rattle.pmb_io.specs.Calls.{WriterTells};
ghost use Rattle.pmb_io.specs.Outgoing.{PutsText};
ghost use Rattle.pmb_json_objects.specs.Object.{is_wanted};
ghost use Rattle.pmb_keeper.specs.Setting.{Setting};
ghost use Rattle.pmb_observed.specs.Observing.{first_time, last_time};
ghost use Rattle.pmb_stats.specs.Standing.{StatsStand};
ghost use Rattle.pmb_stats_counts.specs.Counts.{has_come};
ghost use Rattle.pmb_stats_table.specs.Table.{head, paragraph, paragraphs, table_text, total_line, wanted_paragraph};
ghost use Rattle.pmb_stats_table.specs.Widths.{IsNarrow};

use crate::head::{HEAD, append_head};
use crate::put_bits::put_bits;
use crate::put_numbers::put_numbers;
use crate::total::{TOTAL, append_total};
use crate::widths::Widths;
use pmb_decimal::Digits;
use pmb_io::{RunFault, Sink, Waiting, make_room, put};
use pmb_json_objects::is_wanted;
use pmb_stats::Statistics;
use pmb_stats_counts::laws::devices_that_came_have_counts;

/// How many addresses of seven bits there are.
const ADDRESSES: u8 = 128;

/// Puts out the table of what was kept of a capture: a paragraph for each device of which something
/// came, and a line of the whole. Numbers have at most that many digits after the point. If addresses
/// are given, only their devices have paragraphs.
///
/// # Errors
///
/// `Write` where the writer failed: a front of the table went out, and what waits is not told.
pub fn put_table<W: Sink>(
    stats: &Statistics<'_>,
    digits: Digits,
    devices: &[u8],
    waiting: &mut Waiting,
    writer: &mut W,
) -> Result<(), RunFault>
    ensures puts { (setting : Setting) (facts : List FactData) → StatsStand stats.now setting facts
        → OnOk result (PutsText (W.told writer.old).held waiting.old.items (W.told writer.new).held waiting.new.items (table_text digits devices.now setting facts)) }
    ensures failed { WriterTells (W.told writer.old) (W.told writer.new) result }
{
    let widths = Widths::of(stats.profile(), stats.last());
    put_paragraphs(stats, widths, digits, devices, waiting, writer)?;
    put_total(stats, waiting, writer)
}

/// Puts out the paragraphs that are wanted, by address.
fn put_paragraphs<W: Sink>(
    stats: &Statistics<'_>,
    widths: Widths,
    digits: Digits,
    devices: &[u8],
    waiting: &mut Waiting,
    writer: &mut W,
) -> Result<(), RunFault>
    requires narrow { IsNarrow widths }
    ensures puts { (setting : Setting) (facts : List FactData) → StatsStand stats.now setting facts
        → OnOk result (PutsText (W.told writer.old).held waiting.old.items (W.told writer.new).held waiting.new.items (paragraphs setting facts widths digits devices.now)) }
    ensures failed { WriterTells (W.told writer.old) (W.told writer.new) result }
{
    for addr in 0..ADDRESSES {
        put_if_wanted(stats, widths, digits, devices, addr, waiting, writer)?;
    }
    Ok(())
}

/// Puts out the paragraph of a device, if it is wanted and something of the device came.
fn put_if_wanted<W: Sink>(
    stats: &Statistics<'_>,
    widths: Widths,
    digits: Digits,
    devices: &[u8],
    addr: u8,
    waiting: &mut Waiting,
    writer: &mut W,
) -> Result<(), RunFault>
    requires narrow { IsNarrow widths }
    requires seven_bits { addr < 128 }
    ensures puts { (setting : Setting) (facts : List FactData) → StatsStand stats.now setting facts
        → OnOk result (PutsText (W.told writer.old).held waiting.old.items (W.told writer.new).held waiting.new.items (wanted_paragraph setting facts widths digits devices.now addr)) }
    ensures failed { WriterTells (W.told writer.old) (W.told writer.new) result }
{
    if has_paragraph(stats, devices, addr) {
        return put_paragraph(stats, widths, digits, addr, waiting, writer);
    }
    Ok(())
}

/// Whether a device has a paragraph.
fn has_paragraph(stats: &Statistics<'_>, devices: &[u8], addr: u8) -> bool
    requires { addr < 128 }
    ensures { (setting : Setting) (facts : List FactData) → StatsStand stats.now setting facts
        → result ≡ (is_wanted devices.now (Some addr) && has_come addr facts) }
{
    is_wanted(devices, Some(addr)) && has_come(stats, addr)
}

/// Whether something of a device came.
fn has_come(stats: &Statistics<'_>, addr: u8) -> bool
    requires { addr < 128 }
    ensures { (setting : Setting) (facts : List FactData) → StatsStand stats.now setting facts → result ≡ has_come addr facts }
{
    devices_that_came_have_counts();
    !stats.counts(addr).is_empty()
}

/// Puts out the paragraph of a device.
fn put_paragraph<W: Sink>(
    stats: &Statistics<'_>,
    widths: Widths,
    digits: Digits,
    addr: u8,
    waiting: &mut Waiting,
    writer: &mut W,
) -> Result<(), RunFault>
    requires narrow { IsNarrow widths }
    requires seven_bits { addr < 128 }
    ensures puts { (setting : Setting) (facts : List FactData) → StatsStand stats.now setting facts
        → OnOk result (PutsText (W.told writer.old).held waiting.old.items (W.told writer.new).held waiting.new.items (paragraph setting facts widths digits addr)) }
    ensures failed { WriterTells (W.told writer.old) (W.told writer.new) result }
{
    put_head(stats, addr, waiting, writer)?;
    put_bits(stats, widths, addr, waiting, writer)?;
    put_numbers(stats, widths, digits, addr, waiting, writer)?;
    put(waiting, b"\n", writer)
}

/// Puts out the address, the name and the counts of a device.
fn put_head<W: Sink>(
    stats: &Statistics<'_>,
    addr: u8,
    waiting: &mut Waiting,
    writer: &mut W,
) -> Result<(), RunFault>
    requires { addr < 128 }
    ensures puts { (setting : Setting) (facts : List FactData) → StatsStand stats.now setting facts
        → OnOk result (PutsText (W.told writer.old).held waiting.old.items (W.told writer.new).held waiting.new.items (head setting.profile addr facts)) }
    ensures failed { WriterTells (W.told writer.old) (W.told writer.new) result }
{
    make_room(waiting, HEAD, writer)?;
    append_head(waiting, stats.profile(), addr, stats.counts(addr));
    Ok(())
}

/// Puts out the line of the whole.
fn put_total<W: Sink>(
    stats: &Statistics<'_>,
    waiting: &mut Waiting,
    writer: &mut W,
) -> Result<(), RunFault>
    ensures puts { (setting : Setting) (facts : List FactData) → StatsStand stats.now setting facts
        → OnOk result (PutsText (W.told writer.old).held waiting.old.items (W.told writer.new).held waiting.new.items (total_line facts (first_time facts) (last_time facts))) }
    ensures failed { WriterTells (W.told writer.old) (W.told writer.new) result }
{
    make_room(waiting, TOTAL, writer)?;
    append_total(waiting, stats.totals(), stats.first(), stats.last());
    Ok(())
}
