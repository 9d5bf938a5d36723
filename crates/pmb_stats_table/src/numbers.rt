//! The lines of numbers.
//!
//! Its rows: `tests/rows/stats.txt`.

ghost use Rattle.std.specs.Prelude.{◌≡◌, ◌+◌, ◌≤◌, List, decimal, length};
ghost use Rattle.pmb_keys.specs.CommandView.{command_parts};
ghost use Rattle.pmb_log_data.specs.Appends.{Appends};
ghost use Rattle.pmb_log_data.specs.Text.{or_nothing};
ghost use Rattle.pmb_mean.specs.MeanText.{mean_text, some_text};
ghost use Rattle.pmb_mean.specs.Numbers.{NumberData, kept};
ghost use Rattle.pmb_mean.specs.machine.History.{HistoryStandsAt};
ghost use Rattle.pmb_stats_table.specs.Rows.{count_text, number_heading, number_line, number_row};
ghost use Rattle.pmb_stats_table.specs.Widths.{IsNarrow};

use crate::pages::{page_sign, phase_sign};
use crate::row::{LINE, Row, append_last, append_right, append_row};
use crate::spot::append_spot;
use crate::widths::Widths;
use arrayvec::ArrayVec;
use itoa::Buffer;
use pmb_decimal::{Digits, append_decimal};
use pmb_keys::Command;
use pmb_log_data::append_number;
use pmb_mean::NumberHistory;
use pmb_observed::Spot;
use pmb_value::Quantity;

/// The text of a decimal.
type Decimal = ArrayVec<u8, 33>;

/// What a line of numbers has in its columns.
#[derive(Clone, Copy)]
struct NumberTexts<'t> {
    page: &'t [u8],
    phase: &'t [u8],
    command: &'t [u8],
    count: &'t [u8],
    assumed: &'t [u8],
    least: &'t [u8],
    mean: &'t [u8],
    greatest: &'t [u8],
    last: &'t [u8],
    unit: &'t [u8],
}

/// Appends the heading over numbers.
pub(crate) fn append_number_heading<const N: usize>(out: &mut ArrayVec<u8, N>, widths: Widths)
    requires narrow { IsNarrow widths }
    requires room { length out.old.items + LINE ≤ N }
    ensures { Appends (number_heading widths) LINE out.old.items out.new.items }
{
    let texts = NumberTexts {
        page: b"page",
        phase: b"phase",
        command: b"command",
        count: b"count",
        assumed: b"assumed",
        least: b"least",
        mean: b"mean",
        greatest: b"greatest",
        last: b"last",
        unit: b"unit",
    };
    append_number_line(out, widths, texts);
}

/// Appends the line of the numbers of the command at a spot.
pub(crate) fn append_number_row<const N: usize>(
    out: &mut ArrayVec<u8, N>,
    widths: Widths,
    digits: Digits,
    spot: Spot,
    command: &Command,
    history: &NumberHistory,
)
    requires narrow { IsNarrow widths }
    requires room { length out.old.items + LINE ≤ N }
    ensures row { (numbers : List NumberData) → HistoryStandsAt history.now numbers
        → Appends (number_row widths digits (record { page = spot.page; phase = spot.phase; command = command_parts command.now; numbers = kept numbers })) LINE out.old.items out.new.items }
    ensures longer { length out.new.items ≤ length out.old.items + LINE }
{
    let page = page_sign(spot.page);
    let phase = phase_sign(spot.phase);
    let mut count = Buffer::new();
    let assumed = count_text(history.assumed());
    let least = some_text(digits, history.least());
    let mean = mean_text(digits, history);
    let greatest = some_text(digits, history.greatest());
    let last = some_text(digits, history.last());
    let texts = NumberTexts {
        page: page.as_slice(),
        phase: phase.as_slice(),
        command: command.entry.name.as_bytes(),
        count: count.format(history.count()).as_bytes(),
        assumed: assumed.as_slice(),
        least: least.as_slice(),
        mean: mean.as_slice(),
        greatest: greatest.as_slice(),
        last: last.as_slice(),
        unit: unit_text(command),
    };
    append_number_line(out, widths, texts);
}

/// Appends a line of numbers.
fn append_number_line<const N: usize>(
    out: &mut ArrayVec<u8, N>,
    widths: Widths,
    texts: NumberTexts<'_>,
)
    requires narrow { IsNarrow widths }
    requires page { length texts.page.now ≤ 4 }
    requires phase { length texts.phase.now ≤ 5 }
    requires command { length texts.command.now ≤ 32 }
    requires count { length texts.count.now ≤ 20 }
    requires assumed { length texts.assumed.now ≤ 20 }
    requires least { length texts.least.now ≤ 33 }
    requires mean { length texts.mean.now ≤ 33 }
    requires greatest { length texts.greatest.now ≤ 33 }
    requires last { length texts.last.now ≤ 33 }
    requires unit { length texts.unit.now ≤ 16 }
    requires room { length out.old.items + LINE ≤ N }
    ensures { Appends (number_line widths texts.entry.page.now texts.entry.phase.now texts.entry.command.now texts.entry.count.now texts.entry.assumed.now texts.entry.least.now texts.entry.mean.now texts.entry.greatest.now texts.entry.last.now texts.entry.unit.now) LINE out.old.items out.new.items }
{
    let mut row = Row::new();
    append_spot(&mut row, widths, texts.page, texts.phase, texts.command);
    append_right(&mut row, 8, texts.count);
    append_right(&mut row, 7, texts.assumed);
    append_right(&mut row, 10, texts.least);
    append_right(&mut row, 10, texts.mean);
    append_right(&mut row, 10, texts.greatest);
    append_right(&mut row, 10, texts.last);
    append_last(&mut row, texts.unit);
    append_row(out, row.as_slice());
}

/// The text of a count; nothing for 0.
fn count_text(count: u64) -> ArrayVec<u8, 20>
    ensures text { result.items ≡ count_text count }
    ensures short { length result.items ≤ 20 }
{
    let mut text = ArrayVec::<u8, 20>::new();
    if count > 0 {
        append_number(&mut text, count);
    }
    text
}

/// The text of a quantity; nothing where there is none.
fn some_text(digits: Digits, quantity: Option<Quantity>) -> Decimal
    ensures text { result.items ≡ some_text digits quantity }
    ensures short { length result.items ≤ 33 }
{
    let mut text = Decimal::new();
    if let Some(quantity) = quantity {
        append_decimal(&quantity, digits, &mut text);
    }
    text
}

/// The text of a mean; nothing where there is none.
fn mean_text(digits: Digits, history: &NumberHistory) -> Decimal
    ensures text { (numbers : List NumberData) → HistoryStandsAt history.now numbers → result.items ≡ mean_text digits (kept numbers) }
    ensures short { length result.items ≤ 33 }
{
    let mut text = Decimal::new();
    history.append_mean(digits, &mut text);
    text
}

/// The unit of a command; nothing where it has none.
fn unit_text(command: &Command) -> &[u8]
    ensures text { result.now ≡ or_nothing (command_parts command.now).unit }
    ensures short { length result.now ≤ 16 }
{
    match command.unit() {
        Some(unit) => unit.as_bytes(),
        None => b"",
    }
}
