//! The lines of bits.
//!
//! Its rows: `tests/rows/stats.txt`.

ghost use Rattle.std.specs.Prelude.{◌≡◌, ◌+◌, ◌<◌, ◌≤◌, IfSome, List, length, option_map};
ghost use Rattle.pmb_command_data.specs.Bits.{bit_text_in};
ghost use Rattle.pmb_keys.specs.CommandView.{command_parts};
ghost use Rattle.pmb_log_data.specs.Appends.{Appends};
ghost use Rattle.pmb_log_data.specs.Text.{or_nothing};
ghost use Rattle.pmb_note.specs.Note.{named_bit};
ghost use Rattle.pmb_stats_bits.specs.Bits.{RegisterRead};
ghost use Rattle.pmb_stats_bits.specs.Standing.{BitStandsAt};
ghost use Rattle.pmb_stats_table.specs.Rows.{bit_heading, bit_line, bit_row};
ghost use Rattle.pmb_stats_table.specs.Widths.{IsNarrow};

use crate::pages::{page_sign, phase_sign};
use crate::row::{LINE, Row, append_left, append_right, append_row};
use crate::spot::append_spot;
use crate::times::or_nothing;
use crate::widths::Widths;
use arrayvec::ArrayVec;
use itoa::Buffer;
use pmb_command_data::bit_name;
use pmb_keys::Command;
use pmb_log_data::append;
use pmb_observed::Spot;
use pmb_stats_bits::BitHistory;

/// What a line of bits has in its columns.
#[derive(Clone, Copy)]
struct BitTexts<'t> {
    page: &'t [u8],
    phase: &'t [u8],
    command: &'t [u8],
    bit: &'t [u8],
    count: &'t [u8],
    first: &'t [u8],
    last: &'t [u8],
    gone: &'t [u8],
}

/// Appends the heading over bits.
pub(crate) fn append_bit_heading<const N: usize>(out: &mut ArrayVec<u8, N>, widths: Widths)
    requires narrow { IsNarrow widths }
    requires room { length out.old.items + LINE ≤ N }
    ensures { Appends (bit_heading widths) LINE out.old.items out.new.items }
{
    let texts = BitTexts {
        page: b"page",
        phase: b"phase",
        command: b"command",
        bit: b"bit",
        count: b"count",
        first: b"first",
        last: b"last",
        gone: b"gone",
    };
    append_bit_line(out, widths, texts);
}

/// Appends the line of a bit of the command at a spot.
pub(crate) fn append_bit_row<const N: usize>(
    out: &mut ArrayVec<u8, N>,
    widths: Widths,
    spot: Spot,
    command: &Command,
    bit: u8,
    history: &BitHistory,
)
    requires narrow { IsNarrow widths }
    requires bits { bit < 16 }
    requires room { length out.old.items + LINE ≤ N }
    ensures row { (reads : List RegisterRead) → BitStandsAt history.now reads bit
        → Appends (bit_row widths (record { page = spot.page; phase = spot.phase; command = command_parts command.now; bit = bit; reads = reads })) LINE out.old.items out.new.items }
    ensures longer { length out.new.items ≤ length out.old.items + LINE }
{
    let page = page_sign(spot.page);
    let phase = phase_sign(spot.phase);
    let name = named_bit(command, bit);
    let mut count = Buffer::new();
    let texts = BitTexts {
        page: page.as_slice(),
        phase: phase.as_slice(),
        command: command.entry.name.as_bytes(),
        bit: name.as_slice(),
        count: count.format(history.count()).as_bytes(),
        first: or_nothing(history.first()),
        last: or_nothing(history.last()),
        gone: or_nothing(history.gone()),
    };
    append_bit_line(out, widths, texts);
}

/// Appends a line of bits.
fn append_bit_line<const N: usize>(out: &mut ArrayVec<u8, N>, widths: Widths, texts: BitTexts<'_>)
    requires narrow { IsNarrow widths }
    requires page { length texts.page.now ≤ 4 }
    requires phase { length texts.phase.now ≤ 5 }
    requires command { length texts.command.now ≤ 32 }
    requires bit { length texts.bit.now ≤ 32 }
    requires count { length texts.count.now ≤ 20 }
    requires first { length texts.first.now ≤ 40 }
    requires last { length texts.last.now ≤ 40 }
    requires gone { length texts.gone.now ≤ 40 }
    requires room { length out.old.items + LINE ≤ N }
    ensures { Appends (bit_line widths texts.entry.page.now texts.entry.phase.now texts.entry.command.now texts.entry.bit.now texts.entry.count.now texts.entry.first.now texts.entry.last.now texts.entry.gone.now) LINE out.old.items out.new.items }
{
    let mut row = Row::new();
    append_spot(&mut row, widths, texts.page, texts.phase, texts.command);
    append_left(&mut row, 17, texts.bit);
    append_right(&mut row, 8, texts.count);
    append_right(&mut row, widths.time, texts.first);
    append_right(&mut row, widths.time, texts.last);
    append_right(&mut row, widths.time, texts.gone);
    append_row(out, row.as_slice());
}

/// The name of a bit, or its number where it has none.
fn named_bit(command: &Command, bit: u8) -> ArrayVec<u8, 32>
    requires few { bit < 16 }
    ensures name { result.items ≡ named_bit (bit_text_in (command_parts command.now).bits command.now.entry.code bit) bit }
    ensures short { length result.items ≤ 32 }
{
    let mut text = ArrayVec::<u8, 32>::new();
    match name_of_bit(command, bit) {
        Some(name) => append(&mut text, name.as_bytes()),
        None => {
            append(&mut text, b"bit");
            append(&mut text, Buffer::new().format(bit).as_bytes());
        }
    }
    text
}

/// The name of a bit, the profile's or the standard's, if it has one.
fn name_of_bit(command: &Command, bit: u8) -> Option<&str>
    ensures name { option_map (λ name. name.now) result ≡ bit_text_in (command_parts command.now).bits command.now.entry.code bit }
    ensures short { IfSome result (λ name. length name.now ≤ 32) }
{
    bit_name(command.bits(), command.entry.code, bit)
}
