//! Lines of lost events.

ghost use Rattle.std.specs.Prelude.{◌≡◌, codes, option_copied, option_map};
ghost use Rattle.pmb_words.specs.Left.{pieces_left};
ghost use Rattle.pmb_words.specs.Parts.{after, blank, parted, pieces};
ghost use Rattle.pmb_trace.specs.Line.{any_loss as any_lost, buffer_loss as buffer_lost, counted_loss as counted, entries_loss as entries, is_processor as is_cpu};
ghost use Rattle.pmb_trace.specs.Line.{last_loss as last_lost, loss_in as lost_in, lost_by, lost_number as number_lost, plain_loss as plain};
ghost use Rattle.pmb_trace.specs.Line.{first_loss, whole_loss as whole_lost, without_processor};
ghost use Rattle.pmb_trace.specs.Views.{loss_of};
ghost use Rattle.pmb_trace.specs.machine.Losses.{letter};

use pmb_words::{Pieces, behind, decimal, part};

/// How many events were lost.
#[derive(Clone, Copy, Drop, Debug, PartialEq, Eq)]
pub enum Loss<'a> {
    /// The line doesn't say.
    Some,
    /// A number, as the line writes it.
    Written(&'a [u8]),
    /// This number.
    Number(u64),
}

/// The loss that a line tells, of its own or of the buffer's.
pub(crate) fn any_loss(line: &[u8]) -> Option<Loss<'_>>
    ensures { option_map loss_of result ≡ any_lost line.now }
{
    match loss_in(line) {
        Some(loss) => Some(loss),
        None => buffer_loss(line),
    }
}

/// The loss that a line tells of its own.
fn loss_in(line: &[u8]) -> Option<Loss<'_>>
    ensures { option_map loss_of result ≡ lost_in line.now }
{
    match whole_loss(behind_processor(line)) {
        Some(loss) => Some(loss),
        None => last_loss(line),
    }
}

/// The pieces of a line without `CPU:N` in front.
fn behind_processor(line: &[u8]) -> Pieces<'_>
    ensures { pieces_left result ≡ without_processor (pieces blank line.now) }
{
    let all = Pieces::of(line);
    let mut rest = all;
    match rest.next_piece() {
        Some(first) => { if is_processor(first) { rest } else { all } }
        None => all,
    }
}

fn is_processor(piece: &[u8]) -> bool
    ensures { result ≡ is_cpu piece.now }
{
    match behind(b"CPU:", piece) {
        Some(number) => decimal(number).is_some(),
        None => false,
    }
}

/// The loss that all the pieces tell.
fn whole_loss<'a>(pieces: Pieces<'a>) -> Option<Loss<'a>>
    ensures { option_map loss_of result ≡ whole_lost (pieces_left pieces.entry) }
{
    let mut rest = pieces;
    let first = rest.next_piece()?;
    let second = rest.next_piece()?;
    let Some(third) = rest.next_piece() else {
        return plain_loss(first, second);
    };
    if rest.next_piece().is_some() {
        return None;
    }
    counted_loss(first, second, third)
}

/// `[LOST EVENTS]`, `[EVENTS DROPPED]`.
fn plain_loss<'a>(first: &'a [u8], second: &'a [u8]) -> Option<Loss<'a>>
    ensures { option_map loss_of result ≡ plain first.now second.now }
{
    if first == b"[LOST".as_slice() && second == b"EVENTS]".as_slice() {
        Some(Loss::Some)
    } else if first == b"[EVENTS".as_slice() && second == b"DROPPED]".as_slice() {
        Some(Loss::Some)
    } else {
        None
    }
}

/// `[LOST K EVENTS]`, `[K EVENTS DROPPED]`.
fn counted_loss<'a>(first: &'a [u8], second: &'a [u8], third: &'a [u8]) -> Option<Loss<'a>>
    ensures { option_map loss_of result ≡ counted first.now second.now third.now }
{
    if first == b"[LOST".as_slice() && third == b"EVENTS]".as_slice() {
        lost_number(second)
    } else if second == b"EVENTS".as_slice() && third == b"DROPPED]".as_slice() {
        lost_number(behind(b"[", first)?)
    } else {
        None
    }
}

fn lost_number(count: &[u8]) -> Option<Loss<'_>>
    ensures { option_map loss_of result ≡ number_lost count.now }
{
    decimal(count)?;
    Some(Loss::Written(count))
}

/// The loss of a line that ends `PERF_RECORD_LOST lost K`.
fn last_loss(line: &[u8]) -> Option<Loss<'_>>
    ensures { option_map loss_of result ≡ last_lost line.now }
{
    let mut last = None;
    let mut left = behind_letter(line);
    while let Some(rest) = left {
        last = later_loss(last, loss_behind(rest));
        left = behind_letter(rest);
    }
    last
}

/// What follows the first letter of such a loss in a text, if it is there.
fn behind_letter(text: &[u8]) -> Option<&[u8]>
    ensures { option_copied result ≡ (parted letter text.now).rest }
{
    let (_, rest) = part(b'P', text);
    rest
}

/// The loss that is told at the end of a line, where this follows its first letter.
fn loss_behind(text: &[u8]) -> Option<Loss<'_>>
    ensures { option_map loss_of result ≡ lost_by (after (codes "ERF_RECORD_LOST lost ") text.now) }
{
    lost_number(behind(b"ERF_RECORD_LOST lost ", text)?)
}

/// The later of two losses, where there is one.
fn later_loss<'a>(earlier: Option<Loss<'a>>, later: Option<Loss<'a>>) -> Option<Loss<'a>>
    ensures { option_map loss_of result ≡ first_loss (option_map loss_of later.entry) (option_map loss_of earlier.entry) }
{
    match later {
        Some(loss) => Some(loss),
        None => earlier,
    }
}

/// The loss of `# entries-in-buffer/entries-written: A/B`, where B is over A.
fn buffer_loss(line: &[u8]) -> Option<Loss<'_>>
    ensures { option_map loss_of result ≡ buffer_lost (after (codes "# entries-in-buffer/entries-written: ") line.now) }
{
    let rest = behind(b"# entries-in-buffer/entries-written: ", line)?;
    let (word, _) = part(b' ', rest);
    entries_loss(word)
}

fn entries_loss(word: &[u8]) -> Option<Loss<'_>>
    ensures { option_map loss_of result ≡ entries word.now }
{
    let (front, rest) = part(b'/', word);
    let kept = decimal(front)?;
    let written = decimal(rest?)?;
    if kept < written {
        Some(Loss::Number(written - kept))
    } else {
        None
    }
}
