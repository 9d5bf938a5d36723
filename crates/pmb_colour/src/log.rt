//! The colours of a line of `log`.

ghost use Rattle.std.specs.Prelude.{◌≡◌, ◌+◌, ◌*◌, ◌≤◌, ◌++◌, [], length};
ghost use Rattle.std.specs.List.{list_all, list_any};
ghost use Rattle.pmb_colour.specs.Bits.{is_bit};
ghost use Rattle.pmb_colour.specs.Cut.{first, is_blank};
ghost use Rattle.pmb_colour.specs.Log.{begins, bits_length, ends_as, has_bits, is_bad_token, is_command, is_command_byte, is_command_name, is_out_of_place, is_parenthesis, is_quote, is_refusal, is_span, is_unanswered, is_unanswered_byte, is_unknown, is_wrong_code, is_wrong_length, log_pieces, says_colour, says_pieces, tail_pieces, tells_event};
ghost use Rattle.pmb_colour.specs.Pieces.{shown};

use crate::bits::{has_capital, is_bit, is_digit, is_name_byte};
use crate::colour::{AROUND, Colour, append, append_painted};
use crate::cut::{Cut, first_len, parts_of};
use crate::pieces::append_bits;
use arrayvec::ArrayVec;

fn is_span(front: &[u8], end: &[u8], text: &[u8]) -> bool
    ensures { result ≡ is_span front.now end.now text.now }
{
    text.starts_with(front) && text.ends_with(end)
}

/// Whether a text begins with an event that came.
#[tactic(auto, unfolding(crate::specs::Log::tells_event))]
fn tells_event(text: &[u8]) -> bool
    ensures { result ≡ tells_event text.now }
{
    text[text.len().min(2)..].starts_with(b" came, but ")
        || text.starts_with(b"START came, but ")
        || text.starts_with(b"ACK came, but ")
        || text.starts_with(b"NACK came, but ")
        || text.starts_with(b"STOP came, but ")
        || text.starts_with(b"the end came, but ")
}

/// Of a byte that names no device or no command.
#[tactic(auto, unfolding(crate::specs::Log::is_unknown))]
fn is_unknown(text: &[u8]) -> bool
    ensures { result ≡ is_unknown text.now }
{
    text.ends_with(b"acknowledged, but the profile has no such device")
        || text.ends_with(b" acknowledged, but the profile has no such command")
        || text.ends_with(b" acknowledged, but it cannot come here")
}

/// Of a reply with too many bytes, or too few.
#[tactic(auto, unfolding(crate::specs::Log::is_wrong_length))]
fn is_wrong_length(text: &[u8]) -> bool
    ensures { result ≡ is_wrong_length text.now }
{
    is_span(b"read on after ", b", which is all", text)
        || is_span(b"ended after ", b": more bytes have to come", text)
}

/// Of a wrong packet error code, or with a hint on one.
#[tactic(auto, unfolding(crate::specs::Log::is_wrong_code))]
fn is_wrong_code(text: &[u8]) -> bool
    ensures { result ≡ is_wrong_code text.now }
{
    is_span(b"wrong error code ", b" is right", text) || text.ends_with(b"\" in the profile)")
}

/// Of an event in the place of another, or of the end.
#[tactic(auto, unfolding(crate::specs::Log::is_out_of_place))]
fn is_out_of_place(text: &[u8]) -> bool
    ensures { result ≡ is_out_of_place text.now }
{
    text.ends_with(b" begins inside a packet)")
        || text.ends_with(b" cannot come after a repeated START")
        || (tells_event(text) && text.ends_with(b" can come"))
        || text.ends_with(b"the capture ends inside the packet")
}

/// Whether a line says by its last cell that no packet can have an event there.
fn is_refusal(text: &[u8]) -> bool
    ensures { result ≡ is_refusal text.now }
{
    is_unknown(text) || is_wrong_length(text) || is_wrong_code(text) || is_out_of_place(text)
}

/// Whether a line says by its last cell that a word is no token.
#[tactic(auto, unfolding(crate::specs::Log::is_bad_token))]
fn is_bad_token(text: &[u8]) -> bool
    ensures { result ≡ is_bad_token text.now }
{
    text.starts_with(b"no token: ") && text.len() >= 30 && is_digit(text[text.len() - 1])
}

fn has_quote(text: &[u8]) -> bool
    ensures { result ≡ list_any is_quote text.now }
{
    text.iter().any(|byte| *byte == b'"')
}

/// Whether a text says that a device did not take an address or a byte.
#[tactic(auto, unfolding(crate::specs::Log::is_unanswered_byte))]
fn is_unanswered_byte(text: &[u8]) -> bool
    ensures { result ≡ is_unanswered_byte text.now }
{
    (text.starts_with(b"refused at its ") && !text.starts_with(b"refused at its ("))
        || (text.starts_with(b"refused at byte ") && !text.starts_with(b"refused at byte ("))
}

/// Whether a line says by its last cell that something was refused, or that none answered.
#[tactic(auto, unfolding(crate::specs::Log::is_unanswered))]
fn is_unanswered(text: &[u8]) -> bool
    ensures { result ≡ is_unanswered text.now }
{
    text == b"alert, and no device answered".as_slice()
        || (is_unanswered_byte(text) && (text.len() >= 16 && !has_quote(text)))
}

/// The colour of the last cell, if it is of one.
fn says_colour(text: &[u8]) -> Option<Colour>
    ensures { result ≡ says_colour text.now }
{
    if is_refusal(text) || is_bad_token(text) {
        Some(Colour::Red)
    } else if is_unanswered(text) {
        Some(Colour::Yellow)
    } else {
        None
    }
}

/// Whether a text has blanks alone.
fn has_blanks(text: &[u8]) -> bool
    ensures { result ≡ list_all is_blank text.now }
{
    text.iter().all(|byte| *byte == b' ')
}

fn is_command_byte(byte: u8) -> bool
    ensures { result ≡ is_command_byte byte }
{
    is_name_byte(byte) || (b'a' <= byte && byte <= b'z')
}

fn has_command_bytes(word: &[u8]) -> bool
    ensures { result ≡ list_all is_command_byte word.now }
{
    word.iter().all(|byte| is_command_byte(*byte))
}

#[tactic(auto, unfolding(crate::specs::Log::is_command_name))]
fn is_command_name(word: &[u8]) -> bool
    ensures { result ≡ is_command_name word.now }
{
    has_command_bytes(word) && has_capital(word)
}

/// Whether a cell is a command in its column.
#[tactic(auto, unfolding(crate::specs::Log::is_command))]
fn is_command(cell: &[u8]) -> bool
    ensures { result ≡ is_command cell.now }
{
    let word = first_len(Cut::Words, cell);
    is_command_name(&cell[..word]) && has_blanks(&cell[word..])
}

fn has_parenthesis(text: &[u8]) -> bool
    ensures { result ≡ list_any is_parenthesis text.now }
{
    text.iter().any(|byte| *byte == b'(')
}

/// How many bytes the bits in the last cell have, or the first of them where a parenthesis follows.
#[tactic(auto, unfolding(crate::specs::Log::bits_length))]
fn bits_length(tail: &[u8]) -> usize
    ensures is { result ≡ bits_length tail.now }
    ensures short { result ≤ length tail.now }
{
    if has_parenthesis(tail) {
        first_len(Cut::Words, tail)
    } else {
        tail.len()
    }
}

/// Whether a text begins with the name of a bit.
fn begins_with_bit(text: &[u8]) -> bool
    ensures { result ≡ is_bit (first Cut.Words text.now) }
{
    is_bit(&text[..first_len(Cut::Words, text)])
}

/// Whether the last cell has bits, behind a command.
#[tactic(auto, unfolding(crate::specs::Log::has_bits))]
fn has_bits(cell: &[u8], tail: &[u8]) -> bool
    ensures { result ≡ has_bits cell.now tail.now }
{
    (is_command(cell) && begins_with_bit(tail))
        && (cell.len() + bits_length(tail) >= 16 && !has_quote(tail))
}

/// Appends the last cell behind another.
fn append_tail<const N: usize>(out: &mut ArrayVec<u8, N>, cell: &[u8], tail: &[u8])
    requires { length out.old.items + (10 * length tail.now + AROUND) ≤ N }
    ensures says { out.new.items ≡ out.old.items ++ shown (says_pieces (says_colour tail.now) cell.now tail.now) }
    ensures longer { length out.new.items ≤ length out.old.items + (10 * length tail.now + AROUND) }
{
    match says_colour(tail) {
        Some(colour) => append_painted(out, Some(colour), tail),
        None => append_data(out, cell, tail),
    }
}

/// Appends what is said of data behind a cell.
fn append_data<const N: usize>(out: &mut ArrayVec<u8, N>, cell: &[u8], tail: &[u8])
    requires { length out.old.items + (10 * length tail.now + AROUND) ≤ N }
    ensures says { out.new.items ≡ out.old.items ++ shown (tail_pieces cell.now tail.now) }
    ensures longer { length out.new.items ≤ length out.old.items + (10 * length tail.now + AROUND) }
{
    if has_bits(cell, tail) {
        append_bits(out, tail);
    } else {
        append(out, tail);
    }
}

/// Appends a line of `log`.
pub(crate) fn append_log<const N: usize>(out: &mut ArrayVec<u8, N>, line: &[u8])
    requires { length out.old.items + (10 * length line.now + AROUND) ≤ N }
    ensures says { out.new.items ≡ out.old.items ++ shown (log_pieces line.now) }
    ensures longer { length out.new.items ≤ length out.old.items + (10 * length line.now + AROUND) }
{
    if line.starts_with(b"#") {
        append(out, line);
        return;
    }
    let parts = parts_of(line);
    append(out, parts.front);
    append(out, parts.cell);
    append_tail(out, parts.cell, parts.tail);
}
