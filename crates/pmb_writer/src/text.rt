//! Events and packets as canonical text.
//!
//! Its rows: `tests_packets`, `src/writer/packets.rt` and `sizes.rt`; `tests/rows/lines.txt`.

ghost use Rattle.std.specs.Prelude.{◌≡◌, ◌+◌, ◌*◌, ◌≤◌, ◌<◌, ◌++◌, ◌∷◌, [], codes, length, slice_index};
ghost use Rattle.std.specs.Option.{option_to_list};
ghost use Rattle.hex.specs.Hex.{lower_digits};
ghost use Rattle.pmb_bus.specs.Event.{canonical_text, text_of};
ghost use Rattle.pmb_transaction.specs.Transaction.{transaction_data};
ghost use Rattle.pmb_writer.specs.Invalid.{HasPacket};
ghost use Rattle.pmb_writer.specs.Text.{AppendsPacket, most_text};
ghost use Rattle.pmb_writer.specs.machine.Legs.{behind_acks, code_behind, code_on};

use crate::legs::{legs_of, read_legs, write_legs};
use arrayvec::ArrayVec;
use pmb_bus::laws::{pec_goes_on, worked_pecs};
use pmb_bus::{Event, pec_next};
use pmb_table::Profile;
use pmb_table::laws::accepted_bus;
use pmb_transaction::Transaction;

/// The most bytes of a leg's text.
const MOST_LEG: usize = 1314;

/// How many bytes [`append_packet`] wants room for: 1,314 for each leg of the packet, and 3 for STOP.
pub fn most_text(transaction: &Transaction) -> usize
    ensures value { result ≡ most_text (transaction_data transaction.now) }
    ensures few { result ≤ 22341 }
{
    let legs = match transaction {
        Transaction::Write { parts } => parts.len(),
        Transaction::Read { .. } | Transaction::Call { .. } => 2,
        Transaction::Refused { parts, .. } => parts.len() + 2,
        Transaction::Alert { .. } | Transaction::NoAlert => 1,
    };
    MOST_LEG * legs + 3
}

/// Appends the canonical text of a transaction's packet, which is that of the events that
/// [`events_of`](crate::events_of) gives, one after the other.
///
/// The transaction has to have a packet, as [`check`](crate::check) tells.
pub fn append_packet<const N: usize>(
    profile: &Profile,
    transaction: &Transaction,
    text: &mut ArrayVec<u8, N>,
)
    requires packet { HasPacket profile.now (transaction_data transaction.now) }
    requires room { length text.old.items + most_text (transaction_data transaction.now) ≤ N }
    ensures { AppendsPacket profile.now (transaction_data transaction.now) text.old.items text.new.items }
{
    accepted_bus(profile);
    pec_goes_on();
    worked_pecs();
    // LegsToCome whose kind is known where they are made are not kept in memory.
    match transaction {
        Transaction::Write { parts } => write_legs(profile, parts.as_slice()).append(text),
        Transaction::Read {
            addr,
            code,
            reply,
            pec,
        } => read_legs(profile, *addr, *code, reply.as_slice(), *pec).append(text),
        _ => legs_of(profile, transaction).append(text),
    }
}

/// Appends the canonical text of an event, as `event_text` of `pmb_bus` makes it.
#[inline]
pub fn append_event<const N: usize>(event: Event, text: &mut ArrayVec<u8, N>)
    requires { length text.old.items + 3 ≤ N }
    ensures text { text.new.items ≡ text.old.items ++ text_of event }
    ensures longer { length text.new.items ≤ length text.old.items + 3 }
{
    match event {
        Event::Start => append_letter(b'S', b' ', text),
        Event::Byte(byte) => append_byte(byte, text),
        Event::Ack => append_letter(b'A', b' ', text),
        Event::Nack => append_letter(b'N', b' ', text),
        Event::Stop => append_letter(b'P', b'\n', text),
    }
}

/// Appends ACK for the byte before, and a byte. Returns the packet error code with that byte, where
/// `crc` is the one without it.
#[inline]
fn append_next<const N: usize>(byte: u8, crc: u8, text: &mut ArrayVec<u8, N>) -> u8
    requires { length text.old.items + 5 ≤ N }
    ensures text { text.new.items ≡ text.old.items ++ canonical_text (behind_acks (byte ∷ [])) }
    ensures code { result ≡ code_on crc (byte ∷ []) }
    ensures longer { length text.new.items ≡ length text.old.items + 5 }
{
    append_letter(b'A', b' ', text);
    append_byte(byte, text);
    pec_next(crc, byte)
}

/// The same for a byte that may be no part of a leg.
#[inline]
pub(crate) fn append_some<const N: usize>(
    byte: Option<u8>,
    crc: u8,
    text: &mut ArrayVec<u8, N>,
) -> u8
    requires { length text.old.items + 5 ≤ N }
    ensures text { text.new.items ≡ text.old.items ++ canonical_text (behind_acks (option_to_list byte)) }
    ensures code { result ≡ code_on crc (option_to_list byte) }
    ensures longer { length text.new.items ≤ length text.old.items + 5 }
{
    match byte {
        Some(byte) => append_next(byte, crc, text),
        None => crc,
    }
}

/// The same for each of some bytes.
#[inline]
pub(crate) fn append_each<const N: usize>(bytes: &[u8], crc: u8, text: &mut ArrayVec<u8, N>) -> u8
    requires { length text.old.items + 5 * length bytes.now ≤ N }
    ensures text { text.new.items ≡ text.old.items ++ canonical_text (behind_acks bytes.now) }
    ensures code { result ≡ code_on crc bytes.now }
    ensures longer { length text.new.items ≡ length text.old.items + 5 * length bytes.now }
{
    let mut code = crc;
    for byte in bytes {
        code = append_next(*byte, code, text);
    }
    code
}

/// Appends ACK for the byte before and a packet error code, where one follows.
#[inline]
pub(crate) fn append_code<const N: usize>(follows: bool, code: u8, text: &mut ArrayVec<u8, N>)
    requires { length text.old.items + 5 ≤ N }
    ensures text { text.new.items ≡ text.old.items ++ canonical_text (behind_acks (code_behind follows code)) }
    ensures longer { length text.new.items ≤ length text.old.items + 5 }
{
    if follows {
        append_next(code, code, text);
    }
}

/// Appends a letter and what separates it from the next event.
#[inline]
fn append_letter<const N: usize>(letter: u8, separator: u8, text: &mut ArrayVec<u8, N>)
    requires { length text.old.items + 2 ≤ N }
    ensures text { text.new.items ≡ text.old.items ++ letter ∷ separator ∷ [] }
    ensures longer { length text.new.items ≡ length text.old.items + 2 }
{
    text.push(letter);
    text.push(separator);
}

/// Appends the two digits of a byte and a space.
#[inline]
fn append_byte<const N: usize>(byte: u8, text: &mut ArrayVec<u8, N>)
    requires { length text.old.items + 3 ≤ N }
    ensures text { text.new.items ≡ text.old.items ++ text_of (Event.Byte byte) }
    ensures longer { length text.new.items ≡ length text.old.items + 3 }
{
    text.push(digit(byte / 16));
    text.push(digit(byte % 16));
    text.push(b' ');
}

/// The hexadecimal digit of a number.
#[inline]
fn digit(number: u8) -> u8
    requires { number < 16 }
    ensures { result ≡ slice_index lower_digits number }
{
    b"0123456789abcdef"[usize::from(number)]
}
