//! A transaction, as a row tells it.

ghost use Rattle.std.specs.Prelude.{◌≡◌, ◌+◌, ◌<◌, ◌≤◌, ◌++◌, IfSome, length, option_map};
ghost use Rattle.pmb_beagle.specs.Bytes.{answered, byte_in, bytes_of};
ghost use Rattle.pmb_beagle.specs.Export.{marks_of};
ghost use Rattle.pmb_beagle.specs.Packets.{wire_of};
ghost use Rattle.pmb_beagle.specs.Views.{IsCounted, behind, transaction_from};
ghost use Rattle.pmb_csv.specs.Left.{text_of};
ghost use Rattle.pmb_words.specs.Numbers.{byte_of as digits_byte};
ghost use Rattle.pmb_words.specs.Parts.{words};

use arrayvec::ArrayVec;
use pmb_csv::Field;
use pmb_recording::{MOST_WIRE, WireByte};
use pmb_words::{Words, byte};

/// Whether START stands in front of a transaction, and STOP behind it.
#[derive(Clone, Copy, Debug, PartialEq, Eq)]
pub(crate) struct Marks {
    pub(crate) has_start: bool,
    pub(crate) has_stop: bool,
}

/// A transaction.
#[derive(Clone, Copy, Drop, Debug)]
pub(crate) struct Transaction<'a> {
    pub(crate) reads: bool,
    pub(crate) marks: Marks,
    pub(crate) address: WireByte,
    /// Its bytes, as the row writes them.
    pub(crate) bytes: &'a [u8],
    /// How many they are.
    pub(crate) length: usize,
}

/// `S` and `P` for START and STOP.
pub(crate) fn read_marks(field: &Field<'_>) -> Option<Marks>
    ensures { result ≡ marks_of (text_of field.now) }
{
    if field.is(b"") {
        Some(Marks {
            has_start: false,
            has_stop: false,
        })
    } else if field.is(b"S") {
        Some(Marks {
            has_start: true,
            has_stop: false,
        })
    } else if field.is(b"P") {
        Some(Marks {
            has_start: false,
            has_stop: true,
        })
    } else if field.is(b"SP") {
        Some(Marks {
            has_start: true,
            has_stop: true,
        })
    } else {
        None
    }
}

/// `58`, or `58*` where it was not acknowledged.
pub(crate) fn read_byte(text: &[u8]) -> Option<WireByte>
    ensures { result ≡ byte_in text.now }
{
    match text {
        [high, low] => wire_byte(*high, *low, true),
        [high, low, star] => {
            if *star == b'*' {
                wire_byte(*high, *low, false)
            } else {
                None
            }
        }
        _ => None,
    }
}

fn wire_byte(high: u8, low: u8, is_acknowledged: bool) -> Option<WireByte>
    ensures { result ≡ answered is_acknowledged (digits_byte high low) }
{
    Some(WireByte {
        follows_start: false,
        byte: byte(high, low)?,
        is_acknowledged,
    })
}

/// How many bytes a text writes, with blanks between; `None` where it writes something else.
pub(crate) fn count_bytes(text: &[u8]) -> Option<usize>
    ensures { result ≡ option_map length (bytes_of (words text.now)) }
{
    let mut count: usize = 0;
    let mut left = Words::of(text);
    while let Some(word) = left.next_word() {
        read_byte(word)?;
        count += 1;
    }
    Some(count)
}

/// Puts the bytes that a text writes behind those on the wire.
fn push_bytes(text: &[u8], wire: &mut ArrayVec<WireByte, MOST_WIRE>)
    requires { IfSome (behind wire.old.items (bytes_of (words text.now))) (λ bytes. length bytes ≤ MOST_WIRE) }
    ensures { IfSome (behind wire.old.items (bytes_of (words text.now))) (λ bytes. wire.new.items ≡ bytes) }
{
    let mut left = Words::of(text);
    while let Some(word) = left.next_word() {
        let Some(b) = read_byte(word) else {
            return;
        };
        let _ = wire.try_push(b);
    }
}

/// Puts a transaction behind what is on the wire.
pub(crate) fn push_transaction(t: &Transaction<'_>, wire: &mut ArrayVec<WireByte, MOST_WIRE>)
    requires counted { IsCounted t.now }
    requires address { t.now.address.byte ≤ 0x7f }
    requires room { length wire.old.items + t.now.length < MOST_WIRE }
    ensures { wire.new.items ≡ wire.old.items ++ wire_of (transaction_from t.now) }
{
    let _ = wire.try_push(WireByte {
        follows_start: true,
        byte: t.address.byte * 2 + u8::from(t.reads),
        is_acknowledged: t.address.is_acknowledged,
    });
    push_bytes(t.bytes, wire);
}
