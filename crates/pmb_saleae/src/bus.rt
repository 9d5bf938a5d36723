//! The analyzer that is followed, by the field that names it.

ghost use Rattle.std.specs.Prelude.{◌≡◌, ◌≤◌, [], ◌∷◌, ◌++◌, length};
ghost use Rattle.std.specs.Str.{bytes_eq};
ghost use Rattle.pmb_csv.specs.Fields.{quote};
ghost use Rattle.pmb_csv.specs.Left.{text_of, undoubled};
ghost use Rattle.pmb_recording.specs.Recording.{following, most_text};
ghost use Rattle.pmb_saleae.specs.Bus.{bus_of};
ghost use Rattle.pmb_saleae.specs.Row.{lost_front as front_is_lost};

use arrayvec::ArrayVec;
use pmb_csv::Field;
use pmb_recording::{MOST_LINE, Recording};

/// Of which analyzer a row is.
#[derive(Clone, Copy, Debug, PartialEq, Eq)]
pub(crate) enum Bus {
    /// Of the one that is followed.
    Followed,
    /// Of the one that is followed, it seems: its name has lost its front.
    Cut,
    /// Of another.
    Other,
}

/// Follows the analyzer of a name, unless one is followed already. Returns of which the name is.
pub(crate) fn follow_field(recording: &mut Recording, field: &Field<'_>) -> Bus
    requires { length (text_of field.now) ≤ most_text }
    ensures now { recording.new ≡ following recording.old (text_of field.now) }
    ensures bus { result ≡ bus_of recording.new (text_of field.now) }
{
    if !field.is_quoted {
        return follow_name(recording, field.raw);
    }
    match field.plain() {
        Some(name) => follow_name(recording, name),
        None => follow_doubled(recording, field.raw),
    }
}

/// The same of a name as it is.
fn follow_name(recording: &mut Recording, name: &[u8]) -> Bus
    requires { length name.now ≤ most_text }
    ensures now { recording.new ≡ following recording.old name.now }
    ensures bus { result ≡ bus_of recording.new name.now }
{
    recording.follow(name);
    if recording.is_followed(name) {
        Bus::Followed
    } else if lost_front(recording.bus.as_slice(), name) {
        Bus::Cut
    } else {
        Bus::Other
    }
}

/// Whether a name is the end of another and a quote behind it.
fn lost_front(whole: &[u8], name: &[u8]) -> bool
    ensures { result ≡ front_is_lost whole.now name.now }
{
    let mut left = whole;
    while let [_, rest @ ..] = left {
        if is_before_quote(left, name) {
            return true;
        }
        left = rest;
    }
    is_before_quote(left, name)
}

/// Whether a text is another and a quote behind it.
fn is_before_quote(front: &[u8], text: &[u8]) -> bool
    ensures { result ≡ bytes_eq text.now (front.now ++ quote ∷ []) }
{
    match text.strip_suffix(b"\"") {
        Some(before) => before == front,
        None => false,
    }
}

/// The same of a name in which each quote is doubled. Its bytes are copied.
#[inline(never)]
fn follow_doubled(recording: &mut Recording, raw: &[u8]) -> Bus
    requires { length (undoubled raw.now) ≤ most_text }
    ensures now { recording.new ≡ following recording.old (undoubled raw.now) }
    ensures bus { result ≡ bus_of recording.new (undoubled raw.now) }
{
    let mut name = ArrayVec::new();
    put_undoubled(raw, &mut name);
    follow_name(recording, name.as_slice())
}

/// Puts each doubled quote of a text once.
fn put_undoubled(raw: &[u8], name: &mut ArrayVec<u8, MOST_LINE>)
    requires empty { name.old.items ≡ [] }
    requires room { length (undoubled raw.now) ≤ most_text }
    ensures { name.new.items ≡ undoubled raw.now }
{
    let mut left = raw;
    let mut was_quote = false;
    while let [byte, rest @ ..] = left {
        let is_quote = *byte == b'"';
        if is_quote && was_quote {
            was_quote = false;
        } else {
            let _ = name.try_push(*byte);
            was_quote = is_quote;
        }
        left = rest;
    }
}
