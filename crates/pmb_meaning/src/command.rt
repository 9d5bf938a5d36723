//! The fields of a command's data.
//!
//! Its rows: the examples of `docs/meaning.md`.

ghost use Rattle.std.specs.Prelude.{◌≡◌, ◌≤◌, ◌&&◌, ◌==◌, IfSome, IsTrue, find, length, map, option_map};
ghost use Rattle.std.specs.Option.{option_copied};
ghost use Rattle.pmb_command.specs.Entry.{entry_parts};
ghost use Rattle.pmb_meaning.specs.Data.{bytes_of, called, exchange, written};
ghost use Rattle.pmb_meaning.specs.Field.{fields_parts};
ghost use Rattle.pmb_meaning.specs.Meaning.{fields_of, layout_of, number_of, page_plus, page_plus_called, page_plus_written, said_fields, table_fields, takes, takes_called, takes_read, takes_sent, takes_written};
ghost use Rattle.pmb_meaning.specs.machine.Rows.{layout_parts};
ghost use Rattle.pmb_meaning.specs.machine.Sound.{AreSound, is_sound_layout};
ghost use Rattle.pmb_meaning.specs.Tables.{layouts};

use crate::bits::number;
use crate::field::{Field, Value};
use crate::layout::{Layout, Way};
use crate::payload::Payload;
use crate::rows::rows_fields;
use crate::tables::{layouts, page_and_code};
use arrayvec::ArrayVec;
use pmb_command::Entry;
use pmb_command_data::is_plain_standard;

const PAGE_PLUS_WRITE: u8 = 0x05;

const PAGE_PLUS_READ: u8 = 0x06;

/// The fields of the data of the command with a code, or `None` where it has none on the page
/// `docs/meaning.md`, or the data have another length.
#[tactic(auto, unfolding(crate::specs::Meaning::fields_of))]
pub fn fields<'a>(code: u8, payload: &Payload<'a>) -> Option<ArrayVec<Field<'a>, 6>>
    ensures { option_map fields_parts result ≡ fields_of code (exchange payload.now) }
{
    match *payload {
        Payload::Written(bytes) => written_fields(code, bytes),
        Payload::Read(_) => table_fields(code, payload),
        Payload::Sent(_) => table_fields(code, payload),
        Payload::Called { sent, reply } => called_fields(code, sent, reply),
    }
}

/// The fields of the data of a command, if it is the standard's and its data are bytes.
fn said_fields<'a>(entry: &Entry, payload: &Payload<'a>) -> Option<ArrayVec<Field<'a>, 6>>
    ensures { option_map fields_parts result ≡ said_fields (entry_parts entry.now) (exchange payload.now) }
{
    if is_plain_standard(entry) {
        fields(entry.code, payload)
    } else {
        None
    }
}

/// The same, and how they are told: with distinct keys, and in few bytes.
pub(crate) fn sound_fields<'a>(
    entry: &Entry,
    payload: &Payload<'a>,
) -> Option<ArrayVec<Field<'a>, 6>>
    ensures fields { option_map fields_parts result ≡ said_fields (entry_parts entry.now) (exchange payload.now) }
    ensures sound { IfSome result (λ all. AreSound (fields_parts all)) }
{
    said_fields(entry, payload)
}

/// The fields of data that are written.
#[tactic(auto, unfolding(crate::specs::Meaning::fields_of))]
fn written_fields(code: u8, bytes: &[u8]) -> Option<ArrayVec<Field<'_>, 6>>
    ensures { option_map fields_parts result ≡ fields_of code (written bytes.now) }
{
    if code == PAGE_PLUS_WRITE {
        page_plus_written(bytes)
    } else {
        table_fields(code, &Payload::Written(bytes))
    }
}

/// The fields of data that are sent and replied.
#[tactic(auto, unfolding(crate::specs::Meaning::fields_of))]
fn called_fields<'a>(code: u8, sent: &'a [u8], reply: &'a [u8]) -> Option<ArrayVec<Field<'a>, 6>>
    ensures { option_map fields_parts result ≡ fields_of code (called sent.now reply.now) }
{
    if code == PAGE_PLUS_READ {
        page_plus_called(sent, reply)
    } else {
        table_fields(code, &Payload::Called { sent, reply })
    }
}

/// The fields of what PAGE_PLUS_WRITE writes.
fn page_plus_written(bytes: &[u8]) -> Option<ArrayVec<Field<'_>, 6>>
    ensures { option_map fields_parts result ≡ page_plus_written bytes.now }
{
    match bytes {
        [page, code, others @ ..] => page_plus(*page, *code, others),
        _ => None,
    }
}

/// The fields of what PAGE_PLUS_READ sends, and of the reply.
fn page_plus_called<'a>(sent: &[u8], reply: &'a [u8]) -> Option<ArrayVec<Field<'a>, 6>>
    ensures { option_map fields_parts result ≡ page_plus_called sent.now reply.now }
{
    match sent {
        [page, code] => page_plus(*page, *code, reply),
        _ => None,
    }
}

/// A page, a code, and the data of that command.
fn page_plus(page: u8, code: u8, others: &[u8]) -> Option<ArrayVec<Field<'_>, 6>>
    ensures { option_map fields_parts result ≡ page_plus page code others.now }
{
    if others.len() > 255 {
        return None;
    }
    let mut fields = rows_fields(page_and_code(), number(&[page, code]));
    fields.push(Field {
        key: "data",
        value: Value::Bytes(others),
    });
    Some(fields)
}

/// The fields of data whose layout is in the table.
fn table_fields<'a>(code: u8, payload: &Payload<'_>) -> Option<ArrayVec<Field<'a>, 6>>
    ensures { option_map fields_parts result ≡ table_fields code (exchange payload.now) }
{
    match layout_of(code, payload) {
        Some(layout) => Some(rows_fields(layout.2, payload_number(payload))),
        None => None,
    }
}

/// All bytes as one number, those of the reply last.
fn payload_number(payload: &Payload<'_>) -> u64
    requires { length (bytes_of (exchange payload.now)) ≤ 7 }
    ensures { result ≡ number_of (bytes_of (exchange payload.now)) }
{
    match *payload {
        Payload::Written(bytes) | Payload::Read(bytes) | Payload::Sent(bytes) => number(bytes),
        Payload::Called { sent, reply } => {
            let mut bytes = ArrayVec::<u8, 7>::new();
            let _ = bytes.try_extend_from_slice(sent);
            let _ = bytes.try_extend_from_slice(reply);
            number(bytes.as_slice())
        }
    }
}

/// The layout of a command's data.
fn layout_of(code: u8, payload: &Payload<'_>) -> Option<&'static Layout>
    ensures layout { option_map (λ l. layout_parts l.now) result ≡ layout_of code (exchange payload.now) }
    ensures sound { IfSome result (λ l. IsTrue (is_sound_layout (layout_parts l.now))) }
    ensures short { IfSome result (λ l. length (bytes_of (exchange payload.now)) ≤ 7) }
{
    find_layout(layouts(), code, payload)
}

/// Whether data go in a way, with as many bytes.
fn takes(way: Way, payload: &Payload<'_>) -> bool
    ensures { result ≡ takes way (exchange payload.now) }
{
    match *payload {
        Payload::Written(bytes) => takes_written(way, bytes.len()),
        Payload::Read(bytes) => takes_read(way, bytes.len()),
        Payload::Sent(bytes) => takes_sent(way, bytes.len()),
        Payload::Called { sent, reply } => takes_called(way, sent.len(), reply.len()),
    }
}

fn takes_written(way: Way, many: usize) -> bool
    ensures { result ≡ takes_written way many }
{
    match way {
        Way::Register(n) | Way::Written(n) => many == usize::from(n),
        Way::Read(_) | Way::Sent(_) | Way::Called(_, _) => false,
    }
}

fn takes_read(way: Way, many: usize) -> bool
    ensures { result ≡ takes_read way many }
{
    match way {
        Way::Register(n) | Way::Read(n) => many == usize::from(n),
        Way::Written(_) | Way::Sent(_) | Way::Called(_, _) => false,
    }
}

fn takes_sent(way: Way, many: usize) -> bool
    ensures { result ≡ takes_sent way many }
{
    match way {
        Way::Sent(n) => many == usize::from(n),
        Way::Register(_) | Way::Written(_) | Way::Read(_) | Way::Called(_, _) => false,
    }
}

fn takes_called(way: Way, many: usize, replied: usize) -> bool
    ensures { result ≡ takes_called way many replied }
{
    match way {
        Way::Called(n, back) => many == usize::from(n) && replied == usize::from(back),
        Way::Register(_) | Way::Written(_) | Way::Read(_) | Way::Sent(_) => false,
    }
}

/// The first layout that a command's data have.
fn find_layout(
    layouts: &'static [Layout],
    code: u8,
    payload: &Payload<'_>,
) -> Option<&'static Layout>
    ensures { option_copied result ≡ find (λ l. (layout_parts l).code == code && takes (layout_parts l).way (exchange payload.now)) layouts.now }
{
    layouts
        .iter()
        .find(|layout| layout.0 == code && takes(layout.1, payload))
}
