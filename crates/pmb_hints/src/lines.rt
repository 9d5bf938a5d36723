//! The lines that help with a fault.
//!
//! Its rows: `tests_tasks`, `src/profiles.rt`; `tests/rows/hints.txt`.

ghost use Rattle.std.specs.Prelude.{◌≡◌, ◌≤◌, ◌++◌, [], IfSome, List, None, Some, codes, false, length, min, ℕ};
ghost use Rattle.pmb_hints.specs.Hints.{Hints, Tell, TellsAt};
ghost use Rattle.pmb_hints.specs.Place.{IsPlaceAt, IsPlaceIn, place_text};

use crate::draft::Draft;
use crate::keyed::TablePlace;
use crate::mistakes::{EACH_COMMAND, EACH_DEVICE, command_hint, device_hint, top_hint};
use crate::report::append;
use crate::syntax::{syntax_hint, utf8_draft};
use arrayvec::ArrayString;
use itoa::Buffer;
use pmb_places::{Place, Places};
use pmb_table::{FaultKind, ProfileFault};
use std::alloc::Global;
use toml::{Table, Value};

/// The lines that help with a fault, and where it is.
#[derive(Drop)]
pub struct HintLines {
    /// A few lines, each with its LF. The first one begins with the place.
    pub lines: ArrayString<1152>,
    /// Where the key, the item or the header begins that is at fault, or the table that lacks a key. Of
    /// two that have the same, it is the later one.
    pub place: Option<Place>,
}

impl HintLines {
    /// Nothing helps.
    fn none() -> HintLines
        ensures lines { result.lines.bytes ≡ [] }
        ensures place { result.place ≡ None }
    {
        HintLines {
            lines: ArrayString::new(),
            place: None,
        }
    }

    /// The lines of a draft, the first of which begins with the place in the text. There are none if no
    /// place is known, or if there was no memory to look for it.
    fn of(draft: &Draft, text: &[u8]) -> HintLines
        ensures within { IfSome result.place (IsPlaceIn text.now) }
        ensures told { Tell result.lines.bytes result.place }
        ensures known { (at : ℕ) (words : List ℕ) → draft.now.at ≡ Some at → at ≤ length text.now
            → draft.now.has_no_memory ≡ false → draft.now.text.bytes ≡ codes "  " ++ words
            → TellsAt text.now at words result.lines.bytes result.place }
    {
        match draft.at {
            Some(at) if !draft.has_no_memory => HintLines::at(
                place_at(text, at),
                unmarked(draft.text.as_str()),
            ),
            _ => HintLines::none(),
        }
    }

    /// Lines after their place.
    fn at(place: Place, words: &str) -> HintLines
        requires { length words.now ≤ 1024 }
        ensures lines { result.lines.bytes ≡ place_text place ++ words.now }
        ensures place { result.place ≡ Some place }
    {
        let mut lines = ArrayString::new();
        let _ = lines.try_push_str(text_of(place).as_str());
        let _ = lines.try_push_str(words);
        HintLines {
            lines,
            place: Some(place),
        }
    }
}

/// A draft's lines without the two spaces in front.
fn unmarked(lines: &str) -> &str
    ensures rest { (words : List ℕ) → lines.now ≡ codes "  " ++ words → result.now ≡ words }
    ensures short { length result.now ≤ length lines.now }
{
    lines.strip_prefix("  ").unwrap_or(lines)
}

/// How a line names its place.
fn text_of(place: Place) -> ArrayString<96>
    ensures { result.bytes ≡ place_text place }
{
    let mut text = ArrayString::new();
    append(&mut text, "  line ");
    append(&mut text, Buffer::new().format(place.line));
    append(&mut text, ", column ");
    append(&mut text, Buffer::new().format(place.column));
    append(&mut text, ": ");
    text
}

/// The place after so many bytes of a text, or at its end.
fn place_at(text: &[u8], at: usize) -> Place
    ensures { IsPlaceAt text.now (min at (length text.now)) result }
{
    let mut places = Places::new();
    places.take(&text[..at.min(text.len())]);
    places.here()
}

/// The lines that help with the fault of a profile's text, each with its LF. There are none if nothing
/// helps, if its place isn't found, or if there is no memory to read the text again.
pub fn hints(alloc: Global, text: &[u8], fault: ProfileFault) -> HintLines
    ensures { Hints text.now fault result.lines.bytes result.place }
{
    if fault.what == FaultKind::OutOfMemory {
        return HintLines::none();
    }
    match std::str::from_utf8(text) {
        Ok(document) => HintLines::of(&text_draft(alloc, document, fault), text),
        Err(error) => HintLines::of(&utf8_draft(error.valid_up_to()), text),
    }
}

/// The lines on the fault of a text.
fn text_draft(alloc: Global, text: &str, fault: ProfileFault) -> Draft {
    let mut lines = Draft::new();
    match toml::table_from_str(alloc, text) {
        Ok(table) => table_hint(alloc, text, &table, fault, &mut lines),
        Err(error) => syntax_hint(text, &error, &mut lines),
    }
    lines
}

/// Hints for the fault of a document's table.
fn table_hint(alloc: Global, text: &str, table: &Table, fault: ProfileFault, lines: &mut Draft) {
    let mut place = TablePlace {
        alloc,
        text,
        device: None,
        command: None,
        ignored: items(table, "ignore").unwrap_or(&[]),
        devices: items(table, "device").unwrap_or(&[]),
        pages: 1,
    };
    let Some(number) = fault.device else {
        top_hint(place.keys_of(table, &[]), fault.what, lines);
        return;
    };
    place.device = Some(usize::from(number));
    let Some((device, before)) = item(table, "device", usize::from(number)) else {
        return;
    };
    let Some(device) = device.as_table() else {
        place.stand(lines);
        let _ = lines.text.try_push_str(EACH_DEVICE);
        return;
    };
    place.pages = pages_of(device);
    match fault.command {
        None => device_hint(place.keys_of(device, before), fault.what, lines),
        Some(number) => {
            place.command = Some(usize::from(number));
            in_command(place, device, usize::from(number), fault.what, lines);
        }
    }
}

/// Hints for the fault of a command of a device.
fn in_command(
    place: TablePlace<'_>,
    device: &Table,
    number: usize,
    what: FaultKind,
    lines: &mut Draft,
) {
    let Some((command, before)) = item(device, "command", number) else {
        return;
    };
    match command.as_table() {
        Some(table) => command_hint(place.keys_of(table, before), what, lines),
        None => {
            place.stand(lines);
            let _ = lines.text.try_push_str(EACH_COMMAND);
        }
    }
}

/// How many pages a device has.
fn pages_of(device: &Table) -> i64 {
    match device.get("pages") {
        Some(pages) => pages.as_integer().unwrap_or(1),
        None => 1,
    }
}

/// The items of the array that a key has.
fn items<'a>(table: &'a Table, key: &str) -> Option<&'a [Value]> {
    Some(table.get(key)?.as_array()?.as_slice())
}

/// An item of the array that a key has, and those before it.
fn item<'a>(table: &'a Table, key: &str, number: usize) -> Option<(&'a Value, &'a [Value])> {
    let items = items(table, key)?;
    Some((items.get(number)?, items.get(..number)?))
}
