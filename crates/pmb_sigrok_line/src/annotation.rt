//! The event of an annotation, in each form that the decoder writes.

ghost use Rattle.std.specs.Prelude.{◌≡◌, option_copied};
ghost use Rattle.pmb_sigrok_line.specs.Annotation.{event_in as event_of_annotation, is_label as may_label, labelled_event as event_behind_label, named as label_named, names_bus as bus_named, spelled_event as event_spelled, two_digits as byte_of_digits, with_byte};
ghost use Rattle.pmb_sigrok_line.specs.declared.event.Event.TheVariants.{Address, Data};
ghost use Rattle.pmb_sigrok_line.specs.machine.Shapes.{before_quote as before_quote_of, bit_word as bit_of_word, bus_byte as byte_of_bus, bus_event as event_of_bus, bus_word as event_of_word, long_byte as byte_of_long, long_event as event_of_long, long_word as event_of_long_word, quoted_event as event_in_quotes, repeated_digits as byte_of_repeated, short_event as event_of_short};

use crate::event::Event;
use pmb_words::{behind, byte, part};

/// The event that an annotation says: `Start`; `"Start"`, as at level 3; `start: "Start" "S"`, as
/// at levels 4 and 5; and each of these behind a label, as `Address/Data: Start` of PulseView.
#[tactic(auto, unfolding(crate::specs::Annotation::event_in))]
pub(crate) fn event_in(text: &[u8]) -> Option<Event>
    ensures { result ≡ event_of_annotation text.now }
{
    match spelled_event(text) {
        Some(event) => Some(event),
        None => labelled_event(text),
    }
}

/// Of an annotation behind a label.
fn labelled_event(text: &[u8]) -> Option<Event>
    ensures { result ≡ event_behind_label text.now }
{
    let (label, rest) = part(b':', text);
    let event = spelled_event(behind(b" ", rest?)?)?;
    if is_label(event, label) {
        Some(event)
    } else {
        None
    }
}

/// Whether PulseView may write a label in front of an event: the row of its annotation, or its
/// class.
fn is_label(event: Event, label: &[u8]) -> bool
    ensures { result ≡ may_label event label.now }
{
    match event {
        Event::Start => names_bus(label, b"start", b"start condition"),
        Event::Repeat => {
            named(label, b"start repeat")
                || names_bus(label, b"repeat-start", b"repeat start condition")
        }
        Event::Stop => names_bus(label, b"stop", b"stop condition"),
        Event::Answer(true) => names_bus(label, b"ack", b"ack"),
        Event::Answer(false) => names_bus(label, b"nack", b"nack"),
        Event::Bit => {
            named(label, b"bits") || named(label, b"bit") || named(label, b"data/address bit")
        }
        Event::Mark(true) | Event::Address(true, _) => {
            names_bus(label, b"address-read", b"address read")
        }
        Event::Mark(false) | Event::Address(false, _) => {
            names_bus(label, b"address-write", b"address write")
        }
        Event::Data(true, _) => names_bus(label, b"data-read", b"data read"),
        Event::Data(false, _) => names_bus(label, b"data-write", b"data write"),
    }
}

/// Whether a label is the row of what happens on the bus, or a class by its name or by what sigrok
/// says of it.
fn names_bus(label: &[u8], class: &[u8], description: &[u8]) -> bool
    ensures { result ≡ bus_named label.now class.now description.now }
{
    named(label, b"address/data") || named(label, class) || named(label, description)
}

/// Whether a label is a name, in capital letters or small ones.
fn named(label: &[u8], name: &[u8]) -> bool
    ensures { result ≡ label_named label.now name.now }
{
    label.eq_ignore_ascii_case(name)
}

/// Of an annotation without a label.
fn spelled_event(text: &[u8]) -> Option<Event>
    ensures { result ≡ event_spelled text.now }
{
    if let Some(rest) = behind(b"\"", text) {
        return quoted_event(rest);
    }
    match short_event(text) {
        Some(event) => Some(event),
        None => long_event(text),
    }
}

/// Of `Start"`, which follows a quote.
#[tactic(auto, unfolding(crate::specs::machine::Shapes::quoted_event))]
fn quoted_event(text: &[u8]) -> Option<Event>
    ensures { result ≡ event_in_quotes text.now }
{
    short_event(before_quote(text)?)
}

/// What stands before a quote at the end of a text.
fn before_quote(text: &[u8]) -> Option<&[u8]>
    ensures { option_copied result ≡ before_quote_of text.now }
{
    text.strip_suffix(b"\"")
}

/// Of `Start` or `0`.
#[tactic(auto, unfolding(crate::specs::machine::Shapes::short_event))]
fn short_event(text: &[u8]) -> Option<Event>
    ensures { result ≡ event_of_short text.now }
{
    match bus_event(text) {
        Some(event) => Some(event),
        None => bit_word(text),
    }
}

/// Of `Start` or `Data read: 40`.
#[tactic(auto, unfolding(crate::specs::machine::Shapes::bus_event))]
fn bus_event(text: &[u8]) -> Option<Event>
    ensures { result ≡ event_of_bus text.now }
{
    match bus_word(text) {
        Some(event) => Some(event),
        None => bus_byte(text),
    }
}

/// Of a word.
#[tactic(auto, unfolding(crate::specs::machine::Shapes::bus_word))]
fn bus_word(text: &[u8]) -> Option<Event>
    ensures { result ≡ event_of_word text.now }
{
    if text == b"Start repeat".as_slice() {
        return Some(Event::Repeat);
    }
    match text {
        b"ACK" => Some(Event::Answer(true)),
        b"Start" => Some(Event::Start),
        b"Stop" => Some(Event::Stop),
        b"NACK" => Some(Event::Answer(false)),
        b"Read" => Some(Event::Mark(true)),
        b"Write" => Some(Event::Mark(false)),
        _ => None,
    }
}

/// Of a bit.
#[tactic(auto, unfolding(crate::specs::machine::Shapes::bit_word))]
fn bit_word(text: &[u8]) -> Option<Event>
    ensures { result ≡ bit_of_word text.now }
{
    match text {
        b"0" | b"1" => Some(Event::Bit),
        _ => None,
    }
}

/// Of `Data read: 40`.
#[tactic(auto, unfolding(crate::specs::machine::Shapes::bus_byte))]
fn bus_byte(text: &[u8]) -> Option<Event>
    ensures { result ≡ byte_of_bus text.now }
{
    if let Some(digits) = behind(b"Data write: ", text) {
        data(false, two_digits(digits))
    } else if let Some(digits) = behind(b"Data read: ", text) {
        data(true, two_digits(digits))
    } else if let Some(digits) = behind(b"Address write: ", text) {
        address(false, two_digits(digits))
    } else {
        address(true, two_digits(behind(b"Address read: ", text)?))
    }
}

fn data(reads: bool, byte: Option<u8>) -> Option<Event>
    ensures { result ≡ with_byte (Data reads) byte }
{
    Some(Event::Data(reads, byte?))
}

fn address(reads: bool, byte: Option<u8>) -> Option<Event>
    ensures { result ≡ with_byte (Address reads) byte }
{
    Some(Event::Address(reads, byte?))
}

/// The byte of two digits.
fn two_digits(text: &[u8]) -> Option<u8>
    ensures { result ≡ byte_of_digits text.now }
{
    match text {
        [high, low] => byte(*high, *low),
        _ => None,
    }
}

/// Of `start: "Start" "S"` or `data-read: "Data read: 40" "DR: 40" "40"`.
#[tactic(auto, unfolding(crate::specs::machine::Shapes::long_event))]
fn long_event(text: &[u8]) -> Option<Event>
    ensures { result ≡ event_of_long text.now }
{
    match long_word(text) {
        Some(event) => Some(event),
        None => long_byte(text),
    }
}

/// Of `start: "Start" "S"`.
#[tactic(auto, unfolding(crate::specs::machine::Shapes::long_word))]
fn long_word(text: &[u8]) -> Option<Event>
    ensures { result ≡ event_of_long_word text.now }
{
    if text == b"start: \"Start\" \"S\"".as_slice() {
        Some(Event::Start)
    } else if text == b"repeat-start: \"Start repeat\" \"Sr\"".as_slice() {
        Some(Event::Repeat)
    } else if text == b"stop: \"Stop\" \"P\"".as_slice() {
        Some(Event::Stop)
    } else if text == b"ack: \"ACK\" \"A\"".as_slice() {
        Some(Event::Answer(true))
    } else if text == b"nack: \"NACK\" \"N\"".as_slice() {
        Some(Event::Answer(false))
    } else if text == b"address-read: \"Read\" \"Rd\" \"R\"".as_slice() {
        Some(Event::Mark(true))
    } else if text == b"address-write: \"Write\" \"Wr\" \"W\"".as_slice() {
        Some(Event::Mark(false))
    } else if text == b"bit: \"0\"".as_slice() || text == b"bit: \"1\"".as_slice() {
        Some(Event::Bit)
    } else {
        None
    }
}

/// Of `data-read: "Data read: 40" "DR: 40" "40"`.
#[tactic(auto, unfolding(crate::specs::machine::Shapes::long_byte))]
fn long_byte(text: &[u8]) -> Option<Event>
    ensures { result ≡ byte_of_long text.now }
{
    if let Some(digits) = behind(b"data-write: \"Data write: ", text) {
        data(false, repeated_digits(b"\" \"DW: ", digits))
    } else if let Some(digits) = behind(b"data-read: \"Data read: ", text) {
        data(true, repeated_digits(b"\" \"DR: ", digits))
    } else if let Some(digits) = behind(b"address-write: \"Address write: ", text) {
        address(false, repeated_digits(b"\" \"AW: ", digits))
    } else {
        let digits = behind(b"address-read: \"Address read: ", text)?;
        address(true, repeated_digits(b"\" \"AR: ", digits))
    }
}

/// The byte of `40" "DR: 40" "40"`, where `between` is `" "DR: `.
#[tactic(auto, unfolding(crate::specs::machine::Shapes::repeated_digits))]
fn repeated_digits(between: &[u8], text: &[u8]) -> Option<u8>
    ensures { result ≡ byte_of_repeated between.now text.now }
{
    let [high, low, rest @ ..] = text else {
        return None;
    };
    let again = [*high, *low, b'"', b' ', b'"', *high, *low, b'"'];
    if behind(between, rest)? == again.as_slice() {
        byte(*high, *low)
    } else {
        None
    }
}
