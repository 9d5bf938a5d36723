//! A line of a trace.

ghost use Rattle.std.specs.Prelude.{◌≡◌, [], option_copied, option_map};
ghost use Rattle.pmb_words.specs.Left.{pieces_left, words_left};
ghost use Rattle.pmb_words.specs.Parts.{blank, pieces};
ghost use Rattle.pmb_trace.specs.Line.{as_closed as closed_by, bare_name as bare, before_colon as before, before_end, comment_end, event_in as first_event};
ghost use Rattle.pmb_trace.specs.Line.{event_of_line as line_event, is_other as is_other_in, opens_comment as opens};
ghost use Rattle.pmb_trace.specs.Line.{name_of as named_by, others_in, trace_line as said, unlost, without_system as bare_word};
ghost use Rattle.pmb_trace.specs.Views.{event_of, line_of};

use crate::event_name::{EventKind, EventName};
use crate::loss::{Loss, any_loss};
use pmb_words::{Pieces, Words, behind};

/// An event: its name, the word in front of that, and the words behind it.
#[derive(Clone, Copy, Drop, Debug)]
pub struct Event<'a> {
    /// Its name.
    pub name: EventName,
    /// The word in front of its name, empty where none stands there.
    pub front: &'a [u8],
    /// Its fields, between single blanks.
    pub fields: Pieces<'a>,
    /// Whether the name of an event of the other kind is among them.
    pub has_other: bool,
}

/// What a line says.
#[derive(Clone, Copy, Drop, Debug)]
pub enum TraceLine<'a> {
    /// Nothing of the bus.
    Nothing,
    /// That a trace begins.
    Heading,
    /// That events were lost.
    Lost(Loss<'a>),
    /// An event.
    Says(Event<'a>),
}

/// What a line says.
pub fn trace_line(line: &[u8]) -> TraceLine<'_>
    ensures { line_of result ≡ said line.now }
{
    match any_loss(line) {
        Some(loss) => TraceLine::Lost(loss),
        None => without_loss(line),
    }
}

/// What a line says that tells of no loss.
fn without_loss(line: &[u8]) -> TraceLine<'_>
    ensures { line_of result ≡ unlost line.now }
{
    if behind(b"# tracer:", line).is_some() {
        return TraceLine::Heading;
    }
    if behind(b"#", line).is_some() {
        return TraceLine::Nothing;
    }
    if behind(b"cpus=", line).is_some() {
        return TraceLine::Heading;
    }
    match event_of_line(line) {
        Some(event) => TraceLine::Says(event),
        None => TraceLine::Nothing,
    }
}

/// The first event of a line, without the end of the comment that it stands in.
fn event_of_line(line: &[u8]) -> Option<Event<'_>>
    ensures { option_map event_of result ≡ line_event line.now }
{
    match before_comment_end(line) {
        Some(text) => Some(event_in(text)?.as_closed(true)),
        None => Some(event_in(line)?.as_closed(false)),
    }
}

/// A line without the end of a comment, where it ends with one.
fn before_comment_end(line: &[u8]) -> Option<&[u8]>
    ensures { option_copied result ≡ before_end comment_end line.now }
{
    line.strip_suffix(b" */")
}

/// No fields.
fn no_fields<'a>() -> Pieces<'a>
    ensures { pieces_left result ≡ [] }
{
    let mut left = Pieces::of(b"");
    let _ = left.next_piece();
    left
}

impl<'a> Event<'a> {
    /// The event of a line that ends with a comment, or of one that doesn't: without its fields, where
    /// it opens no such comment, or one that is not closed.
    fn as_closed(self, closes: bool) -> Event<'a>
        ensures { event_of result ≡ closed_by (opens self.entry.front.now) closes (event_of self.entry) }
    {
        if (self.front == b"/*".as_slice()) == closes {
            return self;
        }
        Event {
            fields: no_fields(),
            ..self
        }
    }
}

/// The first event of a line, and of which kinds it has names.
fn event_in(line: &[u8]) -> Option<Event<'_>>
    ensures { option_map event_of result ≡ first_event [] (pieces blank line.now) }
{
    let mut front: &[u8] = b"";
    let mut rest = Words::of(line);
    while let Some(word) = rest.next_word() {
        if let Some(name) = name_of(word) {
            return Some(Event {
                name,
                front,
                fields: rest.pieces(),
                has_other: has_other(name.kind(), rest),
            });
        }
        front = word;
    }
    None
}

/// Whether words name an event of the other kind.
fn has_other(kind: EventKind, words: Words<'_>) -> bool
    ensures { result ≡ others_in kind (words_left words.entry) }
{
    let mut rest = words;
    while let Some(word) = rest.next_word() {
        if is_other(kind, word) {
            return true;
        }
    }
    false
}

/// Whether a word names an event of the other kind.
fn is_other(kind: EventKind, word: &[u8]) -> bool
    ensures { result ≡ is_other_in kind (named_by word.now) }
{
    match name_of(word) {
        Some(name) => kind.differs(name.kind()),
        None => false,
    }
}

/// The event that a word names.
#[inline]
fn name_of(word: &[u8]) -> Option<EventName>
    ensures { result ≡ named_by word.now }
{
    match before_colon(word) {
        Some(name) => bare_name(without_system(name)),
        None => None,
    }
}

/// A word without the `:` at its end.
#[inline]
pub(crate) fn before_colon(word: &[u8]) -> Option<&[u8]>
    ensures { option_copied result ≡ before word.now }
{
    word.strip_suffix(b":")
}

/// A name without that of its system in front.
fn without_system(name: &[u8]) -> &[u8]
    ensures { result.now ≡ bare_word name.now }
{
    match behind(b"i2c:", name) {
        Some(rest) => rest,
        None => match behind(b"smbus:", name) {
            Some(rest) => rest,
            None => name,
        },
    }
}

/// The event of a name.
fn bare_name(name: &[u8]) -> Option<EventName>
    ensures { result ≡ bare name.now }
{
    if name == b"i2c_write".as_slice() {
        Some(EventName::I2cWrite)
    } else if name == b"i2c_read".as_slice() {
        Some(EventName::I2cRead)
    } else if name == b"i2c_reply".as_slice() {
        Some(EventName::I2cReply)
    } else if name == b"i2c_result".as_slice() {
        Some(EventName::I2cResult)
    } else if name == b"smbus_write".as_slice() {
        Some(EventName::SmbusWrite)
    } else if name == b"smbus_read".as_slice() {
        Some(EventName::SmbusRead)
    } else if name == b"smbus_reply".as_slice() {
        Some(EventName::SmbusReply)
    } else if name == b"smbus_result".as_slice() {
        Some(EventName::SmbusResult)
    } else {
        None
    }
}
