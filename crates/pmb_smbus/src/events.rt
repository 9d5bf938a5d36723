//! What the four events of `smbus` say.

ghost use Rattle.std.specs.Prelude.{◌≡◌, ◌≤◌, false, true, ℕ, List, ◌∷◌, Some, None, IfSome, codes, length, option_map};
ghost use Rattle.pmb_recording.specs.Told.{reason_of};
ghost use Rattle.pmb_trace.specs.Line.{kind_of};
ghost use Rattle.pmb_trace.specs.Fields.{outcome_field as outcome_in};
ghost use Rattle.pmb_trace.specs.Views.{number_of};
ghost use Rattle.pmb_trace.specs.declared.event_name.EventKind.TheVariants.{Smbus};
ghost use Rattle.pmb_words.specs.Left.{pieces_left};
ghost use Rattle.pmb_smbus.specs.Events as events;
ghost use Rattle.pmb_smbus.specs.Transfers.{same_head, says as said_by};
ghost use Rattle.pmb_smbus.specs.Views.{AreWords, front_of as front_with, message_with, said, said_message, shown_as};

use crate::protocol::Protocol;
use pmb_recording::Fault;
use pmb_trace::{
    Bytes, EventName, Number, Outcome, address_field, command_field, decimal_field, flags_field,
    outcome_field, read_bytes,
};
use pmb_words::Pieces;

/// What all events of a transfer have.
#[derive(Clone, Copy, Debug, PartialEq, Eq)]
pub struct Head {
    /// The address.
    pub address: u64,
    /// The command code.
    pub command: u8,
    /// The protocol.
    pub protocol: Protocol,
    /// Whether the flag 0004 is set: the transfer has a packet error code.
    pub has_code: bool,
}

/// What all four events begin with.
#[derive(Clone, Copy, Drop, Debug)]
pub(crate) struct Front<'a> {
    pub(crate) head: Head,
    /// All flags.
    pub(crate) flags: Number<'a>,
}

/// An event with bytes.
#[derive(Clone, Copy, Drop, Debug)]
pub(crate) struct Message<'a> {
    pub(crate) front: Front<'a>,
    pub(crate) length: Number<'a>,
    /// Its bytes are not shown.
    pub(crate) is_hidden: bool,
}

/// An event, by its fields.
#[derive(Clone, Copy, Drop, Debug)]
pub(crate) enum Says<'a> {
    Writes(Message<'a>),
    Reads(Front<'a>),
    Replies(Message<'a>),
    /// The result, and whether the transfer wrote.
    Result(Front<'a>, bool, Outcome<'a>),
    /// Its form is none.
    Nothing,
}

/// What an event says by the fields after its bus. The bytes that it shows are kept.
pub(crate) fn read_event<'a>(name: EventName, fields: Pieces<'a>, bytes: &mut Bytes) -> Says<'a>
    requires kind { kind_of name ≡ Smbus }
    requires words { AreWords (pieces_left fields) }
    ensures { (bus : List ℕ) → said_by name (bus ∷ pieces_left fields.entry) ≡ Some (said result bytes.new.items) }
{
    match name {
        EventName::SmbusWrite => written(message_of(fields, bytes)),
        EventName::SmbusRead => read_of(fields),
        EventName::SmbusReply => replied(message_of(fields, bytes)),
        _ => result_of(fields),
    }
}

fn written<'a>(message: Option<Message<'a>>) -> Says<'a>
    ensures { (bytes : List ℕ) → said result bytes ≡ said_message events.Writes message.entry bytes }
{
    match message {
        Some(message) => Says::Writes(message),
        None => Says::Nothing,
    }
}

fn replied<'a>(message: Option<Message<'a>>) -> Says<'a>
    ensures { (bytes : List ℕ) → said result bytes ≡ said_message events.Replies message.entry bytes }
{
    match message {
        Some(message) => Says::Replies(message),
        None => Says::Nothing,
    }
}

/// Takes the four fields after the bus.
fn take_front<'a>(fields: &mut Pieces<'a>) -> Option<Front<'a>>
    ensures value { (bus : List ℕ) (says : events.Front → List (List ℕ) → events.Says)
        → events.with_front says (bus ∷ pieces_left fields.old) ≡ events.if_front says (option_map front_with result) (pieces_left fields.new) }
    ensures words { AreWords (pieces_left fields.old) → AreWords (pieces_left fields.new) }
{
    let address = fields.next_piece()?;
    let flags = fields.next_piece()?;
    let command = fields.next_piece()?;
    let protocol = fields.next_piece()?;
    front_of(address, flags, command, protocol)
}

/// The front by its words.
fn front_of<'a>(
    address: &'a [u8],
    flags: &'a [u8],
    command: &'a [u8],
    protocol: &'a [u8],
) -> Option<Front<'a>>
    ensures { option_map front_with result ≡ events.front_of address.now flags.now command.now protocol.now }
{
    let address = address_field(address)?;
    let flags = flags_field(flags)?;
    let command = command_field(command)?;
    let protocol = Protocol::of(protocol)?;
    let head = Head {
        address,
        command: (command % 256) as u8,
        protocol,
        has_code: flags.value & 0x0004 == 0x0004,
    };
    Some(Front { head, flags })
}

/// An event with bytes.
fn message_of<'a>(fields: Pieces<'a>, bytes: &mut Bytes) -> Option<Message<'a>>
    requires { AreWords (pieces_left fields) }
    ensures { (bus : List ℕ) (says : events.Message → events.Says)
        → said_message says result bytes.new.items ≡ events.with_front (events.message_of says) (bus ∷ pieces_left fields.entry) }
{
    let mut rest = fields;
    let front = take_front(&mut rest)?;
    let length = decimal_field(b"l=", rest.next_piece()?)?;
    let is_hidden = read_shown(rest, bytes)?;
    Some(Message {
        front,
        length,
        is_hidden,
    })
}

/// Whether the bytes are hidden, where the fields are bytes or the placeholder. Bytes are kept.
fn read_shown(fields: Pieces<'_>, bytes: &mut Bytes) -> Option<bool>
    requires { AreWords (pieces_left fields) }
    ensures { shown_as result bytes.new.items ≡ events.bytes_of (pieces_left fields.entry) }
{
    if are_same(Pieces::of(b"[ARG TYPE NOT FIELD BUT 2]"), fields) {
        return Some(true);
    }
    let mut rest = fields;
    let word = rest.next_piece()?;
    let None = rest.next_piece() else {
        return None;
    };
    if read_bytes(word, bytes) {
        Some(false)
    } else {
        None
    }
}

/// Whether pieces are the same.
fn are_same(some: Pieces<'_>, others: Pieces<'_>) -> bool
    ensures { result ≡ events.same_words (pieces_left some.entry) (pieces_left others.entry) }
{
    let mut left = some;
    let mut rest = others;
    while let Some(word) = left.next_piece() {
        let Some(other) = rest.next_piece() else {
            return false;
        };
        if word != other {
            return false;
        }
    }
    rest.next_piece().is_none()
}

/// The event that begins to read.
fn read_of<'a>(fields: Pieces<'a>) -> Says<'a>
    ensures { (bus bytes : List ℕ) → said result bytes ≡ events.with_front events.read_of (bus ∷ pieces_left fields.entry) }
{
    let mut rest = fields;
    let Some(front) = take_front(&mut rest) else {
        return Says::Nothing;
    };
    match rest.next_piece() {
        Some(_) => Says::Nothing,
        None => Says::Reads(front),
    }
}

/// The result of a transfer.
fn result_of<'a>(fields: Pieces<'a>) -> Says<'a>
    ensures { (bus bytes : List ℕ) → said result bytes ≡ events.with_front events.result_of (bus ∷ pieces_left fields.entry) }
{
    let mut rest = fields;
    let Some(front) = take_front(&mut rest) else {
        return Says::Nothing;
    };
    let (Some(direction), Some(outcome), None) = (
        rest.next_piece(),
        rest.next_piece(),
        rest.next_piece(),
    ) else {
        return Says::Nothing;
    };
    said_result(front, direction, outcome)
}

fn said_result<'a>(front: Front<'a>, direction: &'a [u8], outcome: &'a [u8]) -> Says<'a>
    ensures { (bytes : List ℕ) → said result bytes ≡ events.result (front_with front.entry) (events.direction_of direction.now) (outcome_in (codes "res=") outcome.now) }
{
    let (Some(writes), Some(outcome)) = (direction_of(direction), outcome_field(b"res=", outcome))
    else {
        return Says::Nothing;
    };
    Says::Result(front, writes, outcome)
}

/// Whether it wrote.
fn direction_of(word: &[u8]) -> Option<bool>
    ensures { result ≡ events.direction_of word.now }
{
    if word == b"wr".as_slice() {
        Some(true)
    } else if word == b"rd".as_slice() {
        Some(false)
    } else {
        None
    }
}

impl Head {
    /// Whether an event with this head is of the transfer with that.
    pub(crate) fn is_same(self, other: Head) -> bool
        ensures { result ≡ same_head self other }
    {
        self.address == other.address
            && self.command == other.command
            && self.protocol.is(other.protocol)
            && self.has_code == other.has_code
    }
}

impl<'a> Front<'a> {
    /// Whether the address has more than seven bits.
    pub(crate) fn is_far(&self) -> bool
        ensures { result ≡ events.is_far (front_with self.now) }
    {
        self.head.address > 0x7f
    }

    /// The first fault of an event that begins to read.
    pub(crate) fn read_fault(&self) -> Option<Fault<'a>>
        ensures { option_map reason_of result ≡ events.own_fault (events.Reads (front_with self.now)) }
    {
        if self.is_far() || self.head.protocol.is_call() {
            return Some(Fault::MakesNoSense);
        }
        self.flags_fault()
    }

    /// The fault of a flag that changes what is on the wire.
    fn flags_fault(&self) -> Option<Fault<'a>>
        ensures { option_map reason_of result ≡ events.flags_fault (front_with self.now) }
    {
        if self.flags.value & 0x0010 == 0 {
            None
        } else {
            Some(Fault::ChangesTheWire(self.flags.text))
        }
    }
}

impl<'a> Message<'a> {
    /// The bytes that it shows, of those that were kept.
    pub(crate) fn shown<'b>(&self, bytes: &'b [u8]) -> &'b [u8]
        ensures { result.now ≡ events.bytes_shown (message_with self.now bytes.now).bytes }
    {
        if self.is_hidden { b"" } else { bytes }
    }

    /// Whether bytes are on the wire that are not shown.
    pub(crate) fn hides(&self) -> bool
        ensures { (bytes : List ℕ) → result ≡ events.hides (message_with self.now bytes) }
    {
        self.is_hidden && self.length.value > u64::from(self.front.head.protocol.off_wire())
    }

    /// The first fault of `smbus_write`, where these bytes were kept.
    pub(crate) fn write_fault(&self, bytes: &[u8]) -> Option<Fault<'a>>
        ensures value { option_map reason_of result ≡ events.own_fault (events.Writes (message_with self.now bytes.now)) }
        ensures fits { result ≡ None → length (events.bytes_shown (message_with self.now bytes.now).bytes) ≤ 256 }
    {
        match self.bytes_fault(self.front.head.protocol.written_length(), bytes) {
            Some(fault) => Some(fault),
            None => self.front.flags_fault(),
        }
    }

    /// The first fault of `smbus_reply`, where these bytes were kept.
    pub(crate) fn reply_fault(&self, bytes: &[u8]) -> Option<Fault<'a>>
        ensures value { option_map reason_of result ≡ events.own_fault (events.Replies (message_with self.now bytes.now)) }
        ensures fits { result ≡ None → length (events.bytes_shown (message_with self.now bytes.now).bytes) ≤ 256 }
    {
        self.bytes_fault(self.front.head.protocol.reply_length(), bytes)
    }

    /// The first fault of its length and bytes, where the protocol has such a length, or that of a
    /// block.
    fn bytes_fault(&self, number: Option<u64>, bytes: &[u8]) -> Option<Fault<'a>>
        requires { IfSome number (λ small. small ≤ 2) }
        ensures value { option_map reason_of result ≡ events.bytes_fault number (message_with self.now bytes.now) }
        ensures fits { result ≡ None → length (events.bytes_shown (message_with self.now bytes.now).bytes) ≤ 256 }
    {
        if self.is_out_of_range(number, bytes) {
            return Some(Fault::MakesNoSense);
        }
        self.shows_less(bytes)
    }

    /// Whether a field has a value that it can't have.
    fn is_out_of_range(&self, number: Option<u64>, bytes: &[u8]) -> bool
        requires { IfSome number (λ small. small ≤ 2) }
        ensures value { result ≡ events.is_out_of_range number (message_with self.now bytes.now) }
        ensures fits { result ≡ false → length (events.bytes_shown (message_with self.now bytes.now).bytes) ≤ 256 }
    {
        let shown = self.shown(bytes);
        self.front.is_far()
            || !is_length(number, self.length.value, shown)
            || shown.len() as u64 > self.length.value
    }

    /// The fault that it shows fewer bytes than its length.
    fn shows_less(&self, bytes: &[u8]) -> Option<Fault<'a>>
        ensures { option_map reason_of result ≡ events.shows_less (message_with self.now bytes.now).bytes (number_of self.now.length) }
    {
        let shown = bytes.len() as u64;
        if self.is_hidden || shown >= self.length.value {
            return None;
        }
        Some(Fault::Shows(shown, self.length.text))
    }
}

/// Whether a protocol of such a length, or of blocks, has the length of these bytes.
fn is_length(number: Option<u64>, size: u64, bytes: &[u8]) -> bool
    requires { IfSome number (λ small. small ≤ 2) }
    ensures value { result ≡ events.is_length number size bytes.now }
    ensures fits { result ≡ true → length bytes.now ≤ size → length bytes.now ≤ 256 }
{
    match number {
        Some(number) => size == number,
        None => is_block_length(size, bytes),
    }
}

/// Whether a block of these bytes has such a length.
fn is_block_length(size: u64, bytes: &[u8]) -> bool
    ensures value { result ≡ events.is_block_length size bytes.now }
    ensures fits { result ≡ true → length bytes.now ≤ size → length bytes.now ≤ 256 }
{
    match bytes {
        [first, ..] => size == u64::from(*first) + 1,
        [] => size > 0,
    }
}
