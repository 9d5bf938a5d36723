//! What the four events of `i2c` say.

ghost use Rattle.std.specs.Prelude.{◌≡◌, ◌≤◌, ◌+◌, ◌*◌, List, ℕ, ◌∷◌, Option, codes, option_map};
ghost use Rattle.pmb_recording.specs.Told.{reason_of};
ghost use Rattle.pmb_trace.specs.Fields.{decimal_field as decimal_in, outcome_field as outcome_in};
ghost use Rattle.pmb_words.specs.Left.{pieces_left};
ghost use Rattle.pmb_kernel.specs.Events.{is_out_of_range as out_of_range, message_of as message_in, other_flags as others_of, own_fault as fault_of};
ghost use Rattle.pmb_kernel.specs.Events.{reads as does_read, result as result_with, result_of as result_in, to_show as shows, with_bytes as bytes_in, without_bytes as no_bytes_in};
ghost use Rattle.pmb_kernel.specs.Events.{has as has_flag, says as said_by};
ghost use Rattle.pmb_kernel.specs.Transfers.{begins as does_begin, has_length, is_reply_to as replies_to};
ghost use Rattle.pmb_recording.specs.Wire.{bit_of};
ghost use Rattle.pmb_kernel.specs.Views.{AreWords, message_with, role_of, said, said_message, with_shown};

use crate::transfers::Read;
use pmb_recording::Fault;
use pmb_trace::{
    Bytes, EventName, Outcome, address_field, decimal_field, flags_field, outcome_field, read_bytes,
};
use pmb_words::Pieces;

/// Flags of a message, by the names that Linux gives them: it reads; it has an error code, which is
/// among its bytes; its bytes stand where a device may put them; the first byte that is read tells how
/// many follow.
const I2C_M_RD: u16 = 0x0001;

const I2C_CLIENT_PEC: u16 = 0x0004;

const I2C_M_DMA_SAFE: u16 = 0x0200;

const I2C_M_RECV_LEN: u16 = 0x0400;

/// Flags that any message may have, and those of one that reads.
const FLAGS_OF_ALL: u16 = I2C_M_RD + I2C_CLIENT_PEC + I2C_M_DMA_SAFE;

const FLAGS_OF_READS: u16 = FLAGS_OF_ALL + I2C_M_RECV_LEN;

/// Whether a flag is set.
fn has(flags: u16, flag: u16) -> bool
    ensures { result ≡ has_flag flags flag }
{
    flags & flag == flag
}

/// The direction of a message, or that it is a reply.
#[derive(Clone, Copy, Debug, PartialEq, Eq)]
pub(crate) enum Role {
    Writes,
    Reads,
    Replies,
}

impl Role {
    /// Whether bytes are read.
    fn is_read(self) -> bool
        ensures { result ≡ does_read (role_of self) }
    {
        match self {
            Role::Writes => false,
            Role::Reads | Role::Replies => true,
        }
    }

    /// Whether a transfer begins with such a message, if it has this number.
    pub(crate) fn begins(self, number: u64) -> bool
        ensures { result ≡ does_begin (role_of self) number }
    {
        match self {
            Role::Writes | Role::Reads => number == 0,
            Role::Replies => false,
        }
    }

    /// Flags that such a message may not have.
    fn other_flags(self, flags: u16) -> u16
        ensures { result ≡ others_of (role_of self) flags }
    {
        match self {
            Role::Writes => flags & (0xffff - FLAGS_OF_ALL),
            Role::Reads | Role::Replies => flags & (0xffff - FLAGS_OF_READS),
        }
    }
}

/// A message, or what it read.
#[derive(Clone, Copy, Drop, Debug)]
pub(crate) struct Message<'a> {
    pub(crate) role: Role,
    pub(crate) number: u64,
    pub(crate) address: u64,
    pub(crate) flags: u16,
    /// Its flags, as the line writes them.
    pub(crate) flags_text: &'a [u8],
    pub(crate) length: u64,
    /// Its length, as the line writes it.
    pub(crate) length_text: &'a [u8],
}

/// An event, by its fields.
#[derive(Clone, Copy, Drop, Debug)]
pub(crate) enum Says<'a> {
    Message(Message<'a>),
    Result(u64, Outcome<'a>),
    /// Its form is none.
    Nothing,
}

/// What an event of messages says by the fields behind its bus. The bytes that it shows are kept.
pub(crate) fn read_event<'a>(name: EventName, fields: Pieces<'a>, bytes: &mut Bytes) -> Says<'a>
    requires { AreWords (pieces_left fields) }
    ensures { (bus : List ℕ) → said result bytes.new.items ≡ said_by name (bus ∷ pieces_left fields.entry) }
{
    match name {
        EventName::I2cWrite => message_or_nothing(with_bytes(Role::Writes, fields, bytes)),
        EventName::I2cRead => message_or_nothing(without_bytes(fields, bytes)),
        EventName::I2cReply => message_or_nothing(with_bytes(Role::Replies, fields, bytes)),
        EventName::I2cResult => result_of(fields),
        EventName::SmbusWrite
        | EventName::SmbusRead
        | EventName::SmbusReply
        | EventName::SmbusResult => Says::Nothing,
    }
}

fn message_or_nothing<'a>(message: Option<Message<'a>>) -> Says<'a>
    ensures { (bytes : List ℕ) → said result bytes ≡ said_message message.entry bytes }
{
    match message {
        Some(message) => Says::Message(message),
        None => Says::Nothing,
    }
}

/// A message whose last field is the bytes.
fn with_bytes<'a>(role: Role, fields: Pieces<'a>, bytes: &mut Bytes) -> Option<Message<'a>>
    requires { AreWords (pieces_left fields) }
    ensures { (bus : List ℕ) → said_message result bytes.new.items ≡ bytes_in (role_of role) (bus ∷ pieces_left fields.entry) }
{
    let mut rest = fields;
    let number = rest.next_piece()?;
    let address = rest.next_piece()?;
    let flags = rest.next_piece()?;
    let length = rest.next_piece()?;
    let shown = rest.next_piece()?;
    let None = rest.next_piece() else {
        return None;
    };
    let message = message_of(role, number, address, flags, length)?;
    if read_bytes(shown, bytes) {
        Some(message)
    } else {
        None
    }
}

/// A message without bytes.
fn without_bytes<'a>(fields: Pieces<'a>, bytes: &mut Bytes) -> Option<Message<'a>>
    ensures { (bus : List ℕ) → said_message result bytes.new.items ≡ no_bytes_in (bus ∷ pieces_left fields.entry) }
{
    bytes.clear();
    let mut rest = fields;
    let number = rest.next_piece()?;
    let address = rest.next_piece()?;
    let flags = rest.next_piece()?;
    let length = rest.next_piece()?;
    if rest.next_piece().is_some() {
        return None;
    }
    message_of(Role::Reads, number, address, flags, length)
}

/// A message, by its fields but the bytes.
#[tactic(auto, using(crate::proofs::MessageFields::no_value))]
fn message_of<'a>(
    role: Role,
    number: &'a [u8],
    address: &'a [u8],
    flags: &'a [u8],
    length: &'a [u8],
) -> Option<Message<'a>>
    ensures { (bytes : Option (List ℕ)) → with_shown result bytes ≡ message_in (role_of role) number.now address.now flags.now length.now bytes }
{
    let number = decimal_field(b"#", number)?.value;
    let address = address_field(address)?;
    let flags = flags_field(flags)?;
    let length = decimal_field(b"l=", length)?;
    Some(Message {
        role,
        number,
        address,
        flags: (flags.value % 65536) as u16,
        flags_text: flags.text,
        length: length.value,
        length_text: length.text,
    })
}

/// The result of a transfer.
fn result_of<'a>(fields: Pieces<'a>) -> Says<'a>
    ensures { (bus bytes : List ℕ) → said result bytes ≡ result_in (bus ∷ pieces_left fields.entry) }
{
    let mut rest = fields;
    let (Some(count), Some(outcome), None) = (
        rest.next_piece(),
        rest.next_piece(),
        rest.next_piece(),
    ) else {
        return Says::Nothing;
    };
    said_result(count, outcome)
}

fn said_result<'a>(count: &'a [u8], outcome: &'a [u8]) -> Says<'a>
    ensures { (bytes : List ℕ) → said result bytes ≡ result_with (decimal_in (codes "n=") count.now) (outcome_in (codes "ret=") outcome.now) }
{
    let (Some(count), Some(outcome)) = (
        decimal_field(b"n=", count),
        outcome_field(b"ret=", outcome),
    ) else {
        return Says::Nothing;
    };
    Says::Result(count.value, outcome)
}

impl<'a> Message<'a> {
    /// The address with the direction in the lowest bit.
    pub(crate) fn address_byte(&self) -> u8
        requires { self.now.address ≤ 0x7f }
        ensures { result ≡ self.now.address * 2 + bit_of (does_read (role_of self.now.role)) }
    {
        self.address as u8 * 2 + u8::from(self.role.is_read())
    }

    /// The first fault that the message has by itself, where these bytes are shown.
    pub(crate) fn own_fault(&self, bytes: &[u8]) -> Option<Fault<'a>>
        ensures { option_map reason_of result ≡ fault_of (message_with self.now bytes.now) }
    {
        let shown = bytes.len() as u64;
        if self.is_out_of_range(bytes) {
            return Some(Fault::MakesNoSense);
        }
        if shown < self.to_show() {
            return Some(Fault::Shows(shown, self.length_text));
        }
        if self.role.other_flags(self.flags) == 0 {
            None
        } else {
            Some(Fault::ChangesTheWire(self.flags_text))
        }
    }

    /// Whether a field has a value that it can't have.
    fn is_out_of_range(&self, bytes: &[u8]) -> bool
        ensures { result ≡ out_of_range (message_with self.now bytes.now) }
    {
        self.address > 0x7f
            || has(self.flags, I2C_M_RD) != self.role.is_read()
            || bytes.len() as u64 > self.to_show()
    }

    /// How many bytes the line ought to show.
    fn to_show(&self) -> u64
        ensures { (bytes : List ℕ) → result ≡ shows (message_with self.now bytes) }
    {
        match self.role {
            Role::Reads => 0,
            Role::Writes | Role::Replies => self.length,
        }
    }

    /// Whether the message, which replies by these bytes, is the reply to one that reads.
    pub(crate) fn is_reply_to(&self, read: Read, bytes: &[u8]) -> bool
        ensures { result ≡ replies_to read (message_with self.now bytes.now) }
    {
        self.number == u64::from(read.number)
            && self.address == u64::from(read.address)
            && self.flags == read.flags
            && self.has_length_of(read, bytes)
    }

    fn has_length_of(&self, read: Read, bytes: &[u8]) -> bool
        ensures { result ≡ has_length read (message_with self.now bytes.now) }
    {
        if !has(read.flags, I2C_M_RECV_LEN) {
            return self.length == u64::from(read.length);
        }
        match bytes {
            [first, ..] => { self.length == u64::from(read.length) + u64::from(*first) }
            [] => false,
        }
    }
}
