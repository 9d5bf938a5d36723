//! An item: a fact as plain numbers.

/// A number that is not there.
pub const NONE: u16 = 0xffff;

/// A page or a phase that applies, and isn't known.
pub const UNKNOWN: u16 = 0xfffe;

/// The command of an item.
#[derive(Clone, Copy)]
pub struct ItemCommand {
    /// The command code; [`NONE`] where none was sent.
    pub code: u16,
    /// The page that is selected, ffh for all: [`UNKNOWN`] where it isn't known, and [`NONE`] of a command
    /// that isn't paged or that the device lacks.
    pub page: u16,
    /// The phase that is selected, in the same way, of a command that has a value for each phase.
    pub phase: u16,
}

/// The number that two bytes of data are.
#[derive(Clone, Copy)]
pub struct ItemNumber {
    /// The exact value in lowest terms; 0 over 0 where there is none.
    pub numerator: i64,
    /// Its denominator, 1 or more.
    pub denominator: i64,
    /// 0 where the data are no number, 1 for a value, 2 for a factor of VOUT_COMMAND, and else why there is
    /// none: 3 VOUT_MODE or PAGE is unknown, 4 the page, 5 no VID table, 6 a relative mode with VID, 7 no
    /// coefficients, 8 half precision that is no number, 9 no code of the VID table, 10 its code for off.
    pub kind: u8,
    /// 1 where the value rests on a VOUT_MODE that the capture has not told; else 0.
    pub assumed: u8,
}

/// What is said of a packet error code.
#[derive(Clone, Copy)]
pub struct ItemPec {
    /// Of a packet, 1 where it had a packet error code, and 0 where not. Of a refused byte in the place of one,
    /// 1 where it was right, and 0 where not. Else [`NONE`].
    pub there: u16,
    /// The code that would have been right, of such a byte, and of a refusal for a wrong one; else [`NONE`].
    pub right: u16,
}

/// Why an event was refused.
#[derive(Clone, Copy)]
pub struct ItemRefusal {
    /// The reason, from 1 on in the order of [`Reason`](pmb_transaction::Reason); 0 of what is no refusal.
    pub reason: u8,
    /// The kinds of events that might have come: START is 1, a byte 2, ACK 4, NACK 8, STOP 16.
    pub expected: u8,
    /// The kind of the event that came, in the same way; 0 where the events ended.
    pub got: u8,
    /// That event's byte; 0 of another kind.
    pub byte: u8,
}

/// The bytes of a leg.
#[derive(Clone, Copy)]
pub struct ItemLeg {
    /// How many there are; [`NONE`] where there is no such leg.
    pub length: u16,
    /// These bytes, and 0 after them.
    pub bytes: [u8; 258],
}

/// A short text.
#[derive(Clone, Copy)]
pub struct ItemText {
    /// How many bytes it has; [`NONE`] where there is none.
    pub length: u16,
    /// These bytes, and 0 after them.
    pub bytes: [u8; 40],
}

/// Where and when an item begins.
#[derive(Clone, Copy)]
pub struct ItemHead {
    /// The number of its first event, counted from 0.
    pub at: u64,
    /// The line of that event's word, counted from 1.
    pub line: u64,
    /// The column of that word in bytes, counted from 1.
    pub column: u64,
    /// The time of its packet.
    pub time: ItemText,
}

/// Which part of a group an item is.
#[derive(Clone, Copy)]
pub struct ItemPart {
    /// Its number, counted from 1; 0 of what is neither a write nor a refused leg.
    pub number: u64,
    /// How many parts there are.
    pub count: u64,
}

/// A fact of a capture.
#[derive(Clone, Copy)]
pub struct Item {
    pub head: ItemHead,
    pub part: ItemPart,
    pub number: ItemNumber,
    pub command: ItemCommand,
    pub pec: ItemPec,
    /// The address of the device that it names, of seven bits; [`NONE`] where it names none.
    pub device: u16,
    /// 1 for a write or a part of a group, 2 for a read, 3 for a call, 4 for a leg that was refused, 5 for an
    /// alert, 6 for a packet to another device, 7 for a refusal, 8 for a word that is no token.
    pub kind: u8,
    /// What was refused: 1 the address, 2 the code, 3 a later byte, 4 to be read; 0 of another kind.
    pub refused: u8,
    pub refusal: ItemRefusal,
    /// What was sent: the data of a write or a call; and of a leg that was refused, and of a refusal, all bytes
    /// after the address.
    pub sent: ItemLeg,
    /// What was replied: the data of a read or a call, the byte of an alert; and of a refusal in a leg that is
    /// read, all bytes after the address.
    pub reply: ItemLeg,
    /// At most the first 32 bytes of a word that is no token.
    pub word: ItemText,
}
