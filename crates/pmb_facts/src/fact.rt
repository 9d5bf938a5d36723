//! What a capture says, one fact after the other.
//!
//! Its rows: `tests_json`, `src/log_lines/`; `tests/rows/json_objects.txt`, `log.txt`.

ghost use Rattle.std.specs.Prelude.{◌≡◌};
ghost use Rattle.pmb_bus.specs.declared.event.Event.{Event as BusEvent};
ghost use Rattle.std.specs.Prelude.{List};
ghost use Rattle.pmb_command.specs.Parts.{DeviceParts};
ghost use Rattle.pmb_partial_packet.specs.PartialPacket.{sent, written_to};
ghost use Rattle.pmb_partial_packet.specs.Standing.{SaidStandsAt};
ghost use Rattle.pmb_transaction.specs.Capture.{Viable};
ghost use Rattle.pmb_facts.specs.Fact.{WhatData, fact_command, fact_device, sent_command, written_command};
ghost use Rattle.pmb_facts.specs.Stands.{Stands};

use pmb_bus::{Event, Kinds};
use pmb_json_objects::Head;
use pmb_partial_packet::PartialPacket;
use pmb_transaction::{Part, Reason};

/// A fact of a capture.
#[derive(Clone, Copy)]
pub enum What<'f> {
    /// A part of a write: its number, of how many.
    Write {
        part: u64,
        parts: u64,
        written: &'f Part,
    },
    Read {
        addr: u8,
        code: u8,
        reply: &'f [u8],
        pec: bool,
    },
    Call {
        addr: u8,
        code: u8,
        sent: &'f [u8],
        reply: &'f [u8],
        pec: bool,
    },
    /// A leg that was refused, as the last of so many parts: its address, what was sent after that, and
    /// whether the device refused to be read.
    Refused {
        parts: u64,
        addr: u8,
        sent: &'f [u8],
        at_read: bool,
    },
    /// A device replied at the Alert Response Address, with this byte.
    Alert {
        byte: u8,
        pec: bool,
    },
    /// No device replied there.
    NoAlert,
    /// A packet to an address that speaks no PMBus.
    Other {
        addr: u8,
    },
    /// An event that no packet can have there (`None`: the events end): what the packet had said, why, and
    /// the kinds of events that might have come.
    Refusal {
        said: &'f PartialPacket,
        event: Option<Event>,
        reason: Reason,
        expected: Kinds,
    },
    /// A word that is no token.
    BadToken {
        word: &'f [u8],
    },
}

/// A fact, and where and when it begins.
#[derive(Clone, Copy)]
pub struct Fact<'f> {
    pub head: Head<'f>,
    pub what: What<'f>,
}

/// A command code, and the address to which it was sent, of seven bits.
#[derive(Clone, Copy)]
pub struct CommandAt {
    pub addr: u8,
    pub code: u8,
}

impl<'f> What<'f> {
    /// The address that a fact names, of seven bits, if it names one.
    pub fn device(self) -> Option<u8>
        ensures { (known : WhatData) → Stands self.entry known → result ≡ fact_device known }
    {
        match self {
            What::Write { written, .. } => Some(written.addr),
            What::Read { addr, .. }
            | What::Call { addr, .. }
            | What::Refused { addr, .. }
            | What::Other { addr } => Some(addr),
            What::Alert { byte, .. } => Some(byte / 2),
            What::Refusal { said, .. } => said.device(),
            What::NoAlert | What::BadToken { .. } => None,
        }
    }

    /// The code that a fact has, and where it was sent: of a refusal, that of the last leg that is
    /// written.
    pub fn command(self) -> Option<CommandAt>
        ensures { (known : WhatData) → Stands self.entry known → result ≡ fact_command known }
    {
        match self {
            What::Write { written, .. } => Some(CommandAt {
                addr: written.addr,
                code: written.code,
            }),
            What::Read { addr, code, .. } | What::Call { addr, code, .. } => {
                Some(CommandAt { addr, code })
            }
            What::Refused { addr, sent, .. } => sent_command(addr, sent),
            What::Refusal { said, .. } => written_command(said),
            What::Alert { .. } | What::NoAlert | What::Other { .. } | What::BadToken { .. } => None,
        }
    }
}

/// The code comes first among the bytes that were sent.
fn sent_command(addr: u8, sent: &[u8]) -> Option<CommandAt>
    ensures { result ≡ sent_command addr sent.now }
{
    match sent {
        [code, ..] => Some(CommandAt { addr, code: *code }),
        [] => None,
    }
}

/// The command of the last leg that is written.
fn written_command(said: &PartialPacket) -> Option<CommandAt>
    ensures { (profile : List DeviceParts) (front : List BusEvent) → Viable profile front → SaidStandsAt said.now front
        → result ≡ written_command (written_to front) (sent front) }
{
    let Some(addr) = said.written_to() else {
        return None;
    };
    let Some(sent) = said.sent() else {
        return None;
    };
    sent_command(addr, sent)
}
