//! The item of a fact.

ghost use Rattle.std.specs.Prelude.{◌≡◌, ◌≤◌, List, length, take};
ghost use Rattle.pmb_bus.specs.declared.event.Event.{Event as BusEvent};
ghost use Rattle.pmb_command.specs.Parts.{DeviceParts};
ghost use Rattle.pmb_facts.specs.Fact.{WhatData};
ghost use Rattle.pmb_facts.specs.Stands.{IsShort, Stands};
ghost use Rattle.pmb_json_objects.specs.Head.{head_of};
ghost use Rattle.pmb_json_objects.specs.Seen.{SeenData};
ghost use Rattle.pmb_json_objects.specs.Sees.{Sees};
ghost use Rattle.pmb_partial_packet.specs.Standing.{SaidStandsAt};
ghost use Rattle.pmb_transaction.specs.Capture.{Viable};
ghost use Rattle.pmb_transaction.specs.Transaction.{part_data};
ghost use Rattle.pmb_items.specs.Item.{alert_item, bad_token_item, bare, call_item, item_head, item_of, part_of, read_item, refusal_item, refused_at, refused_item, write_item};

use crate::bytes::{leg, or_none, text};
use crate::command::{command_seen, no_command, sent_command, written_command};
use crate::item::{Item, ItemHead, ItemPart};
use crate::number::{no_number, number_at};
use crate::pec::{no_pec, packet_pec, refusal_pec, refused_pec};
use crate::refusal::{no_refusal, refusal_of};
use pmb_bus::{Event, Kinds};
use pmb_facts::{Fact, What};
use pmb_json_objects::{Head, Seen};
use pmb_partial_packet::PartialPacket;
use pmb_transaction::{Part, Reason};

/// How many bytes of a word are told.
const WORD: usize = 32;

impl Item {
    /// The item of a fact, by what is known where its packet begins.
    pub fn of(seen: &Seen<'_>, fact: Fact<'_>) -> Item
        requires few { IsShort fact.what }
        ensures { (known : SeenData) (what : WhatData) → Sees seen.now known → Stands fact.entry.what what
            → result ≡ item_of known (head_of fact.entry.head) what }
    {
        let head = fact.head;
        match fact.what {
            What::Write {
                part,
                parts,
                written,
            } => write_item(seen, head, part, parts, written),
            What::Read {
                addr,
                code,
                reply,
                pec,
            } => read_item(seen, head, addr, code, reply, pec),
            What::Call {
                addr,
                code,
                sent,
                reply,
                pec,
            } => call_item(seen, head, addr, code, sent, reply, pec),
            What::Refused {
                parts,
                addr,
                sent,
                at_read,
            } => refused_item(seen, head, parts, addr, sent, at_read),
            What::Alert { byte, pec } => alert_item(head, byte, pec),
            What::NoAlert => bare(head, 5, None),
            What::Other { addr } => bare(head, 6, Some(addr)),
            What::Refusal {
                said,
                event,
                reason,
                expected,
            } => refusal_item(seen, head, said, event, reason, expected),
            What::BadToken { word } => bad_token_item(head, word),
        }
    }
}

/// The item of a part of a write.
fn write_item(seen: &Seen<'_>, head: Head<'_>, part: u64, parts: u64, written: &Part) -> Item
    ensures { (known : SeenData) → Sees seen.now known → result ≡ write_item known (head_of head.entry) part parts (part_data written.now) }
{
    let bytes = written.bytes.as_slice();
    Item {
        part: part_of(part, parts),
        number: number_at(seen, written.addr, written.code, bytes),
        command: command_seen(seen, written.addr, written.code),
        pec: packet_pec(written.pec),
        sent: leg(Some(bytes)),
        ..bare(head, 1, Some(written.addr))
    }
}

/// The item of a read.
fn read_item(seen: &Seen<'_>, head: Head<'_>, addr: u8, code: u8, reply: &[u8], pec: bool) -> Item
    requires { length reply.now ≤ 255 }
    ensures { (known : SeenData) → Sees seen.now known
        → result ≡ read_item known (head_of head.entry) (record { addr = addr; code = code; reply = reply.now; pec = pec }) }
{
    Item {
        number: number_at(seen, addr, code, reply),
        command: command_seen(seen, addr, code),
        pec: packet_pec(pec),
        reply: leg(Some(reply)),
        ..bare(head, 2, Some(addr))
    }
}

/// The item of a process call.
fn call_item(
    seen: &Seen<'_>,
    head: Head<'_>,
    addr: u8,
    code: u8,
    sent: &[u8],
    reply: &[u8],
    pec: bool,
) -> Item
    requires sent { length sent.now ≤ 255 }
    requires reply { length reply.now ≤ 255 }
    ensures { (known : SeenData) → Sees seen.now known
        → result ≡ call_item known (head_of head.entry) (record { addr = addr; code = code; bytes = sent.now; reply = reply.now; pec = pec }) }
{
    Item {
        command: command_seen(seen, addr, code),
        pec: packet_pec(pec),
        sent: leg(Some(sent)),
        reply: leg(Some(reply)),
        ..bare(head, 3, Some(addr))
    }
}

/// The item of a leg that was refused, as the last of so many parts.
fn refused_item(
    seen: &Seen<'_>,
    head: Head<'_>,
    parts: u64,
    addr: u8,
    sent: &[u8],
    at_read: bool,
) -> Item
    requires { length sent.now ≤ 258 }
    ensures { (known : SeenData) → Sees seen.now known → result ≡ refused_item known (head_of head.entry) parts addr sent.now at_read }
{
    Item {
        part: part_of(parts, parts),
        command: sent_command(seen, addr, sent),
        pec: refused_pec(seen, addr, sent, at_read),
        refused: refused_at(sent, at_read),
        sent: leg(Some(sent)),
        ..bare(head, 4, Some(addr))
    }
}

/// The item of a device that replied at the Alert Response Address.
fn alert_item(head: Head<'_>, byte: u8, pec: bool) -> Item
    ensures { result ≡ alert_item (head_of head.entry) (record { byte = byte; pec = pec }) }
{
    Item {
        pec: packet_pec(pec),
        reply: leg(Some(&[byte])),
        ..bare(head, 5, Some(byte / 2))
    }
}

/// The item of a refusal.
fn refusal_item(
    seen: &Seen<'_>,
    head: Head<'_>,
    said: &PartialPacket,
    event: Option<Event>,
    reason: Reason,
    expected: Kinds,
) -> Item
    ensures { (known : SeenData) (profile : List DeviceParts) (front : List BusEvent) → Sees seen.now known → Viable profile front → SaidStandsAt said.now front
        → result ≡ refusal_item known (head_of head.entry) front event reason expected }
{
    Item {
        command: written_command(seen, said),
        pec: refusal_pec(said, reason, event),
        refusal: refusal_of(reason, expected, event),
        sent: leg(said.sent()),
        reply: leg(said.reply()),
        ..bare(head, 7, said.device())
    }
}

/// The item of a word that is no token.
fn bad_token_item(head: Head<'_>, word: &[u8]) -> Item
    ensures { result ≡ bad_token_item (head_of head.entry) word.now }
{
    Item {
        word: text(Some(told(word))),
        ..bare(head, 8, None)
    }
}

/// The bytes of a word that are told.
fn told(word: &[u8]) -> &[u8]
    ensures text { result.now ≡ take 32 word.now }
    ensures short { length result.now ≤ 32 }
{
    if word.len() > WORD {
        &word[..WORD]
    } else {
        word
    }
}

/// An item of a kind, and the device that it names. Nothing else is said.
fn bare(head: Head<'_>, kind: u8, device: Option<u8>) -> Item
    ensures { result ≡ bare (head_of head.entry) kind device }
{
    Item {
        head: item_head(head),
        part: part_of(0, 0),
        number: no_number(),
        command: no_command(),
        pec: no_pec(),
        device: or_none(device),
        kind,
        refused: 0,
        refusal: no_refusal(),
        sent: leg(None),
        reply: leg(None),
        word: text(None),
    }
}

/// Where and when it begins.
fn item_head(head: Head<'_>) -> ItemHead
    ensures { result ≡ item_head (head_of head.entry) }
{
    ItemHead {
        at: head.at,
        line: head.place.line,
        column: head.place.column,
        time: text(head.time),
    }
}

fn part_of(number: u64, count: u64) -> ItemPart
    ensures { result ≡ part_of number count }
{
    ItemPart { number, count }
}

/// What was refused: the address, a code, a later byte, or to be read.
fn refused_at(sent: &[u8], at_read: bool) -> u8
    ensures { result ≡ refused_at sent.now at_read }
{
    if at_read {
        return 4;
    }
    match sent {
        [] => 1,
        [_] => 2,
        [_, _, ..] => 3,
    }
}
